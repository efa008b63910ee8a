mod fields;
mod streams;
mod sums;
mod texts;
