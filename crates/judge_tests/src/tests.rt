mod accounts;
mod senders;
