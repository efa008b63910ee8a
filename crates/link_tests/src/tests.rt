mod blocks;
mod cltus;
mod link;
mod packets;
mod reassembler;
mod streams;
mod telemetry;
mod texts;
