//! A number that each answer changes.

use tc_channel::{Delivery, FrameReply};

/// The factor by which the score so far is multiplied before a word is added, a prime above 2^40.
const FACTOR: u64 = 1_099_511_628_211;

/// A number that the answers and their order determine. It is 0 before the first answer.
#[derive(Drop)]
pub(crate) struct Score {
    pub(crate) sum: u64,
}

impl Score {
    /// Adds a word of an answer.
    #[inline(always)]
    pub(crate) fn add(&mut self, word: u64) {
        self.sum = self.sum.wrapping_mul(FACTOR).wrapping_add(word);
    }

    /// Adds the delivery of the packets that a call offered.
    #[inline(always)]
    pub(crate) fn add_delivery(&mut self, delivery: Delivery) {
        self.add(u64::from(delivery.queued));
        self.add(u64::from(delivery.dropped));
        self.add(u64::from(delivery.rest));
    }

    /// Adds the reply to a frame.
    #[inline(always)]
    pub(crate) fn add_reply(&mut self, vcid: u8, reply: FrameReply) {
        self.add(u64::from(vcid));
        self.add(u64::from(reply.act.event));
        self.add(u64::from(reply.act.accepted));
        self.add_delivery(reply.delivery);
    }

    /// Adds a packet: the number of its octets, and each of them.
    #[inline(always)]
    pub(crate) fn add_packet(&mut self, octets: &[u8]) {
        self.add(octets.len() as u64);
        for octet in octets {
            self.add(u64::from(*octet));
        }
    }
}
