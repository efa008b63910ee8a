//! Octets in a block of one size, and octets in a block that grows.

ghost use Rattle.std.specs.Prelude.{◌≡◌, ◌≤◌, ◌+◌, ◌++◌, Bool, false, [], length, take, IfOk, IsOk, OnOk, OnErr};
ghost use Rattle.tc_packet.specs.Room.{Contents, contents_of};

use std::alloc::{AllocError, Global};
use std::boxed::BoxedSlice;
use std::marker::Model;
use std::mem::replace;

/// A place for the octets of one item or of one run, up to a size. Queues and reassembly are generic over this trait.
/// So one implementation serves both rooms that are allocated once ([`FixedRoom`]) and rooms that grow
/// ([`GrowingRoom`]).
pub trait Room: Drop {
    // the octets in use, and the largest number of octets that may be in use
    ghost contents: { Self → Contents };

    // Whether memory may be requested when octets are stored. If not, storing never fails.
    ghost grows: { Bool };

    /// Creates a room for `size` octets, none of them in use.
    fn with_size(alloc: Global, size: usize) -> Result<Self, AllocError>
        ensures { IfOk result (λ r. contents r ≡ contents_of [] size) };

    /// Returns whether memory may be requested when octets are stored.
    fn may_ask() -> bool
        ensures { result ≡ grows };

    /// Returns the largest number of octets that may be in use.
    fn size(&self) -> usize
        ensures size { result ≡ (contents self.now).size };

    /// Replaces the octets in use with a copy of `octets`. If memory runs out, the octets in use stay as they are.
    fn fill(&mut self, octets: &[u8]) -> Result<(), AllocError>
        requires { length octets.now ≤ (contents self.old).size }
        ensures filled { OnOk result (contents self.new ≡ contents_of octets.now (contents self.old).size) }
        ensures refused { OnErr result (contents self.new ≡ contents self.old) }
        ensures answered { grows ≡ false → IsOk result };

    /// Copies `octets` behind those in use. If memory runs out, the octets in use stay as they are.
    fn append(&mut self, octets: &[u8]) -> Result<(), AllocError>
        requires { length (contents self.old).octets + length octets.now ≤ (contents self.old).size }
        ensures appended { OnOk result (contents self.new ≡ contents_of ((contents self.old).octets ++ octets.now) (contents self.old).size) }
        ensures refused { OnErr result (contents self.new ≡ contents self.old) }
        ensures answered { grows ≡ false → IsOk result };

    /// Keeps only the first `count` octets in use.
    fn cut(&mut self, count: usize)
        ensures cut { contents self.new ≡ contents_of (take count (contents self.old).octets) (contents self.old).size };

    /// Leaves no octets in use, and frees a block that grew.
    fn clear(&mut self)
        ensures cleared { contents self.new ≡ contents_of [] (contents self.old).size };

    /// Lends the octets in use.
    fn as_slice(&self) -> &[u8]
        ensures octets { result.now ≡ (contents self.now).octets }
        ensures within { length result.now ≤ (contents self.now).size };
}

/// A block of octets, whose first ones are in use. The block has no call that grows it, so only `with_size`
/// allocates.
#[derive(Drop)]
pub struct FixedRoom {
    block: BoxedSlice<u8>,
    len: usize,
}

impl Model for FixedRoom {
    ghost use Rattle.std.specs.Prelude.{◌≤◌, take, length};
    ghost use Rattle.std.specs.Box.{boxed_slice_items};
    ghost use Rattle.tc_packet.specs.Room.{Contents, contents_of};

    ghost Value = { Contents };

    ghost view = { λ r. contents_of (take r.len (boxed_slice_items r.block)) (length (boxed_slice_items r.block)) };

    ghost invariant = { λ r. r.len ≤ length (boxed_slice_items r.block) };
}

// Overwrites the block with `octets`, from place `from` on.
fn write_at(block: &mut [u8], from: usize, octets: &[u8])
    requires { from + length octets.now ≤ length block.old }
    ensures octets { take (from + length octets.now) block.new ≡ take from block.old ++ octets.now }
    ensures length { length block.new ≡ length block.old }
{
    block[from..from + octets.len()].copy_from_slice(octets);
}

impl Room for FixedRoom {
    ghost contents = { λ r. r };

    ghost grows = { false };

    fn with_size(alloc: Global, size: usize) -> Result<FixedRoom, AllocError> {
        Ok(FixedRoom {
            block: vec![in alloc; 0; size]?.into_boxed_slice(),
            len: 0,
        })
    }

    #[inline(always)]
    fn may_ask() -> bool {
        false
    }

    fn size(&self) -> usize {
        self.block.as_slice().len()
    }

    #[inline(always)]
    fn fill(&mut self, octets: &[u8]) -> Result<(), AllocError> {
        self.len = octets.len();
        write_at(&mut self.block, 0, octets);
        Ok(())
    }

    fn append(&mut self, octets: &[u8]) -> Result<(), AllocError> {
        write_at(&mut self.block, self.len, octets);
        self.len += octets.len();
        Ok(())
    }

    fn cut(&mut self, count: usize) {
        if count < self.len {
            self.len = count;
        }
    }

    fn clear(&mut self) {
        self.len = 0;
    }

    fn as_slice(&self) -> &[u8] {
        &self.block.as_slice()[..self.len]
    }
}

/// A block of octets that grows when it is too small, up to a size.
#[derive(Drop)]
pub struct GrowingRoom {
    alloc: Global,
    block: Vec<u8>,
    size: usize,
}

impl Model for GrowingRoom {
    ghost use Rattle.std.specs.Prelude.{◌≤◌, length};
    ghost use Rattle.tc_packet.specs.Room.{Contents, contents_of};

    ghost Value = { Contents };

    ghost view = { λ r. contents_of r.block.items r.size };

    ghost invariant = { λ r. length r.block.items ≤ r.size };
}

impl Room for GrowingRoom {
    ghost use Rattle.std.specs.Prelude.{true};

    ghost contents = { λ r. r };

    ghost grows = { true };

    fn with_size(alloc: Global, size: usize) -> Result<GrowingRoom, AllocError> {
        Ok(GrowingRoom {
            alloc,
            block: Vec::new(alloc),
            size,
        })
    }

    #[inline(always)]
    fn may_ask() -> bool {
        true
    }

    fn size(&self) -> usize {
        self.size
    }

    fn fill(&mut self, octets: &[u8]) -> Result<(), AllocError> {
        if octets.len() <= self.block.capacity() {
            self.block.clear();
            return self.block.extend_from_slice(octets);
        }
        self.block = Vec::from_slice(self.alloc, octets)?;
        Ok(())
    }

    fn append(&mut self, octets: &[u8]) -> Result<(), AllocError> {
        self.block.extend_from_slice(octets)
    }

    fn cut(&mut self, count: usize) {
        self.block.truncate(count);
    }

    fn clear(&mut self) {
        self.block = Vec::new(self.alloc);
    }

    fn as_slice(&self) -> &[u8] {
        &self.block
    }
}

impl GrowingRoom {
    /// Takes out the block that holds the octets in use, and leaves none in use. No octet is copied, and no memory is
    /// requested.
    pub fn take_block(&mut self) -> Vec<u8>
        ensures octets { result.items ≡ self.old.octets }
        ensures cleared { self.new ≡ contents_of [] self.old.size }
    {
        replace(&mut self.block, Vec::new(self.alloc))
    }

    // Returns a copy whose block has room for `more` further octets, or for as many as the size allows.
    pub(crate) fn copied(&self, more: usize) -> Result<GrowingRoom, AllocError>
        ensures { IfOk result (λ r. r ≡ self.now) }
    {
        let free = self.size - self.block.len();
        let mut block = Vec::with_capacity(self.alloc, self.block.len() + more.min(free))?;
        block.extend_from_slice(&self.block)?;
        Ok(GrowingRoom {
            alloc: self.alloc,
            block,
            size: self.size,
        })
    }
}
