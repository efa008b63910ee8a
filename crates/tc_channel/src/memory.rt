//! Laws on the items that wait in a channel and on the bound of its memory.

ghost use Rattle.std.specs.Prelude.{List, ℕ, true, ◌≡◌, ◌≤◌, ◌*◌};
ghost use Rattle.tc_queues.specs.declared.settings.Settings.{Settings};
ghost use Rattle.tc_channel.specs.declared.event.Event.{Event};
ghost use Rattle.tc_packet.specs.Reassembly.{largest_unit};
ghost use Rattle.tc_queues.specs.ChannelState.{buffer};
ghost use Rattle.tc_channel.specs.Run.{IsLawfulWithin, run_within};
ghost use Rattle.tc_queues.specs.Memory.{largest_field, memory_bound, memory_waiting, octets_in, octets_waiting, packets_stored, units_stored, waiting_in_all};

/// After any journal, the queues of a channel hold no more packets and units than its bound of memory counts. These
/// items together have no more octets than if each were as long as the largest unit. After a lawful journal, the buffer
/// has no more octets than if it were full of the largest data fields.
#[tactic(auto, using(crate::proofs::Closing::memory))]
pub fn no_more_items_wait_than_memory_counts()
    ensures packets { (limits : ℕ → ℕ) (s : Settings) (journal : List Event)
        → waiting_in_all (run_within limits s journal).queues ≤ packets_stored s }
    ensures units { (limits : ℕ → ℕ) (s : Settings) (journal : List Event) → waiting_in_all (run_within limits s journal).units ≤ units_stored s }
    ensures packet_octets { (limits : ℕ → ℕ) (s : Settings) (journal : List Event)
        → octets_waiting (run_within limits s journal).queues ≤ packets_stored s * largest_unit }
    ensures unit_octets { (limits : ℕ → ℕ) (s : Settings) (journal : List Event)
        → octets_waiting (run_within limits s journal).units ≤ units_stored s * largest_unit }
    ensures field_octets { (limits : ℕ → ℕ) (s : Settings) (journal : List Event) → IsLawfulWithin limits s journal
        → octets_in (buffer (run_within limits s journal)) ≤ s.buffer * largest_field }
{}

/// After each lawful journal, the items that wait in a channel with segment headers are within the bound of its memory:
/// the octets of packets, units and data fields, and the words of each item and of each queue.
#[tactic(auto, using(crate::proofs::Closing::memory))]
pub fn what_waits_is_within_the_bound_of_memory()
    ensures { (limits : ℕ → ℕ) (s : Settings) (journal : List Event) → s.segmented ≡ true → IsLawfulWithin limits s journal
        → memory_waiting s (run_within limits s journal) ≤ memory_bound s }
{}
