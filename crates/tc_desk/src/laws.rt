//! Laws about the events that operators make at a desk, and about the moments at which their calls are answered.

ghost use Rattle.std.specs.Prelude.{ℕ, List, ◌≡◌, ◌≢◌, [], ◌∷◌, length, take, slice_get, Some};
ghost use Rattle.tc_channel.specs.declared.event.Event.{Event};
ghost use Rattle.logged_lock.specs.Log.{IsBeginning, IsMergeOf, made_by};
ghost use Rattle.tc_desk.specs.Log.{Moment, Own};
ghost use Rattle.tc_queues.specs.declared.reply.Delivery.{Delivery};
ghost use Rattle.tc_queues.specs.declared.reply.ReleaseFault.{ReleaseFault};
ghost use Rattle.tc_desk.specs.Call.{IsReleased, IsReleaseFault, made, looked};
ghost use Rattle.tc_desk.specs.Alone.{HasMadeAll, HasSeenItsOwn};

/// If a journal is a merge of the events of one operator alone, that operator has made, and has seen, all events of the
/// journal. This law and the next one are about an operator that has seen a beginning of the journal, with at least as
/// many events as it has made.
pub fn the_only_operator_made_the_whole_journal()
    ensures { (own : Own) (journal : List Event) → HasSeenItsOwn own
        → IsBeginning own.seen (record { head = own.seen.head; entries = journal }) → IsMergeOf journal (own ∷ [])
        → HasMadeAll own × (own.seen.entries ≡ journal) }
{}

/// If a journal is a merge of the events of several operators, and only one of them made any, that operator has made,
/// and has seen, all events of the journal.
pub fn the_only_maker_made_the_whole_journal()
    ensures { (makers : List Own) (k : ℕ) (own : Own) (journal : List Event) → made_by makers k ≡ own.made
        → ((j : ℕ) → j ≢ k → made_by makers j ≡ []) → HasSeenItsOwn own
        → IsBeginning own.seen (record { head = own.seen.head; entries = journal }) → IsMergeOf journal makers
        → HasMadeAll own × (own.seen.entries ≡ journal) }
{}

/// Suppose that after a call an operator has made all events that it has seen. Then it had made all events that it had
/// seen before the call, too, and the call was answered at exactly the moment that it had seen. An operator that works
/// alone is therefore answered after the journal of its own events so far. The law is about operators that have seen at
/// least as many events as they have made, and each call keeps them so.
pub fn one_alone_is_answered_after_its_own_events()
    ensures event { (before : Own) (now : Moment) (e : Event) → HasSeenItsOwn before → IsBeginning before.seen now
        → HasMadeAll (made e now before) → HasMadeAll before × (now ≡ before.seen) }
    ensures look { (before : Own) (now : Moment) → HasSeenItsOwn before → IsBeginning before.seen now
        → HasMadeAll (looked now before) → HasMadeAll before × (now ≡ before.seen) }
    ensures seen { (before : Own) (now : Moment) (e : Event) → HasSeenItsOwn before → IsBeginning before.seen now
        → HasSeenItsOwn (made e now before) × HasSeenItsOwn (looked now before) }
{}

/// An event that an operator made is at its place in each later journal of the desk. The moment at which the call was
/// answered is the beginning of that journal before the event. By the contracts of [`DeskOperator::operate`] and
/// [`close_together`](crate::close_together), each answer is therefore one that a beginning of the closed journal
/// determines.
pub fn each_event_stands_at_its_place()
    ensures { (before : Own) (now : Moment) (e : Event) (closed : Moment) → IsBeginning (made e now before).seen closed
        → (slice_get closed.entries (length now.entries) ≡ Some e)
        × (now ≡ record { head = closed.head; entries = take (length now.entries) closed.entries }) }
{}

/// A release is answered only if a data field waits, and refused as empty only if none does. It is therefore never both
/// answered and refused as empty at one moment.
pub fn a_release_finds_a_data_field()
    ensures { (m : Moment) (delivery : Delivery) → IsReleased m delivery → IsReleaseFault m ReleaseFault.Empty → ⊥ }
{}
