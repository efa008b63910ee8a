//! A table of the APIDs that the queues of a channel have.

ghost use Rattle.std.specs.Prelude.{◌≤◌, All};
ghost use Rattle.tc_rack.specs.Configuration.{AreApidsOf};

use tc_queues::QueueSetting;

/// The number of APIDs that a queue can have: all but that of idle packets.
const APIDS: usize = 2047;

/// A table with a flag for each APID that a queue can have. The flag is set if and only if a queue has the APID.
pub(crate) type Apids = [bool; APIDS];

/// Returns the table of the APIDs of these queues.
pub(crate) fn apids_of(queues: &[QueueSetting]) -> Apids
    requires { All (λ q. q.apid ≤ 2046) queues.now }
    ensures apids { AreApidsOf queues.now result }
{
    let mut apids = [false; APIDS];
    for queue in queues {
        apids[usize::from(queue.apid)] = true;
    }
    apids
}
