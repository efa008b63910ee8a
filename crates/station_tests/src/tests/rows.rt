//! Operations on virtual channel 1, as lines of a script, and their answers.

use super::replay::{Row, play_counting, play_recorded};
use super::*;

static ROWS: [Row; 5] = [
    Row {
        name: "an open channel, once V(R) is set on both",
        wanted: &WANTED,
        script: "frame 302a0407008200c8\nclcw 1\nframe 002a040cc8c01005c0000000aa\nclcw 1\nrelease 1\ntake 1 5\nframe 002a040ccbc01005c0000000aa\nclcw 1\nframe 002a040cc8c01005c0000000aa\nframe 202a040c00c01005c0000000aa\ntake 1 5\nframe 102a04050000\nclcw 1\n",
        answers: "frame 1 E8 accepted 0 queued 0 dropped 0 rest 0\nclcw 1 010402c8\nframe 1 E1 accepted 1 queued 0 dropped 0 rest 0\nclcw 1 010402c9\nrelease 1 queued 1 dropped 0 rest 0\ntake 1 5 1005c0000000aa\nframe 1 E3 accepted 0 queued 0 dropped 0 rest 0\nclcw 1 01040ac9\nframe 1 E4 accepted 0 queued 0 dropped 0 rest 0\nframe 1 E6 accepted 1 queued 1 dropped 0 rest 0\ntake 1 5 1005c0000000aa\nframe 1 E9 accepted 0 queued 0 dropped 0 rest 0\nclcw 1 01040cc9\n",
    },
    Row {
        name: "Wait and Lockout, once V(R) is set on both",
        wanted: &WANTED,
        script: "frame 302a0407008200c8\nframe 202a040c00c01005c0000000aa\nframe 002a040cc8c01005c0000000aa\nframe 002a040cc9c01005c0000000aa\nframe 002a040c00c01005c0000000aa\nclcw 1\nrelease 1\nclcw 1\nframe 002a040cc9c01005c0000000aa\nframe 302a04050000\nclcw 1\nrelease 1\ntake 1 5\n",
        answers: "frame 1 E8 accepted 0 queued 0 dropped 0 rest 0\nframe 1 E6 accepted 1 queued 1 dropped 0 rest 0\nframe 1 E1 accepted 1 queued 0 dropped 0 rest 0\nframe 1 E2 accepted 0 queued 0 dropped 0 rest 0\nframe 1 E5 accepted 0 queued 0 dropped 0 rest 0\nclcw 1 01043cc9\nrelease 1 queued 0 dropped 1 rest 0\nclcw 1 01042cc9\nframe 1 E1 accepted 0 queued 0 dropped 0 rest 0\nframe 1 E7 accepted 0 queued 0 dropped 0 rest 0\nclcw 1 010406c9\nrefused empty\ntake 1 5 1005c0000000aa\n",
    },
    Row {
        name: "a packet from its frame to its taker",
        wanted: &WANTED,
        script: "frame 002a040c00c01005c0000000aa\nclcw 1\nrelease 1\ntake 1 6\ntake 1 5\ntake 1 5\n",
        answers: "frame 1 E1 accepted 1 queued 0 dropped 0 rest 0\nclcw 1 01040001\nrelease 1 queued 1 dropped 0 rest 0\nrefused no queue\ntake 1 5 1005c0000000aa\nrefused empty\n",
    },
    Row {
        name: "fill after a frame",
        wanted: &WANTED,
        script: "frame 002a040c00c01005c0000000aa555555\nclcw 1\nrelease 1\ntake 1 5\n",
        answers: "frame 1 E1 accepted 1 queued 0 dropped 0 rest 0\nclcw 1 01040001\nrelease 1 queued 1 dropped 0 rest 0\ntake 1 5 1005c0000000aa\n",
    },
    Row {
        name: "octets that are no frame",
        wanted: &WANTED,
        script: "frame 002a040c00c01005c0000000\nframe 002a04\nframe 402a040c00c01005c0000000aa\nframe 042a040c00c01005c0000000aa\nframe 442a040c00c01005c0000000aa\nframe 002a040400\n",
        answers: "refused truncated\nrefused short\nrefused version\nrefused spare\nrefused version\nrefused length\n",
    },
];

// Each row is played on stations whose channels keep their journals, and on stations whose channels only count events.
// It is played with and without watchers.
#[test]
fn a_station_answers_as_channels_that_stand_alone(rt: HostRuntime) {
    for row in &ROWS {
        for is_watched in [false, true] {
            play_recorded(&rt, rt.alloc(), row.name, is_watched, row);
            play_counting(&rt, rt.alloc(), is_watched, row);
        }
    }
}
