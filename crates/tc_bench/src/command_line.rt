//! The command line.

/// The form of a channel, which determines whether its journal is kept, and when the channel requests memory.
#[derive(Clone, Copy)]
pub(crate) enum Kind {
    /// A channel whose journal is kept in memory.
    Recorded,
    /// A channel whose journal takes no memory.
    Counting,
    /// A channel whose journal takes no memory, and which keeps all else in rooms that are created with it.
    Rooms,
}

/// The load that is brought to a bare channel in each round, and the items that are then taken.
#[derive(Clone, Copy)]
pub(crate) enum Load {
    /// A Type-AD frame of 13 octets. Its data field is released, and its packet is taken.
    Sequenced,
    /// A Type-BD frame of 13 octets. Its packet is taken.
    Bypassing,
    /// A Type-BD frame with a hundred packets of seven octets. Each of them is taken.
    Packets,
    /// Type-BD frames with the 65 segments of a packet of 65,542 octets. That packet is taken.
    Segments,
}

/// The action that a command line requests.
#[derive(Clone, Copy)]
pub(crate) enum Action<'a> {
    /// A run of the load that prints its scores.
    Scores,
    /// A run that makes a number of rounds of a load on a channel of a form, and prints their score.
    Rounds(Kind, Load, u32),
    /// The filling of a channel, or calls of each kind on it. The word selects one of the two, and the channel.
    Fill(&'a str),
    /// A single call, by its name, on a channel with a number of queues.
    Worst(&'a str, u16),
}

/// Returns the action that the words request, or `None` if they request none. The program's name is the first word.
pub(crate) fn judge(words: &[String]) -> Option<Action<'_>> {
    match words {
        [] | [_] => Some(Action::Scores),
        [_, word, what] if word.as_str() == "fill" => Some(Action::Fill(what.as_str())),
        [_, word, call, queues] if word.as_str() == "worst" => {
            Some(Action::Worst(call.as_str(), queues.as_str().parse().ok()?))
        }
        [_, word, form, count] => rounds(word.as_str(), form.as_str(), "sequenced", count.as_str()),
        [_, word, form, count, load] => {
            rounds(word.as_str(), form.as_str(), load.as_str(), count.as_str())
        }
        _ => None,
    }
}

// Returns the action of `count` rounds of a load on a channel of the form that a word names.
fn rounds(word: &str, form: &str, load: &str, count: &str) -> Option<Action<'static>> {
    let form = match (word, form) {
        ("rounds", "recorded") => Kind::Recorded,
        ("rounds", "counting") => Kind::Counting,
        ("rounds", "rooms") => Kind::Rooms,
        _ => return None,
    };
    let load = match load {
        "sequenced" => Load::Sequenced,
        "bypassing" => Load::Bypassing,
        "packets" => Load::Packets,
        "segments" => Load::Segments,
        _ => return None,
    };
    Some(Action::Rounds(form, load, count.parse().ok()?))
}
