//! The lines of a script on channels of a station, and on channels without a station.

use super::asking::{Asked, Asking, OperatorList};
use super::*;
use tc_channel::{CountingChannel, Octets};
use tc_cli::{Answer, Line, Reason, parse_line};
use tc_station::StationFault;
use test_parts::{made_again, room};

// A row of lines of a script and their answers. It is run on virtual channel 1 with these settings, both on a station
// and without one.
pub(super) struct Row<'a> {
    pub(super) name: &'a str,
    pub(super) wanted: &'a Wanted<'a>,
    pub(super) script: &'a str,
    pub(super) answers: &'a str,
}

// Creates the settings of channel 1 or of channel 2. Besides their ids, the two differ only in their first V(R).
pub(super) fn row_settings(rt: &impl Abort, alloc: Global, row: &Row, vcid: u8) -> Settings {
    let first = if vcid == 1 { 0 } else { 100 };
    let wanted = Wanted {
        vcid,
        first,
        ..*row.wanted
    };
    settings(alloc, &wanted).expect(rt, "settings")
}

// Creates a channel with the settings of `row_settings`, even if memory is refused once.
pub(super) fn new_channel(rt: &impl Abort, alloc: Global, row: &Row, vcid: u8) -> Channel {
    match Channel::new(alloc, row_settings(rt, alloc, row, vcid)) {
        Ok(channel) => channel,
        Err(_) => {
            let again = Channel::new(alloc, row_settings(rt, alloc, row, vcid));
            again.expect(rt, "a channel")
        }
    }
}

// Prints the name of the call for which memory was refused. The answer to the repeated call shows which call that was.
fn call_of(rt: &impl Print, who: &str, answer: &Asked) {
    let _ = match answer {
        Ok(Answer::Frame { vcid: _, reply }) => {
            println!(rt; "refused: {who}, event {}", reply.act.event)
        }
        Ok(Answer::Release { .. }) => println!(rt; "refused: {who}, release"),
        Ok(Answer::Take { .. }) => println!(rt; "refused: {who}, take"),
        Ok(Answer::Unit { .. }) => println!(rt; "refused: {who}, take_unit"),
        _ => println!(rt; "refused: {who}, which must not be"),
    };
}

// Carries out the operation of a line on `asked`, and returns the text of the answer. If memory runs out, nothing may
// have changed, and the operation is carried out again.
pub(super) fn ask<A: Asking, R: Wait + Abort + Print>(
    rt: &R,
    alloc: Global,
    who: &str,
    asked: &mut A,
    (vcid, line): (u8, &Line),
) -> String {
    let reported = asked.reported(rt, vcid);
    let mut answer = asked.ask(rt, vcid, line);
    if answer.is_err() {
        assert!(rt; asked.reported(rt, vcid) == reported, "{who}");
        answer = asked.ask(rt, vcid, line);
        call_of(rt, who, &answer);
    }
    text_of(rt, alloc, &answer.expect(rt, "an answer"))
}

// Returns the text of an answer, even if memory is refused once.
fn text_of(rt: &impl Abort, alloc: Global, answer: &Answer) -> String {
    match answer.to_string(alloc) {
        Ok(text) => text,
        Err(_) => answer.to_string(alloc).expect(rt, "a text"),
    }
}

// Returns the octets of the frame without its fill. Their number is one more than the value of the length field, which
// is ten bits of the header.
fn without_fill(octets: &[u8]) -> Option<&[u8]> {
    let high = *octets.get(2)? & 3;
    let low = *octets.get(3)?;
    let length = usize::from(u16::from_be_bytes([high, low])).saturating_add(1);
    octets.get(..length)
}

// Returns the event that a journal has for an operation that isn't refused. A CLCW has no event, and neither have
// octets without a frame.
fn event_of(alloc: Global, line: &Line) -> Option<Event> {
    match line {
        Line::Frame(octets) => frame_event(alloc, without_fill(octets.as_slice())?).ok(),
        Line::Release(_) => Some(Event::Release),
        Line::Take(_, apid) => Some(Event::Take(*apid)),
        Line::Unit(_, map) => Some(Event::TakeUnit(*map)),
        _ => None,
    }
}

// Returns the line with its frame for virtual channel 2 instead of 1.
fn for_channel_2(line: Line) -> Line {
    match line {
        Line::Frame(octets) => {
            let mut octets = octets.into_vec();
            if let Some(third) = octets.get_mut(2) {
                *third = third.wrapping_add(4);
            }
            Line::Frame(Octets::from(octets))
        }
        line => line,
    }
}

// Two channels without a station, with the settings of channels 1 and 2 of a station, and the journal that channel 1
// must have.
#[derive(Drop)]
pub(super) struct Replay {
    alloc: Global,
    first: Channel,
    second: Channel,
    journal: Vec<Event>,
}

impl Replay {
    pub(super) fn new(rt: &impl Abort, alloc: Global, row: &Row) -> Replay {
        Replay {
            alloc,
            first: new_channel(rt, alloc, row, 1),
            second: new_channel(rt, alloc, row, 2),
            journal: Vec::new(alloc),
        }
    }

    // Carries out the operation of a line on one of the channels without a station, and returns the answer.
    fn ask_alone(&mut self, rt: &(impl Wait + Abort + Print), (vcid, line): (u8, &Line)) -> String {
        if vcid == 1 {
            ask(rt, self.alloc, "Channel", &mut self.first, (vcid, line))
        } else {
            ask(rt, self.alloc, "Channel", &mut self.second, (vcid, line))
        }
    }

    // Carries out the operation of a line on `asked` and on the channel without a station, and checks that their
    // answers are the same.
    fn ask_both<A: Asking, R: Wait + Abort + Print>(
        &mut self,
        rt: &R,
        who: &str,
        asked: &mut A,
        line: (u8, &Line),
    ) -> String {
        let alone = self.ask_alone(rt, line);
        let reported = ask(rt, self.alloc, who, asked, line);
        assert_eq!(rt; reported.as_str(), alone.as_str(), "{who}");
        reported
    }

    // Checks that each channel reports the same CLCW as the channel without a station that has its settings.
    fn check_words<A: Asking, R: Wait + Abort>(&self, rt: &R, asked: &mut A) {
        assert!(rt; asked.reported(rt, 1).word == Some(self.first.clcw(NO_FLAG)));
        if asked.has_two() {
            assert!(rt; asked.reported(rt, 2).word == Some(self.second.clcw(NO_FLAG)));
        }
    }

    // Notes the event that the journal must have after this answer, unless the operation was refused.
    fn note(&mut self, rt: &impl Abort, event: Option<Event>, answered: &str) {
        if let Some(event) = event {
            if !answered.starts_with("refused ") {
                note(&mut self.journal, event).expect(rt, "a journal");
            }
        }
    }

    // Carries out the operation of a line on channel 1 and then on channel 2, if there is one. Checks that the answer
    // of channel 1 is the expected one, and that the journal then has the event, unless the operation was refused.
    fn step<A: Asking, R: Wait + Abort + Print>(
        &mut self,
        rt: &R,
        who: &str,
        asked: &mut A,
        (line, expected): (&str, &str),
    ) {
        let line = read_line(rt, self.alloc, line);
        let event = event_of(self.alloc, &line);
        let reported = self.ask_both(rt, who, asked, (1, &line));
        assert_eq!(rt; reported.as_str(), expected, "{who}");
        self.note(rt, event, expected);
        assert!(rt; self.first.journal() == self.journal.as_slice(), "{who}");
        self.check_words(rt, asked);
        if asked.has_two() {
            self.ask_both(rt, who, asked, (2, &for_channel_2(line)));
            self.check_words(rt, asked);
        }
    }

    // Carries out the operations of all lines, in order.
    pub(super) fn play<A: Asking, R: Wait + Abort + Print>(
        &mut self,
        rt: &R,
        who: &str,
        asked: &mut A,
        row: &Row,
    ) {
        self.check_words(rt, asked);
        let mut answers = row.answers.lines();
        for line in row.script.lines() {
            let expected = answers.next().expect(rt, "an answer");
            self.step(rt, who, asked, (line, expected));
        }
        assert!(rt; answers.next().is_none(), "{}", row.name);
    }

    // Checks that the journal of channel 1 is this one.
    pub(super) fn check_journal(&self, rt: &impl Abort, journal: &[Event]) {
        assert!(rt; journal == self.journal.as_slice());
    }

    // Checks that the closed channels of a station, in the order of its settings, have the settings, the number of
    // events, the FARM-1 report and the numbers of waiting items that the channels without a station have.
    pub(super) fn check_closed<J: Journal>(&self, rt: &impl Abort, channels: &[ChannelWith<J>]) {
        assert_eq!(rt; channels.len(), 2);
        check_same(rt, &channels[0], &self.second);
        check_same(rt, &channels[1], &self.first);
    }

    // Checks that the journals of closed channels are those of the channels without a station.
    pub(super) fn check_journals(&self, rt: &impl Abort, channels: &[Channel]) {
        assert_eq!(rt; channels.len(), 2);
        assert!(rt; channels[0].journal() == self.second.journal());
        assert!(rt; channels[1].journal() == self.first.journal());
    }
}

fn check_same<J: Journal>(rt: &impl Abort, closed: &ChannelWith<J>, alone: &Channel) {
    assert_eq!(rt; closed.events(), alone.events());
    assert_eq!(rt; closed.report(), alone.report());
    assert_eq!(rt; closed.buffered(), alone.buffered());
    assert_eq!(rt;
        (closed.queued(5), closed.units(3)),
        (alone.queued(5), alone.units(3))
    );
    assert!(rt; closed.settings() == alone.settings());
}

fn read_line(rt: &(impl Abort + Print), alloc: Global, line: &str) -> Line {
    let parse = || parse_line(alloc, line.as_bytes());
    made_again(rt, "parse_line", Reason::NoMemory, &parse).expect(rt, "a line")
}

// Creates a station for spacecraft 42 with virtual channels 2 and 1, in this order, even if memory is refused once.
fn new_station<J: Journal>(rt: &(impl Abort + Print), alloc: Global, row: &Row) -> StationOf<J> {
    for _ in 0..2 {
        let mut list = room(alloc, 2).expect(rt, "room");
        for vcid in [2, 1] {
            list.push(row_settings(rt, alloc, row, vcid))
                .expect(rt, "room");
        }
        match StationOf::new(alloc, 42, list) {
            Ok(station) => return station,
            Err(fault) => {
                let _ = println!(rt; "refused: Station::new");
                assert_eq!(rt; fault, StationFault::NoMemory);
            }
        }
    }
    panic!(rt; "refused twice")
}

// Plays a row on a station, and closes the station. Frames are brought with or without a watcher.
fn play_on<J: Journal>(
    rt: &(impl Wait + Abort + Print),
    alloc: Global,
    who: &str,
    is_watched: bool,
    row: &Row,
) -> (Replay, Vec<ChannelWith<J>>) {
    let mut operator_list: OperatorList<J> = OperatorList::new(
        rt,
        new_station(rt, alloc, row),
        is_watched,
    );
    let mut replay = Replay::new(rt, alloc, row);
    replay.play(rt, who, &mut operator_list, row);
    let channels = operator_list.close(rt, alloc);
    replay.check_closed(rt, &channels);
    (replay, channels)
}

// Plays a row on a station whose channels keep their journals.
pub(super) fn play_recorded(
    rt: &(impl Wait + Abort + Print),
    alloc: Global,
    who: &str,
    is_watched: bool,
    row: &Row,
) {
    let (replay, channels): (Replay, Vec<Channel>) = play_on(rt, alloc, who, is_watched, row);
    replay.check_journals(rt, &channels);
}

// Plays a row on a counting station.
pub(super) fn play_counting(
    rt: &(impl Wait + Abort + Print),
    alloc: Global,
    is_watched: bool,
    row: &Row,
) {
    let played: (Replay, Vec<CountingChannel>) = play_on(
        rt,
        alloc,
        "CountingStation",
        is_watched,
        row,
    );
    assert_eq!(rt; played.1.len(), 2);
}
