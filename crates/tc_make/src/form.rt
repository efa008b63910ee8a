//! The forms of commands.

ghost use Rattle.std.specs.Prelude.{◌≡◌};
ghost use Rattle.tc_make.specs.Printed.{bounds_text, form_text, note_text};

/// A command with the words that it takes.
#[derive(Clone, Copy, Debug, PartialEq, Eq)]
pub enum Form {
    Packet,
    Ad,
    Bd,
    Unlock,
    SetVr,
    Segments,
    Explain,
    Clcw,
    Cltu,
    Random,
    Tm,
    Telemetry,
    Decoder,
    Octets,
    Search,
    Frames,
}

impl Form {
    /// Returns the name of the command and the names of its words, as `tcmake --help` lists them.
    pub fn as_str(&self) -> &'static str
        ensures { result.now ≡ form_text self.now }
    {
        match self {
            Form::Packet => "packet APID COUNT HEX",
            Form::Ad => "ad SCID VC NS MAP HEX",
            Form::Bd => "bd SCID VC MAP HEX",
            Form::Unlock => "unlock SCID VC",
            Form::SetVr => "setvr SCID VC X",
            Form::Segments => "segments SCID VC NS MAP SIZE HEX",
            Form::Explain => "explain HEX",
            Form::Clcw => "clcw HEX",
            Form::Cltu => "cltu HEX",
            Form::Random => "random HEX",
            Form::Tm => "tm SCID VC SIZE HEX",
            Form::Telemetry => "telemetry HEX",
            Form::Decoder => "decoder ID MODE",
            Form::Octets => "octets ID HEX",
            Form::Search => "search ID",
            Form::Frames => "frames MOST HEX",
        }
    }

    /// Returns the note that follows the form. It is about the octets that the last word of the form spells, and is
    /// empty if the last word spells none.
    pub(crate) fn note(&self) -> &'static str
        ensures { result.now ≡ note_text self.now }
    {
        match self {
            Form::Unlock => "",
            Form::SetVr => "",
            Form::Decoder => "",
            Form::Search => "",
            _ => ", octets without spaces",
        }
    }
}

/// A word of a form that is a number.
#[derive(Clone, Copy, Debug, PartialEq, Eq)]
pub enum Number {
    Scid,
    Vcid,
    Ns,
    Map,
    Size,
    Apid,
    Count,
    Vr,
    Id,
    Most,
}

impl Number {
    /// Returns the name that forms use for the number, and the bounds of the number.
    pub fn as_str(&self) -> &'static str
        ensures { result.now ≡ bounds_text self.now }
    {
        match self {
            Number::Scid => "SCID is 0 to 1023",
            Number::Vcid => "VC is 0 to 63, for tm 0 to 7",
            Number::Ns => "NS is 0 to 255",
            Number::Map => "MAP is 0 to 63",
            Number::Size => "SIZE is 1 to 1018, for tm 11 to 2048",
            Number::Apid => "APID is 0 to 2047",
            Number::Count => "COUNT is 0 to 16383",
            Number::Vr => "X is 0 to 255",
            Number::Id => "ID is 0 to 255",
            Number::Most => "MOST is 0 to 255",
        }
    }
}
