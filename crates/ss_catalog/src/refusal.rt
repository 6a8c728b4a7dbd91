// Why a command is refused.
ghost use Rattle.std.specs.Prelude.{◌≡◌};
ghost use Rattle.ss_catalog.specs.Refusal.{refusal_name};

/// Why a command was refused. It then changed nothing. The first of these that applies is the answer, in this order;
/// docs/GUIDE.md ("Refusals") says exactly where each applies.
#[derive(Clone, Copy, Debug, PartialEq, Eq)]
pub enum Refusal {
    /// The line has more than 256 bytes.
    Line,
    /// The words fit no form.
    Syntax,
    /// A number isn't in its spelling or its range.
    Number,
    /// The name isn't a name.
    Name,
    /// No target has these parameters.
    Param,
    /// A stream of this name stands.
    Exists,
    /// As many streams stand as can, or the greatest number of a stream is taken.
    Streams,
    /// No stream of this name stands.
    Unknown,
    /// A landmark of the stream is open.
    Open,
    /// No landmark of the stream is open.
    NotOpen,
    /// The time isn't later than the last one of the stream.
    Time,
    /// The range ends before it begins.
    Range,
    /// The stream has as many values outside landmarks as it can take.
    StreamFull,
    /// The store has as many records as it can hold.
    StoreFull,
    /// The session has a cursor already.
    Busy,
    /// The session has no cursor.
    NoCursor,
    /// The bytes spell no valid frame.
    Frame,
}

impl Refusal {
    /// Its name in a reply.
    pub fn text(self) -> &'static str
        ensures { result.now ≡ refusal_name self }
    {
        match self {
            Refusal::Line => "LINE",
            Refusal::Syntax => "SYNTAX",
            Refusal::Number => "NUMBER",
            Refusal::Name => "NAME",
            Refusal::Param => "PARAM",
            Refusal::Exists => "EXISTS",
            Refusal::Streams => "STREAMS",
            Refusal::Unknown => "UNKNOWN",
            Refusal::Open => "OPEN",
            Refusal::NotOpen => "NOT_OPEN",
            Refusal::Time => "TIME",
            Refusal::Range => "RANGE",
            Refusal::StreamFull => "STREAM_FULL",
            Refusal::StoreFull => "STORE_FULL",
            Refusal::Busy => "BUSY",
            Refusal::NoCursor => "NO_CURSOR",
            Refusal::Frame => "FRAME",
        }
    }
}
