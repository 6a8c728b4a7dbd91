// What is replied to a line.
use ss_bounds::Fraction;
use ss_catalog::{Kind, Refusal};
use ss_frames::Frame;
use ss_model::{Ack, Newest, Outcome, Placed, Run, StreamRow};

/// Values that a window which a range splits may have had, all those inside the range or all those outside it: the
/// positions of its first and last value, how many values these are, and the values. A run without values isn't printed.
#[derive(Clone, Copy, Debug)]
pub struct Side {
    pub inner: bool,
    pub first: u64,
    pub last: u64,
    pub values: u64,
    pub runs: [Run; 3],
}

/// One line of a reply: the whole reply, or a head or a row of one that has rows. docs/GUIDE.md ("Replies") says which
/// comes when.
#[derive(Clone, Copy, Debug)]
pub enum Reply {
    /// An event was accepted.
    Done(Ack),
    /// A query was answered.
    Answered(Outcome),
    /// A command was refused.
    Refused(Refusal),
    /// So many rows of a series that asks for this follow.
    SeriesHead {
        kind: Kind,
        count: u32,
    },
    /// A row of a series: the time at which it begins, and the answer to its query.
    Row {
        at: u64,
        outcome: Outcome,
    },
    /// So many windows follow.
    WindowsHead(u32),
    /// A window.
    Window(Placed),
    /// So many streams follow.
    ListHead(u32),
    /// A stream.
    Stream(StreamRow),
    /// The end that is certified, what is in the range for sure, and how many windows it splits. Two lines of each follow.
    CertifyHead {
        answer: i128,
        base: i128,
        count: u32,
    },
    /// The end of a mean that is certified, if there is a mean, the sum and the count of what is in the range for sure, and how many
    /// windows it splits. Two lines of each follow.
    CertifyMeanHead {
        answer: Option<Fraction>,
        known: Fraction,
        count: u32,
    },
    /// Values that a split window may have had.
    Side(Side),
    /// The newest value of a stream.
    Last(Newest),
    /// So many values of landmarks follow.
    ValuesHead(u32),
    /// A value of a landmark, with its time.
    Value {
        at: u64,
        value: i64,
    },
    /// A cursor was opened, with so many rows.
    Cursor(u32),
    /// So many rows of a cursor follow.
    Rows(u32),
    /// A cursor was closed.
    Closed,
    /// A frame was passed over, since its stream has this event already.
    Old,
    /// A frame was passed over, since its stream has only so many events, and others come before this one.
    Gap(u64),
    /// The frame of the event that was accepted just before.
    Framed(Frame),
}

impl Default for Reply {
    ghost use Rattle.std.specs.Prelude.{◌≡◌};
    ghost use Rattle.ss_report.specs.declared.reply.Reply.TheVariants.{ListHead};

    ghost is_default = { λ reply. reply ≡ ListHead 0 };

    // What stands in a list of replies where none was put yet.
    fn default() -> Reply {
        Reply::ListHead(0)
    }
}
