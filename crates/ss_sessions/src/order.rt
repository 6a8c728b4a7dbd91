// What a line of sessions says.
use ss_catalog::{Name, Refusal};
use ss_command::Command;

/// What a session asks for.
#[derive(Clone, Copy, Debug, PartialEq, Eq)]
pub enum Order {
    /// What a line by itself may ask for.
    Command(Command),
    /// To open the cursor of the session, over the windows of a stream.
    Open(Name),
    /// To show the next rows of the cursor: at most so many, from 1 to `MOST_ASKED`.
    Next(u32),
    /// To end the cursor.
    Close,
}

/// What a line of sessions says.
#[derive(Clone, Copy, Debug, PartialEq, Eq)]
pub enum Spoken {
    /// Nothing.
    Nothing,
    /// It isn't addressed to a session, and is refused: SYNTAX.
    Unaddressed,
    /// To the session of a number below `SESSIONS`: nothing, an order, or why it is refused.
    To {
        session: u8,
        said: Result<Option<Order>, Refusal>,
    },
}
