// What a run is asked to do.

/// How the input becomes commands, and what is said to them.
#[derive(Clone, Copy, Debug, PartialEq, Eq)]
pub enum Form {
    /// Each line is a command. Where `framed`, the frame of each accepted event stands behind its reply.
    Lines { framed: bool },
    /// Each line is a command of one of eight sessions, or a form of its cursor. Where `framed`, as above.
    Sessions { framed: bool },
    /// Each line is a command, of which events alone are done: what is written are the frames of those that are accepted, in place of replies.
    Frames,
    /// Each 64 bytes are a frame, whose event is applied where it is the next of its stream.
    Follow,
}

/// Which events come to the disk together, by one seal of the store.
#[derive(Clone, Copy, Debug, PartialEq, Eq)]
pub enum Sealing {
    /// Each by itself, before its reply is sent.
    Each,
    /// Those whose lines came in one read of the source, before the replies to these lines are sent.
    Shared,
}

/// What the arguments of the command line ask for.
#[derive(Clone, Copy, Debug, PartialEq, Eq)]
pub enum Mode {
    /// Read the command file from the source.
    Serve { form: Form, sealing: Sealing },
    /// Read the store, write nothing to it, and print what it holds.
    Check,
    /// Run the generated command file of `count` rounds from this seed on.
    Gen { seed: u64, count: u32 },
}
