// What is due of a frame.

/// What the number of a frame says of it, beside the events that its stream has.
#[derive(Clone, Copy, Debug, PartialEq, Eq)]
pub enum Due {
    /// It is the next event.
    Next,
    /// The stream has this event.
    Old,
    /// Events are missing between those that the stream has, which are so many, and this one.
    Gap(u64),
}
