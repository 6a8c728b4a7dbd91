// Where a generator stands.

/// Which command comes next.
#[derive(Clone, Copy)]
pub enum Phase {
    /// The stream is created.
    Create,
    /// A landmark is opened, before the value of the round.
    Open,
    /// The value of the round is appended.
    Append,
    /// A landmark is closed, after the value of the round.
    Close,
    /// A query comes, after all rounds.
    Ask(Question),
    /// No command is left.
    Done,
}

/// The queries, in order: two of all values, and four of those in the middle third of the times.
#[derive(Clone, Copy)]
pub enum Question {
    CountOfAll,
    SumOfAll,
    Count,
    Sum,
    Min,
    Max,
}

impl Question {
    ghost use Rattle.std.specs.Prelude.{◌≡◌, ℕ, drop};
    ghost use Rattle.ss_generator.specs.Left.{from_question, left};
    ghost use Rattle.ss_generator.specs.declared.round.Round.{Round};

    /// The phase after this query.
    pub fn after(self) -> Phase
        ensures { (round : Round) → left round result ≡ drop 1 (from_question self round.time) }
    {
        match self {
            Question::CountOfAll => Phase::Ask(Question::SumOfAll),
            Question::SumOfAll => Phase::Ask(Question::Count),
            Question::Count => Phase::Ask(Question::Sum),
            Question::Sum => Phase::Ask(Question::Min),
            Question::Min => Phase::Ask(Question::Max),
            Question::Max => Phase::Done,
        }
    }
}
