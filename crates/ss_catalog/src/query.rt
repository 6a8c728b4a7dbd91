// What is asked of a stream.
ghost use Rattle.std.specs.Prelude.{◌≡◌};
ghost use Rattle.ss_catalog.specs.Queries.{end_name, is_certified, is_guess, kind_name, series_verb};

use crate::Name;

/// What a query asks for, of all values of a stream in a range of times.
#[derive(Clone, Copy, Debug, PartialEq, Eq)]
pub enum Kind {
    /// How many values there are.
    Count,
    /// Their sum.
    Sum,
    /// The least of them.
    Min,
    /// The greatest of them.
    Max,
    /// Their mean.
    Mean,
    /// Whether a value is one of them.
    Has { value: i64 },
    /// How many values there are, and the likeliest number.
    CountGuess,
    /// Their sum, and the likeliest one.
    SumGuess,
    /// Their mean, and the likeliest one.
    MeanGuess,
}

impl Kind {
    /// Its name in a command and in a reply.
    pub fn text(self) -> &'static str
        ensures { result.now ≡ kind_name self }
    {
        match self {
            Kind::Count | Kind::CountGuess => "count",
            Kind::Sum | Kind::SumGuess => "sum",
            Kind::Min => "min",
            Kind::Max => "max",
            Kind::Mean | Kind::MeanGuess => "mean",
            Kind::Has { .. } => "has",
        }
    }

    /// The first word of a command that asks for it in rows, and of its reply.
    pub fn series_verb(self) -> &'static str
        ensures { result.now ≡ series_verb self }
    {
        if self.is_guess() {
            "estimates"
        } else {
            "series"
        }
    }

    // Whether the likeliest value is asked for.
    fn is_guess(self) -> bool
        ensures { result ≡ is_guess self }
    {
        matches!(self, Kind::CountGuess | Kind::SumGuess | Kind::MeanGuess)
    }

    /// Whether there are certificates of its answers.
    pub fn is_certified(self) -> bool
        ensures { result ≡ is_certified self }
    {
        matches!(self, Kind::Count | Kind::Sum | Kind::Mean)
    }
}

/// An end of the interval that a query answers.
#[derive(Clone, Copy, Debug, PartialEq, Eq)]
pub enum End {
    /// The least that the truth can be.
    Lo,
    /// The greatest that the truth can be.
    Hi,
}

impl End {
    /// Its name in a command.
    pub fn text(self) -> &'static str
        ensures { result.now ≡ end_name self }
    {
        match self {
            End::Lo => "lo",
            End::Hi => "hi",
        }
    }
}

/// A query for the values of a stream whose times are `from` at the least and `to` at the most.
/// docs/DEFINITIONS.md ("Queries: the truth and the answer") says what is answered.
#[derive(Clone, Copy, Debug, PartialEq, Eq)]
pub struct Query {
    pub name: Name,
    pub kind: Kind,
    pub from: u64,
    pub to: u64,
}
