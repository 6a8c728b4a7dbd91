// The interval of a mean, and the likeliest one.
use crate::fraction::Fraction;

/// What is known of the mean of the values in a range. The ends are in lowest terms.
#[derive(Clone, Copy, Debug, PartialEq, Eq)]
pub enum Mean {
    /// No value lies in the range.
    Nothing,
    /// Some value lies there, and their mean is at least `lo` and at most `hi`.
    Sure { lo: Fraction, hi: Fraction },
    /// No value lies there, or their mean is at least `lo` and at most `hi`.
    Maybe { lo: Fraction, hi: Fraction },
}

/// The same with the likeliest mean. It is in lowest terms too, and lies between the ends.
#[derive(Clone, Copy, Debug, PartialEq, Eq)]
pub enum MeanGuess {
    /// No value lies in the range.
    Nothing,
    /// Some value lies there.
    Sure {
        lo: Fraction,
        guess: Fraction,
        hi: Fraction,
    },
    /// No value lies there, or some does.
    Maybe {
        lo: Fraction,
        guess: Fraction,
        hi: Fraction,
    },
}
