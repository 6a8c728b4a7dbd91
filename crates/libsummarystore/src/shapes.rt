// What goes to C and comes from it, as the header has it.
use ss_bounds::{Extreme, Fraction, Mean, MeanGuess};
use ss_catalog::{Family, Kind, Params};
use ss_model::{Ack, Newest, Outcome, Presence};

/// `summarystore_ack`: how a stream stands after an event.
#[repr(C)]
#[derive(Clone, Copy)]
pub struct CAck {
    pub values: u64,
    pub windows: u64,
}

/// `summarystore_target`: how the windows of a stream get longer.
#[repr(C)]
#[derive(Clone, Copy)]
pub struct CTarget {
    pub family: u32,
    pub numbers: [u32; 4],
    pub within: u32,
}

/// `summarystore_number`: (high * 2^64 + low) / under.
#[repr(C)]
#[derive(Clone, Copy)]
pub struct CNumber {
    pub high: i64,
    pub low: u64,
    pub under: u64,
}

/// `summarystore_interval`: from `lo` to `hi`, or nothing.
#[repr(C)]
#[derive(Clone, Copy)]
pub struct CInterval {
    pub none: i32,
    pub maybe_none: i32,
    pub lo: CNumber,
    pub hi: CNumber,
    pub guess: CNumber,
}

/// `summarystore_newest`: how far a stream has come.
#[repr(C)]
#[derive(Clone, Copy)]
pub struct CNewest {
    pub has_last: i32,
    pub has_value: i32,
    pub last: u64,
    pub time: u64,
    pub lo: i64,
    pub hi: i64,
}

const ZERO: CNumber = CNumber {
    high: 0,
    low: 0,
    under: 1,
};

pub fn ack(ack: Ack) -> CAck {
    CAck {
        values: ack.n,
        windows: u64::from(ack.k),
    }
}

fn number(over: i128, under: u64) -> CNumber {
    const LIMB: i128 = 1 << 64;
    let high = over.div_euclid(LIMB);
    let low = over.rem_euclid(LIMB);
    CNumber {
        high: high as i64,
        low: low as u64,
        under,
    }
}

fn fraction(fraction: Fraction) -> CNumber {
    number(fraction.over, fraction.under)
}

fn whole(over: i128) -> CNumber {
    number(over, 1)
}

fn between(lo: CNumber, hi: CNumber) -> CInterval {
    CInterval {
        none: 0,
        maybe_none: 0,
        lo,
        hi,
        guess: ZERO,
    }
}

const NOTHING: CInterval = CInterval {
    none: 1,
    maybe_none: 0,
    lo: ZERO,
    hi: ZERO,
    guess: ZERO,
};

fn extreme(extreme: Extreme) -> CInterval {
    match extreme {
        Extreme::Nothing => NOTHING,
        Extreme::Sure { lo, hi } => between(whole(i128::from(lo)), whole(i128::from(hi))),
        Extreme::Maybe { lo, hi } => CInterval {
            maybe_none: 1,
            ..between(whole(i128::from(lo)), whole(i128::from(hi)))
        },
    }
}

fn mean(mean: Mean) -> CInterval {
    match mean {
        Mean::Nothing => NOTHING,
        Mean::Sure { lo, hi } => between(fraction(lo), fraction(hi)),
        Mean::Maybe { lo, hi } => CInterval {
            maybe_none: 1,
            ..between(fraction(lo), fraction(hi))
        },
    }
}

fn guessed(lo: CNumber, guess: CNumber, hi: CNumber) -> CInterval {
    CInterval {
        guess,
        ..between(lo, hi)
    }
}

fn mean_guess(mean: MeanGuess) -> CInterval {
    match mean {
        MeanGuess::Nothing => NOTHING,
        MeanGuess::Sure { lo, guess, hi } => guessed(fraction(lo), fraction(guess), fraction(hi)),
        MeanGuess::Maybe { lo, guess, hi } => CInterval {
            maybe_none: 1,
            ..guessed(fraction(lo), fraction(guess), fraction(hi))
        },
    }
}

/// What is known of a count, a sum, an end or a mean.
pub fn interval(outcome: Outcome) -> CInterval {
    match outcome {
        Outcome::Count { lo, hi } => between(whole(i128::from(lo)), whole(i128::from(hi))),
        Outcome::Sum { lo, hi } => between(whole(lo), whole(hi)),
        Outcome::Min(known) | Outcome::Max(known) => extreme(known),
        Outcome::Mean(known) => mean(known),
        Outcome::Estimate { lo, guess, hi } => guessed(whole(lo), whole(guess), whole(hi)),
        Outcome::MeanEstimate(known) => mean_guess(known),
        Outcome::Has(_) => NOTHING,
    }
}

/// Whether a value is there: 0 for no, 1 for yes and 2 for maybe.
pub fn presence(outcome: Outcome) -> u32 {
    match outcome {
        Outcome::Has(Presence::Absent) => 0,
        Outcome::Has(Presence::Present) => 1,
        _ => 2,
    }
}

pub fn newest(newest: Newest) -> CNewest {
    let nothing = CNewest {
        has_last: 0,
        has_value: 0,
        last: 0,
        time: 0,
        lo: 0,
        hi: 0,
    };
    match newest {
        Newest::Nothing => nothing,
        Newest::Time(last) => CNewest {
            has_last: 1,
            last,
            ..nothing
        },
        Newest::Value { last, at, lo, hi } => CNewest {
            has_last: 1,
            has_value: 1,
            last,
            time: at,
            lo,
            hi,
        },
    }
}

/// What a query of this number asks for.
pub fn kind(number: u32) -> Option<Kind> {
    match number {
        0 => Some(Kind::Count),
        1 => Some(Kind::Sum),
        2 => Some(Kind::Min),
        3 => Some(Kind::Max),
        4 => Some(Kind::Mean),
        _ => None,
    }
}

/// What an estimate of this number asks for.
pub fn guess_kind(number: u32) -> Option<Kind> {
    match number {
        0 => Some(Kind::CountGuess),
        1 => Some(Kind::SumGuess),
        4 => Some(Kind::MeanGuess),
        _ => None,
    }
}

/// The parameters of a target.
pub fn params(target: &CTarget) -> Option<Params> {
    let [a, b, c, d] = target.numbers;
    let family = match target.family {
        0 => Family::Exp { b: a, r: b, s: c },
        1 => Family::Power {
            p: a,
            q: b,
            r: c,
            s: d,
        },
        _ => return None,
    };
    let within = if target.within == 0 {
        None
    } else {
        Some(target.within)
    };
    Some(Params { family, within })
}
