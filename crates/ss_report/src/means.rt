// The text of a mean.
ghost use Rattle.std.specs.Prelude.{◌≡◌, ◌+◌, ◌≤◌, ◌++◌, [], codes, length};
ghost use Rattle.std.specs.Fmt.{decimal};
ghost use Rattle.ss_command.specs.Printed.{spaced, with_word};
ghost use Rattle.ss_report.specs.MeanText.{fraction_word, mean_end_word, mean_guess_words, mean_words};
ghost use Rattle.ss_report.specs.Text.{reply_line};
ghost use Rattle.ss_report.specs.declared.reply.Reply.TheVariants.{CertifyMeanHead};

use arrayvec::ArrayString;
use ss_bounds::{Fraction, Mean, MeanGuess};
use ss_command::{put_number, put_sum};
use ss_fields::print_u64;

// Adds what a fraction is over.
fn put_under(under: u64, out: &mut ArrayString<256>)
    requires { length out.old.bytes + 41 ≤ 256 }
    ensures bytes { out.new.bytes ≡ out.old.bytes ++ codes "/" ++ decimal under }
    ensures short { length out.new.bytes ≤ length out.old.bytes + 21 }
{
    out.push_str("/");
    print_u64(under, out);
}

// Adds a fraction.
fn put_fraction(fraction: Fraction, out: &mut ArrayString<256>)
    requires { length out.old.bytes + 82 ≤ 256 }
    ensures bytes { out.new.bytes ≡ with_word out.old.bytes (fraction_word fraction) }
    ensures short { length out.new.bytes ≤ length out.old.bytes + 62 }
{
    put_sum(fraction.over, out);
    if fraction.under != 1 {
        put_under(fraction.under, out);
    }
}

/// Adds what is known of a mean.
pub fn put_mean(mean: Mean, out: &mut ArrayString<256>)
    requires { length out.old.bytes + 144 ≤ 256 }
    ensures bytes { out.new.bytes ≡ spaced out.old.bytes (mean_words mean) }
    ensures short { length out.new.bytes ≤ length out.old.bytes + 135 }
{
    match mean {
        Mean::Nothing => out.push_str(" none"),
        Mean::Sure { lo, hi } => {
            put_fraction(lo, out);
            put_fraction(hi, out);
        }
        Mean::Maybe { lo, hi } => {
            put_fraction(lo, out);
            put_fraction(hi, out);
            out.push_str(" maybe-none");
        }
    }
}

/// Adds what is known of a mean, and the likeliest one.
pub fn put_mean_guess(mean: MeanGuess, out: &mut ArrayString<256>)
    requires { length out.old.bytes + 206 ≤ 256 }
    ensures bytes { out.new.bytes ≡ spaced out.old.bytes (mean_guess_words mean) }
    ensures short { length out.new.bytes ≤ length out.old.bytes + 197 }
{
    match mean {
        MeanGuess::Nothing => out.push_str(" none"),
        MeanGuess::Sure { lo, guess, hi } => {
            put_fraction(lo, out);
            put_fraction(guess, out);
            put_fraction(hi, out);
        }
        MeanGuess::Maybe { lo, guess, hi } => {
            put_fraction(lo, out);
            put_fraction(guess, out);
            put_fraction(hi, out);
            out.push_str(" maybe-none");
        }
    }
}

// Adds an end of a mean, if there is one.
fn put_mean_end(end: Option<Fraction>, out: &mut ArrayString<256>)
    requires { length out.old.bytes + 82 ≤ 256 }
    ensures bytes { out.new.bytes ≡ with_word out.old.bytes (mean_end_word end) }
    ensures short { length out.new.bytes ≤ length out.old.bytes + 62 }
{
    match end {
        None => out.push_str(" none"),
        Some(end) => put_fraction(end, out),
    }
}

/// Writes the line that stands above certificates of an end of a mean into an empty text.
pub fn certify_mean_text(
    answer: Option<Fraction>,
    known: Fraction,
    count: u32,
    out: &mut ArrayString<256>,
)
    requires { out.old.bytes ≡ [] }
    ensures { out.new.bytes ≡ reply_line (CertifyMeanHead answer known count) }
{
    out.push_str("certify");
    put_mean_end(answer, out);
    put_sum(known.over, out);
    put_number(known.under, out);
    put_number(u64::from(count), out);
    out.push_str("\n");
}
