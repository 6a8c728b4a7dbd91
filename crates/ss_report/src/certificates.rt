// The text of certificates.
ghost use Rattle.std.specs.Prelude.{◌≡◌, ◌+◌, ◌≤◌, [], ◌∷◌, length};
ghost use Rattle.ss_command.specs.Printed.{spaced};
ghost use Rattle.ss_report.specs.Text.{reply_line, run_words};
ghost use Rattle.ss_report.specs.declared.reply.Reply.TheVariants.{CertifyHead};
ghost use Rattle.ss_report.specs.declared.reply.Reply.TheVariants as replies;

use crate::Side;
use arrayvec::ArrayString;
use ss_command::{put_number, put_sum, put_value};
use ss_fields::print_u64;
use ss_model::Run;

/// Writes the line that stands above certificates into an empty text.
pub fn certify_text(answer: i128, base: i128, count: u32, out: &mut ArrayString<256>)
    requires { out.old.bytes ≡ [] }
    ensures { out.new.bytes ≡ reply_line (CertifyHead answer base count) }
{
    out.push_str("certify");
    put_sum(answer, out);
    put_sum(base, out);
    put_number(u64::from(count), out);
    out.push_str("\n");
}

// Adds a run, if it has values.
fn put_run(run: &Run, out: &mut ArrayString<256>)
    requires { length out.old.bytes + 62 ≤ 256 }
    ensures bytes { out.new.bytes ≡ spaced out.old.bytes (run_words (run.now ∷ [])) }
    ensures short { length out.new.bytes ≤ length out.old.bytes + 42 }
{
    if run.times > 0 {
        put_value(run.value, out);
        out.push_str("*");
        print_u64(run.times, out);
    }
}

// Adds the runs that have values.
fn put_runs(runs: &[Run; 3], out: &mut ArrayString<256>)
    requires { length out.old.bytes + 146 ≤ 256 }
    ensures bytes { out.new.bytes ≡ spaced out.old.bytes (run_words runs.now) }
    ensures short { length out.new.bytes ≤ length out.old.bytes + 126 }
{
    let [first, second, third] = runs;
    put_run(first, out);
    put_run(second, out);
    put_run(third, out);
}

/// Writes the line of values inside or outside a range into an empty text.
pub fn runs_text(side: &Side, out: &mut ArrayString<256>)
    requires { out.old.bytes ≡ [] }
    ensures { out.new.bytes ≡ reply_line (replies.Side side.now) }
{
    out.push_str(if side.inner { "inside" } else { "outside" });
    put_number(side.first, out);
    put_number(side.last, out);
    put_number(side.values, out);
    put_runs(&side.runs, out);
    out.push_str("\n");
}
