// The text of a reply.
ghost use Rattle.std.specs.Prelude.{◌≡◌, ◌+◌, ◌≤◌, ◌<◌, [], length, IfSome};
ghost use Rattle.std.specs.Fmt.{decimal};
ghost use Rattle.ss_command.specs.Printed.{spaced, with_word};
ghost use Rattle.ss_base.specs.declared.limits.TheConstants.{MOST_SESSIONS};
ghost use Rattle.ss_report.specs.Text.{answer_kind, answer_words, extreme_words, frame_word, presence_word, reply_line, said_line};
ghost use Rattle.ss_report.specs.declared.reply.Reply.TheVariants.{Done, Answered, Refused, SeriesHead, Row, WindowsHead, Window, ListHead, Stream};
ghost use Rattle.ss_report.specs.declared.reply.Reply.TheVariants.{Last, ValuesHead, Value, Cursor, Rows, Gap, Framed};

use crate::Reply;
use crate::certificates::{certify_text, runs_text};
use crate::means::{certify_mean_text, put_mean, put_mean_guess};
use arrayvec::ArrayString;
use ss_base::MOST_SESSIONS;
use ss_bounds::Extreme;
use ss_catalog::{Kind, LONGEST_NAME, Name, Refusal};
use ss_command::{put_number, put_sum, put_target, put_value};
use ss_fields::print_u64;
use ss_frames::{FRAME_SIZE, Frame, encode_frame};
use ss_model::{Ack, Newest, Outcome, Placed, Presence, StreamRow};

// Writes a number into an empty text.
fn begin_with_number(number: u64, out: &mut ArrayString<256>)
    requires { out.old.bytes ≡ [] }
    ensures bytes { out.new.bytes ≡ decimal number }
    ensures short { length out.new.bytes ≤ 20 }
{
    print_u64(number, out);
}

// Writes a name into an empty text.
fn begin_with_name(name: &Name, out: &mut ArrayString<256>)
    requires { out.old.bytes ≡ [] }
    ensures bytes { out.new.bytes ≡ name.now }
    ensures short { length out.new.bytes ≤ LONGEST_NAME }
{
    out.push_str(name.as_str());
}

// Writes the line of an accepted event into an empty text.
fn done_text(ack: &Ack, out: &mut ArrayString<256>)
    requires { out.old.bytes ≡ [] }
    ensures { out.new.bytes ≡ reply_line (Done ack.now) }
{
    out.push_str("ok");
    put_number(ack.n, out);
    put_number(u64::from(ack.k), out);
    out.push_str("\n");
}

// Adds what is known of a least or a greatest value.
fn put_extreme(extreme: Extreme, out: &mut ArrayString<256>)
    requires { length out.old.bytes + 80 ≤ 256 }
    ensures bytes { out.new.bytes ≡ spaced out.old.bytes (extreme_words extreme) }
    ensures short { length out.new.bytes ≤ length out.old.bytes + 53 }
{
    match extreme {
        Extreme::Nothing => out.push_str(" none"),
        Extreme::Sure { lo, hi } => {
            put_value(lo, out);
            put_value(hi, out);
        }
        Extreme::Maybe { lo, hi } => {
            put_value(lo, out);
            put_value(hi, out);
            out.push_str(" maybe-none");
        }
    }
}

// Adds what is known of whether a value is there.
fn put_presence(presence: Presence, out: &mut ArrayString<256>)
    requires { length out.old.bytes + 8 ≤ 256 }
    ensures bytes { out.new.bytes ≡ with_word out.old.bytes (presence_word presence) }
    ensures short { length out.new.bytes ≤ length out.old.bytes + 8 }
{
    out.push_str(match presence {
        Presence::Absent => " absent",
        Presence::Present => " present",
        Presence::Maybe => " maybe",
    });
}

// Adds what an answer says.
fn put_words(outcome: &Outcome, out: &mut ArrayString<256>)
    requires { length out.old.bytes + 206 ≤ 256 }
    ensures bytes { out.new.bytes ≡ spaced out.old.bytes (answer_words outcome.now) }
    ensures short { length out.new.bytes ≤ length out.old.bytes + 197 }
{
    match *outcome {
        Outcome::Count { lo, hi } => {
            put_number(lo, out);
            put_number(hi, out);
        }
        Outcome::Sum { lo, hi } => {
            put_sum(lo, out);
            put_sum(hi, out);
        }
        Outcome::Min(extreme) => put_extreme(extreme, out),
        Outcome::Max(extreme) => put_extreme(extreme, out),
        Outcome::Mean(mean) => put_mean(mean, out),
        Outcome::Has(presence) => put_presence(presence, out),
        Outcome::Estimate { lo, guess, hi } => {
            put_sum(lo, out);
            put_sum(guess, out);
            put_sum(hi, out);
        }
        Outcome::MeanEstimate(mean) => put_mean_guess(mean, out),
    }
}

// What is answered, as a word.
fn kind_word(outcome: &Outcome) -> &'static str
    ensures { result.now ≡ answer_kind outcome.now }
{
    match outcome {
        Outcome::Count { .. } => "count",
        Outcome::Sum { .. } => "sum",
        Outcome::Min(_) => "min",
        Outcome::Max(_) => "max",
        Outcome::Mean(_) => "mean",
        Outcome::Has(_) => "has",
        Outcome::Estimate { .. } | Outcome::MeanEstimate(_) => "estimate",
    }
}

// Writes the line of an answer into an empty text.
fn answer_text(outcome: &Outcome, out: &mut ArrayString<256>)
    requires { out.old.bytes ≡ [] }
    ensures { out.new.bytes ≡ reply_line (Answered outcome.now) }
{
    out.push_str(kind_word(outcome));
    put_words(outcome, out);
    out.push_str("\n");
}

// Writes the line of a refusal into an empty text.
fn refused_text(refusal: Refusal, out: &mut ArrayString<256>)
    requires { out.old.bytes ≡ [] }
    ensures { out.new.bytes ≡ reply_line (Refused refusal) }
{
    out.push_str("refused ");
    out.push_str(refusal.text());
    out.push_str("\n");
}

// Writes the line that stands above the rows of a series into an empty text.
fn series_text(kind: Kind, count: u32, out: &mut ArrayString<256>)
    requires { out.old.bytes ≡ [] }
    ensures { out.new.bytes ≡ reply_line (SeriesHead kind count) }
{
    out.push_str(kind.series_verb());
    put_number(u64::from(count), out);
    out.push_str("\n");
}

// Writes the line of a row of a series into an empty text.
fn row_text(at: u64, outcome: &Outcome, out: &mut ArrayString<256>)
    requires { out.old.bytes ≡ [] }
    ensures { out.new.bytes ≡ reply_line (Row at outcome.now) }
{
    begin_with_number(at, out);
    put_words(outcome, out);
    out.push_str("\n");
}

// Writes the line that stands above windows into an empty text.
fn windows_text(count: u32, out: &mut ArrayString<256>)
    requires { out.old.bytes ≡ [] }
    ensures { out.new.bytes ≡ reply_line (WindowsHead count) }
{
    out.push_str("windows");
    put_number(u64::from(count), out);
    out.push_str("\n");
}

// Writes the line of a window into an empty text.
fn window_text(window: &Placed, out: &mut ArrayString<256>)
    requires { out.old.bytes ≡ [] }
    ensures { out.new.bytes ≡ reply_line (Window window.now) }
{
    begin_with_number(window.first, out);
    put_number(window.last, out);
    put_number(window.summary.count, out);
    put_sum(window.summary.sum, out);
    put_value(window.summary.min, out);
    put_value(window.summary.max, out);
    put_number(window.summary.t_first, out);
    put_number(window.summary.t_last, out);
    out.push_str("\n");
}

// Writes the line that stands above streams into an empty text.
fn list_text(count: u32, out: &mut ArrayString<256>)
    requires { out.old.bytes ≡ [] }
    ensures { out.new.bytes ≡ reply_line (ListHead count) }
{
    out.push_str("list");
    put_number(u64::from(count), out);
    out.push_str("\n");
}

// Writes the line of a stream into an empty text.
fn stream_text(row: &StreamRow, out: &mut ArrayString<256>)
    requires { out.old.bytes ≡ [] }
    ensures { out.new.bytes ≡ reply_line (Stream row.now) }
{
    begin_with_name(&row.name, out);
    put_target(&row.params, out);
    put_number(row.n, out);
    put_number(u64::from(row.k), out);
    put_number(u64::from(row.landmarks), out);
    put_number(u64::from(row.values), out);
    out.push_str("\n");
}

// Writes the line of the newest value of a stream into an empty text.
fn last_text(newest: &Newest, out: &mut ArrayString<256>)
    requires { out.old.bytes ≡ [] }
    ensures { out.new.bytes ≡ reply_line (Last newest.now) }
{
    out.push_str("last");
    match *newest {
        Newest::Nothing => out.push_str(" none"),
        Newest::Time(last) => put_number(last, out),
        Newest::Value { last, at, lo, hi } => {
            put_number(last, out);
            put_number(at, out);
            put_value(lo, out);
            put_value(hi, out);
        }
    }
    out.push_str("\n");
}

// Writes the line that stands above values of landmarks into an empty text.
fn values_text(count: u32, out: &mut ArrayString<256>)
    requires { out.old.bytes ≡ [] }
    ensures { out.new.bytes ≡ reply_line (ValuesHead count) }
{
    out.push_str("values");
    put_number(u64::from(count), out);
    out.push_str("\n");
}

// Writes the line of a value of a landmark into an empty text.
fn value_text(at: u64, value: i64, out: &mut ArrayString<256>)
    requires { out.old.bytes ≡ [] }
    ensures { out.new.bytes ≡ reply_line (Value at value) }
{
    begin_with_number(at, out);
    put_value(value, out);
    out.push_str("\n");
}

// Writes the line of an opened cursor into an empty text.
fn cursor_text(count: u32, out: &mut ArrayString<256>)
    requires { out.old.bytes ≡ [] }
    ensures { out.new.bytes ≡ reply_line (Cursor count) }
{
    out.push_str("cursor");
    put_number(u64::from(count), out);
    out.push_str("\n");
}

// Writes the line that stands above rows of a cursor into an empty text.
fn rows_text(count: u32, out: &mut ArrayString<256>)
    requires { out.old.bytes ≡ [] }
    ensures { out.new.bytes ≡ reply_line (Rows count) }
{
    out.push_str("rows");
    put_number(u64::from(count), out);
    out.push_str("\n");
}

// Writes the line of a frame that leaves others out into an empty text.
fn gap_text(events: u64, out: &mut ArrayString<256>)
    requires { out.old.bytes ≡ [] }
    ensures { out.new.bytes ≡ reply_line (Gap events) }
{
    out.push_str("gap");
    put_number(events, out);
    out.push_str("\n");
}

// The digits of a frame.
fn frame_digits(frame: &Frame) -> [u8; 2 * FRAME_SIZE]
    ensures { result ≡ frame_word frame.now }
{
    let mut digits = [0; 2 * FRAME_SIZE];
    let bytes = encode_frame(frame);
    if hex::encode_to_slice(&bytes, &mut digits).is_err() {
        unreachable!();
    }
    digits
}

// Writes the line of a frame into an empty text.
fn framed_text(frame: &Frame, out: &mut ArrayString<256>)
    requires { out.old.bytes ≡ [] }
    ensures { out.new.bytes ≡ reply_line (Framed frame.now) }
{
    let digits = frame_digits(frame);
    out.push_str("frame ");
    match str::from_utf8(&digits) {
        Ok(word) => out.push_str(word),
        Err(_) => unreachable!(),
    }
    out.push_str("\n");
}

/// Writes the line of a reply, with its line end, into an empty text. docs/GUIDE.md ("Replies") lists the replies.
pub fn reply_text(reply: &Reply, out: &mut ArrayString<256>)
    requires { out.old.bytes ≡ [] }
    ensures { out.new.bytes ≡ reply_line reply.now }
{
    match reply {
        Reply::Done(ack) => done_text(ack, out),
        Reply::Answered(outcome) => answer_text(outcome, out),
        Reply::Refused(refusal) => refused_text(*refusal, out),
        Reply::SeriesHead { kind, count } => series_text(*kind, *count, out),
        Reply::Row { at, outcome } => row_text(*at, outcome, out),
        Reply::WindowsHead(count) => windows_text(*count, out),
        Reply::Window(window) => window_text(window, out),
        Reply::ListHead(count) => list_text(*count, out),
        Reply::Stream(row) => stream_text(row, out),
        Reply::CertifyHead {
            answer,
            base,
            count,
        } => certify_text(*answer, *base, *count, out),
        Reply::CertifyMeanHead {
            answer,
            known,
            count,
        } => certify_mean_text(*answer, *known, *count, out),
        Reply::Side(side) => runs_text(side, out),
        Reply::Last(newest) => last_text(newest, out),
        Reply::ValuesHead(count) => values_text(*count, out),
        Reply::Value { at, value } => value_text(*at, *value, out),
        Reply::Cursor(count) => cursor_text(*count, out),
        Reply::Rows(count) => rows_text(*count, out),
        Reply::Closed => out.push_str("closed\n"),
        Reply::Old => out.push_str("old\n"),
        Reply::Gap(events) => gap_text(*events, out),
        Reply::Framed(frame) => framed_text(frame, out),
    }
}

/// Writes the line of a reply as it is said, into an empty text. To a session it begins with `@`, the number of the session and a
/// blank.
pub fn said_text(speaker: Option<u8>, reply: &Reply, out: &mut ArrayString<260>)
    requires empty { out.old.bytes ≡ [] }
    requires speaker { IfSome speaker (λ number. number < MOST_SESSIONS) }
    ensures { out.new.bytes ≡ said_line speaker reply.now }
{
    let mut line = ArrayString::new();
    reply_text(reply, &mut line);
    if let Some(number) = speaker {
        out.push_str("@");
        out.push(char::from(b'0' + number));
        out.push_str(" ");
    }
    out.push_str(line.as_str());
}
