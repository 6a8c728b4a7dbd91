// The texts of the replies, as docs/GUIDE.md lists them.
use crate::tables::{Subject, Text, numbers_of, show, test};
use arrayvec::ArrayString;
use ss_base::LAST_TIME;
use ss_bounds::{Extreme, Fraction, Mean, MeanGuess};
use ss_catalog::{Event, Family, Kind, Name, Params, Refusal, StreamId};
use ss_frames::Frame;
use ss_model::{Ack, Newest, Outcome, Placed, Presence, Run, StreamRow};
use ss_report::{Reply, Side, reply_text, said_text};
use ss_summary::Summary;
use std::test::Fail;

fn write_reply(reply: &Reply, out: &mut Text) {
    let mut text = ArrayString::new();
    reply_text(reply, &mut text);
    show(text.as_str().as_bytes(), out);
}

// A target that has the first lengths of powers of 2.
fn plain_target(within: Option<u32>) -> Params {
    Params {
        family: Family::Exp { b: 2, r: 1, s: 1 },
        within,
    }
}

// A stream with a short name and small numbers.
fn write_short_stream(within: Option<u32>, out: &mut Text) {
    if let Some(name) = Name::of(b"a") {
        let row = StreamRow {
            id: StreamId(0),
            name,
            params: plain_target(within),
            n: 7,
            k: 3,
            landmarks: 0,
            values: 0,
        };
        write_reply(&Reply::Stream(row), out);
    }
}

// A stream with the longest name and the greatest numbers.
fn write_longest_stream(within: Option<u32>, out: &mut Text) {
    let most = u32::MAX;
    if let Some(name) = Name::of(b"abcdefghijklmnopqrstuvwxyz012345") {
        let row = StreamRow {
            id: StreamId(most),
            name,
            params: Params {
                family: Family::Power {
                    p: most,
                    q: most,
                    r: most,
                    s: most,
                },
                within,
            },
            n: u64::MAX,
            k: most,
            landmarks: most,
            values: most,
        };
        write_reply(&Reply::Stream(row), out);
    }
}

// A window of two values.
fn write_window(out: &mut Text) {
    let row = Placed {
        first: 5,
        last: 6,
        summary: Summary::join(Summary::one(10, i64::MIN), Summary::one(20, i64::MIN)),
    };
    write_reply(&Reply::Window(row), out);
}

// So much over so much.
fn over(over: i128, under: u64) -> Fraction {
    Fraction { over, under }
}

fn mean_at(row: u64) -> Outcome {
    let longest = over(i128::MIN, u64::MAX);
    match row {
        61 => Outcome::Mean(Mean::Sure {
            lo: over(-1, 1),
            hi: over(17, 2),
        }),
        62 => Outcome::Mean(Mean::Maybe {
            lo: longest,
            hi: longest,
        }),
        63 => Outcome::Mean(Mean::Nothing),
        64 => Outcome::MeanEstimate(MeanGuess::Sure {
            lo: over(-1, 1),
            guess: over(11, 3),
            hi: over(17, 2),
        }),
        65 => Outcome::MeanEstimate(MeanGuess::Maybe {
            lo: longest,
            guess: longest,
            hi: longest,
        }),
        _ => Outcome::MeanEstimate(MeanGuess::Nothing),
    }
}

// The replies to a query of a mean, and to a certify.
fn write_mean(row: u64, out: &mut Text) {
    let longest = over(i128::MIN, u64::MAX);
    let (answer, known) = match row {
        68 => (Some(over(17, 2)), over(-2, 1)),
        69 => (Some(longest), longest),
        _ => (None, over(0, 0)),
    };
    match row {
        61..=66 => write_reply(&Reply::Answered(mean_at(row)), out),
        67 => {
            let (at, outcome) = (LAST_TIME, mean_at(65));
            write_reply(&Reply::Row { at, outcome }, out);
        }
        _ => write_reply(
            &Reply::CertifyMeanHead {
                answer,
                known,
                count: u32::MAX,
            },
            out,
        ),
    }
}

fn outcome_at(row: u64) -> Outcome {
    let sure = Extreme::Sure { lo: -3, hi: 8 };
    let maybe = Extreme::Maybe {
        lo: i64::MIN,
        hi: i64::MAX,
    };
    match row {
        9 => Outcome::Count { lo: 1, hi: 3 },
        10 => Outcome::Count {
            lo: 0,
            hi: u64::MAX,
        },
        11 => Outcome::Sum { lo: -5, hi: 16 },
        12 => Outcome::Sum {
            lo: i128::MIN,
            hi: i128::MAX,
        },
        13 => Outcome::Min(sure),
        14 => Outcome::Min(maybe),
        15 => Outcome::Min(Extreme::Nothing),
        16 => Outcome::Max(sure),
        17 => Outcome::Max(maybe),
        36 => Outcome::Has(Presence::Absent),
        37 => Outcome::Has(Presence::Present),
        38 => Outcome::Has(Presence::Maybe),
        55 => Outcome::Estimate {
            lo: -5,
            guess: 6,
            hi: 16,
        },
        56 => Outcome::Estimate {
            lo: i128::MIN,
            guess: -1,
            hi: i128::MAX,
        },
        _ => Outcome::Max(Extreme::Nothing),
    }
}

// A row of a series with one of these answers, whose number is also its time, but for the last time there is.
fn write_series_row(row: u64, out: &mut Text) {
    let at = if row == 9 { LAST_TIME } else { row };
    let outcome = outcome_at(row);
    write_reply(&Reply::Row { at, outcome }, out);
}

// A side of a window of six values: as many as the runs have.
fn write_side(inner: bool, values: u64, runs: [Run; 3], out: &mut Text) {
    let side = Side {
        inner,
        first: 3,
        last: 8,
        values,
        runs,
    };
    write_reply(&Reply::Side(side), out);
}

// The side with the longest line.
fn write_longest_side(out: &mut Text) {
    let most = u64::MAX;
    let run = Run {
        value: i64::MIN,
        times: most,
    };
    let side = Side {
        inner: false,
        first: most,
        last: most,
        values: most,
        runs: [run; 3],
    };
    write_reply(&Reply::Side(side), out);
}

fn run(value: i64, times: u64) -> Run {
    Run { value, times }
}

// The replies to a certify: runs without values are left out.
fn write_certificate(row: u64, out: &mut Text) {
    match row {
        30 => {
            let (answer, base, count) = (i128::MIN, i128::MAX, 2);
            write_reply(
                &Reply::CertifyHead {
                    answer,
                    base,
                    count,
                },
                out,
            );
        }
        31 => write_side(true, 3, [run(-3, 1), run(0, 1), run(8, 1)], out),
        32 => write_side(false, 3, [run(-3, 0), run(7, 1), run(8, 2)], out),
        33 => write_side(true, 6, [run(-3, 5), run(0, 0), run(8, 1)], out),
        34 => write_side(false, 0, [run(0, 0), run(0, 0), run(0, 0)], out),
        _ => write_longest_side(out),
    }
}

// What is told of the newest value of a stream, and values of landmarks.
fn write_newest(row: u64, out: &mut Text) {
    match row {
        39 => write_reply(&Reply::Last(Newest::Nothing), out),
        40 => write_reply(&Reply::Last(Newest::Time(LAST_TIME)), out),
        41 => {
            let newest = Newest::Value {
                last: 20,
                at: 15,
                lo: i64::MIN,
                hi: i64::MAX,
            };
            write_reply(&Reply::Last(newest), out);
        }
        42 => write_reply(&Reply::ValuesHead(1 << 20), out),
        _ => {
            let (at, value) = (LAST_TIME, i64::MIN);
            write_reply(&Reply::Value { at, value }, out);
        }
    }
}

// A reply as it is said to the last session.
fn write_said(reply: &Reply, out: &mut Text) {
    let mut text = ArrayString::new();
    said_text(Some(7), reply, &mut text);
    show(text.as_str().as_bytes(), out);
}

// The replies of cursors, as they are said.
fn write_cursor(row: u64, out: &mut Text) {
    match row {
        44 => write_said(&Reply::Cursor(1 << 20), out),
        45 => write_said(&Reply::Rows(1000), out),
        46 => write_said(&Reply::Closed, out),
        _ => write_said(&Reply::Refused(Refusal::NoCursor), out),
    }
}

// A frame, as it is said or not.
fn write_framed(is_said: bool, number: u64, event: Event, out: &mut Text) {
    if let Some(frame) = Frame::of(number, event) {
        if is_said {
            write_said(&Reply::Framed(frame), out);
        } else {
            write_reply(&Reply::Framed(frame), out);
        }
    }
}

// The frames of a stream with a short name, and one with the longest name and the greatest numbers.
fn write_frame(row: u64, out: &mut Text) {
    let name = if row == 54 {
        Name::of(b"abcdefghijklmnopqrstuvwxyz012345")
    } else {
        Name::of(b"a")
    };
    let Some(name) = name else {
        return;
    };
    match row {
        51 => {
            let params = plain_target(None);
            write_framed(false, 1, Event::Create { name, params }, out);
        }
        52 => write_framed(false, 2, Event::Value { name, t: 10, v: 5 }, out),
        53 => write_framed(false, 3, Event::Value { name, t: 20, v: -3 }, out),
        _ => write_framed(true, u64::MAX, Event::Close { name, t: LAST_TIME }, out),
    }
}

// What is said of frames that are passed over.
fn write_passed(row: u64, out: &mut Text) {
    match row {
        48 => write_reply(&Reply::Old, out),
        49 => write_reply(&Reply::Gap(0), out),
        _ => write_reply(&Reply::Gap(u64::MAX), out),
    }
}

fn write_row(row: u64, out: &mut Text) {
    match row {
        1 => write_reply(&Reply::Done(Ack { n: 7, k: 3 }), out),
        2 => write_reply(&Reply::Refused(Refusal::Time), out),
        3 => write_reply(&Reply::Refused(Refusal::StreamFull), out),
        4 => write_reply(&Reply::WindowsHead(3), out),
        5 => write_reply(&Reply::ListHead(4096), out),
        6 => write_short_stream(None, out),
        7 => write_longest_stream(None, out),
        8 => write_window(out),
        19 => write_reply(
            &Reply::SeriesHead {
                kind: Kind::Max,
                count: 100_000,
            },
            out,
        ),
        20..=29 => write_series_row(row - 11, out),
        30..=35 => write_certificate(row, out),
        39..=43 => write_newest(row, out),
        44..=47 => write_cursor(row, out),
        48..=50 => write_passed(row, out),
        51..=54 => write_frame(row, out),
        57 => write_reply(
            &Reply::SeriesHead {
                kind: Kind::SumGuess,
                count: 100_000,
            },
            out,
        ),
        58 => write_series_row(56, out),
        59 => write_short_stream(Some(60), out),
        60 => write_longest_stream(Some(u32::MAX), out),
        61..=70 => write_mean(row, out),
        _ => write_reply(&Reply::Answered(outcome_at(row)), out),
    }
}

// The text of the reply with this number in the table, with '/' for its line end.
pub fn reply(input: &[u8], out: &mut Text) {
    write_row(numbers_of(input)[0], out);
}

#[test]
fn each_reply_has_its_line() -> Result<(), Fail> {
    test(
        Subject::Reply,
        "1=ok 7 3/\n\
        2=refused TIME/\n\
        3=refused STREAM_FULL/\n\
        4=windows 3/\n\
        5=list 4096/\n\
        6=a exp 2 1 1 7 3 0 0/\n\
        7=abcdefghijklmnopqrstuvwxyz012345 power 4294967295 4294967295 4294967295 4294967295 \
        18446744073709551615 4294967295 4294967295 4294967295/\n\
        8=5 6 2 -18446744073709551616 -9223372036854775808 -9223372036854775808 10 20/\n\
        9=count 1 3/\n\
        10=count 0 18446744073709551615/\n\
        11=sum -5 16/\n\
        12=sum -170141183460469231731687303715884105728 170141183460469231731687303715884105727/\n\
        13=min -3 8/\n\
        14=min -9223372036854775808 9223372036854775807 maybe-none/\n\
        15=min none/\n\
        16=max -3 8/\n\
        17=max -9223372036854775808 9223372036854775807 maybe-none/\n\
        18=max none/\n\
        19=series 100000/\n\
        20=4611686018427387904 1 3/\n\
        21=10 0 18446744073709551615/\n\
        22=11 -5 16/\n\
        23=12 -170141183460469231731687303715884105728 170141183460469231731687303715884105727/\n\
        24=13 -3 8/\n\
        25=14 -9223372036854775808 9223372036854775807 maybe-none/\n\
        26=15 none/\n\
        27=16 -3 8/\n\
        28=17 -9223372036854775808 9223372036854775807 maybe-none/\n\
        29=18 none/\n\
        30=certify -170141183460469231731687303715884105728 170141183460469231731687303715884105727 2/\n\
        31=inside 3 8 3 -3*1 0*1 8*1/\n\
        32=outside 3 8 3 7*1 8*2/\n\
        33=inside 3 8 6 -3*5 8*1/\n\
        34=outside 3 8 0/\n\
        35=outside 18446744073709551615 18446744073709551615 18446744073709551615 \
        -9223372036854775808*18446744073709551615 -9223372036854775808*18446744073709551615 \
        -9223372036854775808*18446744073709551615/\n\
        36=has absent/\n\
        37=has present/\n\
        38=has maybe/\n\
        39=last none/\n\
        40=last 4611686018427387904/\n\
        41=last 20 15 -9223372036854775808 9223372036854775807/\n\
        42=values 1048576/\n\
        43=4611686018427387904 -9223372036854775808/\n\
        44=@7 cursor 1048576/\n\
        45=@7 rows 1000/\n\
        46=@7 closed/\n\
        47=@7 refused NO_CURSOR/\n\
        48=old/\n\
        49=gap 0/\n\
        50=gap 18446744073709551615/\n\
        51=frame 0101010000000000000000000000000161000000000000000000000000000000\
        0000000000000000000000000000000000000002000000010000000100000000/\n\
        52=frame 0200010000000000000000000000000261000000000000000000000000000000\
        00000000000000000000000000000000000000000000000a0000000000000005/\n\
        53=frame 0200010000000000000000000000000361000000000000000000000000000000\
        000000000000000000000000000000000000000000000014fffffffffffffffd/\n\
        54=@7 frame 0400200000000000ffffffffffffffff\
        6162636465666768696a6b6c6d6e6f707172737475767778797a30313233343540000000000000000000000000000000/\n\
        55=estimate -5 6 16/\n\
        56=estimate -170141183460469231731687303715884105728 -1 170141183460469231731687303715884105727/\n\
        57=estimates 100000/\n\
        58=56 -170141183460469231731687303715884105728 -1 170141183460469231731687303715884105727/\n\
        59=a exp 2 1 1 within 60 7 3 0 0/\n\
        60=abcdefghijklmnopqrstuvwxyz012345 power 4294967295 4294967295 4294967295 4294967295 within 4294967295 \
        18446744073709551615 4294967295 4294967295 4294967295/\n\
        61=mean -1 17/2/\n\
        62=mean -170141183460469231731687303715884105728/18446744073709551615 \
        -170141183460469231731687303715884105728/18446744073709551615 maybe-none/\n\
        63=mean none/\n\
        64=estimate -1 11/3 17/2/\n\
        65=estimate -170141183460469231731687303715884105728/18446744073709551615 \
        -170141183460469231731687303715884105728/18446744073709551615 \
        -170141183460469231731687303715884105728/18446744073709551615 maybe-none/\n\
        66=estimate none/\n\
        67=4611686018427387904 -170141183460469231731687303715884105728/18446744073709551615 \
        -170141183460469231731687303715884105728/18446744073709551615 \
        -170141183460469231731687303715884105728/18446744073709551615 maybe-none/\n\
        68=certify 17/2 -2 1 4294967295/\n\
        69=certify -170141183460469231731687303715884105728/18446744073709551615 \
        -170141183460469231731687303715884105728 18446744073709551615 4294967295/\n\
        70=certify none 0 0 4294967295/\n"
            .as_bytes(),
    )
}
