// Lines and frames of an input with the replies to them, and why the refused ones were refused.
use crate::tables::{Text, cut, pass, write, write_number};
use arrayvec::ArrayVec;
use ss_arguments::Form;
use ss_watch::{Explained, Explainer};
use std::alloc::Global;
use std::test::Fail;

// A text with '/' for a line end.
fn meant(signs: &[u8], out: &mut Text) {
    for sign in signs {
        match *sign {
            b'/' => write(b"\n", out),
            other => write(&[other], out),
        }
    }
}

// So many zeros.
fn write_zeros(count: u8, out: &mut Text) {
    for _ in 0..count {
        write(&[0], out);
    }
}

// Bytes in which a 'z' and the byte behind it stand for as many zeros as this says.
fn meant_bytes(signs: &[u8], out: &mut Text) {
    let mut counts = false;
    for sign in signs {
        if counts {
            write_zeros(*sign, out);
            counts = false;
        } else if *sign == b'z' {
            counts = true;
        } else {
            write(&[*sign], out);
        }
    }
}

// Takes an input to its end.
fn read(explainer: &mut Explainer, form: Form, signs: &[u8]) {
    let mut input = ArrayVec::new();
    if form == Form::Follow {
        meant_bytes(signs, &mut input);
    } else {
        meant(signs, &mut input);
    }
    explainer.read(input.as_slice());
    explainer.read(&[]);
}

// Writes what is explained.
fn write_explained(explained: &Explained, out: &mut Text) {
    write_number(explained.number, out);
    write(b" ", out);
    write(explained.word.as_bytes(), out);
    write(b": ", out);
    write(explained.reason.as_str().as_bytes(), out);
    write(b";", out);
}

// Writes what is explained of lines that are refused by themselves, where nothing is replied.
fn misspelt(explainer: &mut Explainer, out: &mut Text) {
    for _ in 0..10 {
        match explainer.misspelt() {
            Some(explained) => write_explained(&explained, out),
            None => break,
        }
    }
}

// Takes a line of a reply, and writes what is explained.
fn reply(explainer: &mut Explainer, line: &[u8], out: &mut Text) {
    let mut text = ArrayVec::new();
    write(line, &mut text);
    write(b"\n", &mut text);
    if let Some(explained) = explainer.reply(text.as_slice()) {
        write_explained(&explained, out);
    }
}

// Takes the lines of all replies, of which each ends with '/'.
fn reply_all(explainer: &mut Explainer, signs: &[u8], out: &mut Text) {
    let mut rest = signs;
    for _ in 0..signs.len() {
        let (line, later) = cut(rest, b'/');
        if !line.is_empty() {
            reply(explainer, line, out);
        }
        rest = later;
    }
}

// A row has the lines or the frames of an input, '>', the replies to them, '=', and what is explained. At most two lines are.
fn is_right(alloc: Global, form: Form, row: &[u8]) -> bool {
    let (session, want) = cut(row, b'=');
    let (input, replies) = cut(session, b'>');
    let mut explainer = Explainer::new(alloc, 2, form);
    let mut out = ArrayVec::new();
    read(&mut explainer, form, input);
    misspelt(&mut explainer, &mut out);
    reply_all(&mut explainer, replies, &mut out);
    out.as_slice() == want
}

// The first row that is wrong of a table of lines.
fn first_wrong(alloc: Global, table: &[u8]) -> Option<u32> {
    first_wrong_of(alloc, Form::Lines { framed: false }, table)
}

// The first row that is wrong.
fn first_wrong_of(alloc: Global, form: Form, table: &[u8]) -> Option<u32> {
    let mut rest = table;
    for row in 0..1000 {
        if rest.is_empty() {
            return None;
        }
        let (line, later) = cut(rest, b'\n');
        if !is_right(alloc, form, line) {
            return Some(row);
        }
        rest = later;
    }
    Some(1000)
}

// Lines that fit no form.
#[test]
fn forms(rt: HostRuntime) -> Result<(), Fail> {
    pass(first_wrong(
        rt.alloc(),
        b"2026-01-01,5/>refused SYNTAX/=1 SYNTAX: no command begins with \"2026-01-01,5\": words stand between blanks, as in append NAME T V;\n\
        List/>refused SYNTAX/=1 SYNTAX: no command begins with \"List\": commands are in small letters;\n\
        \xef\xbb\xbflist/>refused SYNTAX/=1 SYNTAX: no command begins with \"\\xef\\xbb\\xbflist\": \
        a byte order mark stands before it, and the file has to be saved without one;\n\
        \xff\xfel\0/>refused SYNTAX/=1 SYNTAX: no command begins with \"\\xff\\xfel\\x00\": \
        the file is in UTF-16, and has to be saved as UTF-8 or ASCII;\n\
        help/>refused SYNTAX/=1 SYNTAX: no command begins with \"help\": summarystore --help lists the commands;\n\
        quit/>refused SYNTAX/=1 SYNTAX: no command begins with \"quit\": \
        the run ends where its input ends, at a terminal by Ctrl-D;\n\
        append a 1/>refused SYNTAX/=1 SYNTAX: append NAME T V has 4 words, and this line has 3;\n\
        \t append\ta 1 2 3/>refused SYNTAX/=1 SYNTAX: append NAME T V has 4 words, and this line has 5;\n\
        list a/>refused SYNTAX/=1 SYNTAX: list has 1 word, and this line has 2;\n\
        create a/>refused SYNTAX/=1 SYNTAX: create NAME exp B R S has 6 words, or 8 with within E, and this line has 2;\n\
        create a linear 1/>refused SYNTAX/=1 SYNTAX: \"linear\" is neither exp nor power;\n\
        create a exp 2 1 1 withing 5/>refused SYNTAX/=1 SYNTAX: \"withing\" isn't within;\n\
        create a power 1 0 1 1 5 within/>refused SYNTAX/=1 SYNTAX: \"5\" isn't within;\n\
        create a within 5 exp 2 1 1/>refused SYNTAX/=1 SYNTAX: \"within\" is neither exp nor power;\n\
        landmark a shut 1/>refused SYNTAX/=1 SYNTAX: \"shut\" is neither open nor close;\n\
        Drop a/>refused SYNTAX/=1 SYNTAX: no command begins with \"Drop\": commands are in small letters;\n\
        query a average 1 2/>refused SYNTAX/=1 SYNTAX: \"average\" is none of count, sum, min, max, mean and has: \
        a mean is asked for as mean;\n\
        query a Mean 1 2/>refused SYNTAX/=1 SYNTAX: \"Mean\" is none of count, sum, min, max, mean and has;\n\
        series a avg 1 2 3/>refused SYNTAX/=1 SYNTAX: \"avg\" is none of count, sum, min, max and mean: a mean is asked for as mean;\n\
        series a has 1 2 3/>refused SYNTAX/=1 SYNTAX: \"has\" is none of count, sum, min, max and mean;\n\
        estimate a min 1 2/>refused SYNTAX/=1 SYNTAX: \"min\" is none of count, sum and mean;\n\
        estimates a avg 1 2 3/>refused SYNTAX/=1 SYNTAX: \"avg\" is none of count, sum and mean: a mean is asked for as mean;\n\
        certify a min lo 1 2/>refused SYNTAX/=1 SYNTAX: \"min\" is none of count, sum and mean;\n\
        certify a has lo 1 2/>refused SYNTAX/=1 SYNTAX: \"has\" is none of count, sum and mean;\n\
        certify a sum low 1 2/>refused SYNTAX/=1 SYNTAX: \"low\" is neither lo nor hi;\n\
        Certify/>refused SYNTAX/=1 SYNTAX: no command begins with \"Certify\": commands are in small letters;\n\
        Series/>refused SYNTAX/=1 SYNTAX: no command begins with \"Series\": commands are in small letters;\n\
        Cursor/>refused SYNTAX/=1 SYNTAX: no command begins with \"Cursor\": commands are in small letters;\n\
        a;1;5/>refused SYNTAX/=1 SYNTAX: no command begins with \"a;1;5\": words stand between blanks, as in append NAME T V;\n\
        a append 1 5/>refused SYNTAX/=1 SYNTAX: no command begins with \"a\": the command stands first, as in append NAME T V;\n\
        sum a 1 5/>refused SYNTAX/=1 SYNTAX: no command begins with \"sum\": \
        that is asked for by a query, as in query NAME sum T1 T2;\n\
        query sum a 1 5/>refused SYNTAX/=1 SYNTAX: \"a\" is none of count, sum, min, max, mean and has: \
        the name stands before what is asked for;\n\
        query mean a 1 5/>refused SYNTAX/=1 SYNTAX: \"a\" is none of count, sum, min, max, mean and has: \
        the name stands before what is asked for;\n\
        mean a 1 5/>refused SYNTAX/=1 SYNTAX: no command begins with \"mean\": \
        that is asked for by a query, as in query NAME sum T1 T2;\n\
        frame 0200/>refused SYNTAX/=1 SYNTAX: no command begins with \"frame\": \
        the bytes that its digits spell are read by the mode follow;\n\
        \x02\0\x01/>refused SYNTAX/=1 SYNTAX: no command begins with \"\\x02\\x00\\x01\": \
        these bytes are frames, which the mode follow reads;\n\
        @1 list/>refused SYNTAX/=1 SYNTAX: no command begins with \"@1\": lines of sessions are read where the mode is sessions;\n",
    ))
}

// A line of each form is taken, and with one word fewer or more it is said how many words the form has.
#[test]
fn words_of_forms(rt: HostRuntime) -> Result<(), Fail> {
    pass(first_wrong_of(
        rt.alloc(),
        Form::Frames,
        b"create a exp 2 1 1/create a exp 2 1/create a exp 2 1 1 9/>=\
        2 SYNTAX: create NAME exp B R S has 6 words, or 8 with within E, and this line has 5;\
        3 SYNTAX: create NAME exp B R S has 6 words, or 8 with within E, and this line has 7;\n\
        create a exp 2 1 1 within 5/create a exp 2 1 1 within/create a exp 2 1 1 within 5 9/>=\
        2 SYNTAX: create NAME exp B R S within E has 8 words, and this line has 7;\
        3 SYNTAX: create NAME exp B R S within E has 8 words, and this line has 9;\n\
        create a power 1 0 1 1/create a power 1 0 1/create a power 1 0 1 1 9/>=\
        2 SYNTAX: create NAME power P Q R S has 7 words, or 9 with within E, and this line has 6;\
        3 SYNTAX: create NAME power P Q R S has 7 words, or 9 with within E, and this line has 8;\n\
        create a power 1 0 1 1 within 5/create a power 1 0 1 1 within/create a power 1 0 1 1 within 5 9/>=\
        2 SYNTAX: create NAME power P Q R S within E has 9 words, and this line has 8;\
        3 SYNTAX: create NAME power P Q R S within E has 9 words, and this line has 10;\n\
        append a 1 2/append a 1/append a 1 2 9/>=\
        2 SYNTAX: append NAME T V has 4 words, and this line has 3;\
        3 SYNTAX: append NAME T V has 4 words, and this line has 5;\n\
        landmark a open 1/landmark a open/landmark a open 1 9/>=\
        2 SYNTAX: landmark NAME open T has 4 words, and this line has 3;\
        3 SYNTAX: landmark NAME open T has 4 words, and this line has 5;\n\
        drop a/drop/drop a 9/>=2 SYNTAX: drop NAME has 2 words, and this line has 1;3 SYNTAX: drop NAME has 2 words, and this line has 3;\n\
        query a sum 1 2/query a sum 1/query a sum 1 2 9/>=\
        2 SYNTAX: query NAME count|sum|min|max|mean T1 T2 has 5 words, and this line has 4;\
        3 SYNTAX: query NAME count|sum|min|max|mean T1 T2 has 5 words, and this line has 6;\n\
        query a has 5 1 2/query a has 5 1/query a has 5 1 2 9/>=\
        2 SYNTAX: query NAME has V T1 T2 has 6 words, and this line has 5;\
        3 SYNTAX: query NAME has V T1 T2 has 6 words, and this line has 7;\n\
        series a sum 1 2 3/series a sum 1 2/series a sum 1 2 3 9/>=\
        2 SYNTAX: series NAME count|sum|min|max|mean T1 T2 STEP has 6 words, and this line has 5;\
        3 SYNTAX: series NAME count|sum|min|max|mean T1 T2 STEP has 6 words, and this line has 7;\n\
        windows a/windows/windows a 9/>=\
        2 SYNTAX: windows NAME has 2 words, and this line has 1;\
        3 SYNTAX: windows NAME has 2 words, and this line has 3;\n\
        list/list 9/>=2 SYNTAX: list has 1 word, and this line has 2;\n\
        certify a sum lo 1 2/certify a sum lo 1/certify a sum lo 1 2 9/>=\
        2 SYNTAX: certify NAME count|sum|mean lo|hi T1 T2 has 6 words, and this line has 5;\
        3 SYNTAX: certify NAME count|sum|mean lo|hi T1 T2 has 6 words, and this line has 7;\n\
        last a/last/last a 9/>=2 SYNTAX: last NAME has 2 words, and this line has 1;3 SYNTAX: last NAME has 2 words, and this line has 3;\n\
        values a 1 2/values a 1/values a 1 2 9/>=\
        2 SYNTAX: values NAME T1 T2 has 4 words, and this line has 3;\
        3 SYNTAX: values NAME T1 T2 has 4 words, and this line has 5;\n\
        estimate a sum 1 2/estimate a sum 1/estimate a sum 1 2 9/>=\
        2 SYNTAX: estimate NAME count|sum|mean T1 T2 has 5 words, and this line has 4;\
        3 SYNTAX: estimate NAME count|sum|mean T1 T2 has 5 words, and this line has 6;\n\
        estimates a sum 1 2 3/estimates a sum 1 2/estimates a sum 1 2 3 9/>=\
        2 SYNTAX: estimates NAME count|sum|mean T1 T2 STEP has 6 words, and this line has 5;\
        3 SYNTAX: estimates NAME count|sum|mean T1 T2 STEP has 6 words, and this line has 7;\n",
    ))
}

// Each place of a form where a number stands is known.
#[test]
fn numbers_of_forms(rt: HostRuntime) -> Result<(), Fail> {
    pass(first_wrong_of(
        rt.alloc(),
        Form::Frames,
        b"create a exp x 1 1 within 5/create a exp 2 x 1 within 5/>=1 NUMBER: x isn't a whole number;2 NUMBER: x isn't a whole number;\n\
        create a exp 2 1 x within 5/create a exp 2 1 1 within x/>=1 NUMBER: x isn't a whole number;2 NUMBER: x isn't a whole number;\n\
        create a power x 0 1 1 within 5/create a power 1 x 1 1 within 5/>=\
        1 NUMBER: x isn't a whole number;2 NUMBER: x isn't a whole number;\n\
        create a power 1 0 x 1 within 5/create a power 1 0 1 x within 5/>=\
        1 NUMBER: x isn't a whole number;2 NUMBER: x isn't a whole number;\n\
        create a power 1 0 1 1 within x/>=1 NUMBER: x isn't a whole number;\n\
        append a x 2/append a 1 x/>=1 NUMBER: x isn't a whole number;2 NUMBER: x isn't a whole number;\n\
        landmark a close x/>=1 NUMBER: x isn't a whole number;\n\
        query a sum x 2/query a sum 1 x/>=1 NUMBER: x isn't a whole number;2 NUMBER: x isn't a whole number;\n\
        query a has x 1 2/query a has 5 x 2/>=1 NUMBER: x isn't a whole number;2 NUMBER: x isn't a whole number;\n\
        query a has 5 1 x/>=1 NUMBER: x isn't a whole number;\n\
        series a sum x 2 3/series a sum 1 x 3/>=1 NUMBER: x isn't a whole number;2 NUMBER: x isn't a whole number;\n\
        series a sum 1 2 x/>=1 NUMBER: x isn't a whole number;\n\
        certify a sum lo x 2/certify a sum lo 1 x/>=1 NUMBER: x isn't a whole number;2 NUMBER: x isn't a whole number;\n\
        values a x 2/values a 1 x/>=1 NUMBER: x isn't a whole number;2 NUMBER: x isn't a whole number;\n\
        estimate a sum x 2/estimate a sum 1 x/>=1 NUMBER: x isn't a whole number;2 NUMBER: x isn't a whole number;\n\
        estimates a sum x 2 3/estimates a sum 1 x 3/>=1 NUMBER: x isn't a whole number;2 NUMBER: x isn't a whole number;\n\
        estimates a sum 1 2 x/>=1 NUMBER: x isn't a whole number;\n",
    ))
}

// Words that are no numbers or names, and parameters that no target has.
#[test]
fn words(rt: HostRuntime) -> Result<(), Fail> {
    pass(first_wrong(
        rt.alloc(),
        b"append a 1 21.5/>refused NUMBER/=1 NUMBER: 21.5 isn't a whole number: write 215 for 21.5, in tenths;\n\
        append a -1 x/>refused NUMBER/=1 NUMBER: -1 isn't within 0 to 4611686018427387904, as times are;\n\
        append a 1 +1/>refused NUMBER/=1 NUMBER: +1 isn't a whole number: no sign stands before it but -;\n\
        append a 1 -21.55/>refused NUMBER/=1 NUMBER: -21.55 isn't a whole number: write -2155 for -21.55, in hundredths;\n\
        append a 1 0,125/>refused NUMBER/=1 NUMBER: 0,125 isn't a whole number: write 125 for 0,125, in thousandths;\n\
        append a 1.2.3 1/>refused NUMBER/=1 NUMBER: 1.2.3 isn't a whole number;\n\
        append a 2026-01-01T00:00 1/>refused NUMBER/=1 NUMBER: 2026-01-01T00:00 isn't a whole number: \
        times are whole numbers, as the seconds that date +%s prints;\n\
        append a 1 now/>refused NUMBER/=1 NUMBER: now isn't a whole number;\n\
        values a 1 now/>refused NUMBER/=1 NUMBER: now isn't a whole number: \
        times are whole numbers, as the seconds that date +%s prints;\n\
        last x!/>refused NAME/=1 NAME: the name x! has more in it than letters, digits, _, - and .;\n\
        append a 1 9223372036854775808/>refused NUMBER/=1 NUMBER: 9223372036854775808 isn't within \
        -9223372036854775808 to 9223372036854775807, as values are;\n\
        landmark a open 4611686018427387905/>refused NUMBER/=1 NUMBER: 4611686018427387905 isn't within \
        0 to 4611686018427387904, as times are;\n\
        query a sum 1 now/>refused NUMBER/=1 NUMBER: now isn't a whole number: \
        times are whole numbers, as the seconds that date +%s prints;\n\
        query x! has 21.5 now 1/>refused NUMBER/=1 NUMBER: 21.5 isn't a whole number: write 215 for 21.5, in tenths;\n\
        query a has 9223372036854775808 1 2/>refused NUMBER/=1 NUMBER: 9223372036854775808 isn't within \
        -9223372036854775808 to 9223372036854775807, as values are;\n\
        query a has -5 1 -2/>refused NUMBER/=1 NUMBER: -2 isn't within 0 to 4611686018427387904, as times are;\n\
        query x! has -5 1 2/>refused NAME/=1 NAME: the name x! has more in it than letters, digits, _, - and .;\n\
        series a sum 1 now 2/>refused NUMBER/=1 NUMBER: now isn't a whole number: \
        times are whole numbers, as the seconds that date +%s prints;\n\
        series a sum 1 2 0/>refused NUMBER/=1 NUMBER: 0 isn't within 1 to 4611686018427387904, as steps are;\n\
        series a sum 0 100000 1/>refused NUMBER/=1 NUMBER: \
        from 0 to 100000 there are more than 100000 rows of the step 1;\n\
        estimate a sum 1 -2/>refused NUMBER/=1 NUMBER: -2 isn't within 0 to 4611686018427387904, as times are;\n\
        estimates a sum 0 200000 2/>refused NUMBER/=1 NUMBER: \
        from 0 to 200000 there are more than 100000 rows of the step 2;\n\
        certify a sum lo 1 now/>refused NUMBER/=1 NUMBER: now isn't a whole number: \
        times are whole numbers, as the seconds that date +%s prints;\n\
        certify a count hi -1 now/>refused NUMBER/=1 NUMBER: -1 isn't within 0 to 4611686018427387904, as times are;\n\
        certify x! sum lo 1 2/>refused NAME/=1 NAME: the name x! has more in it than letters, digits, _, - and .;\n\
        create a exp 2 1 4294967296/>refused NUMBER/=1 NUMBER: 4294967296 isn't within \
        0 to 4294967295, as parameters are;\n\
        create a exp 2 1 1 within 4294967296/>refused NUMBER/=1 NUMBER: 4294967296 isn't within \
        0 to 4294967295, as parameters are;\n\
        create a power 1 0 1 within within 5/>refused NUMBER/=1 NUMBER: within isn't a whole number;\n\
        create a power 1 0 1 1 within 1d/>refused NUMBER/=1 NUMBER: 1d isn't a whole number;\n\
        append x! 1 1/>refused NAME/=1 NAME: the name x! has more in it than letters, digits, _, - and .;\n\
        drop x!/>refused NAME/=1 NAME: the name x! has more in it than letters, digits, _, - and .;\n\
        windows abcdefghijklmnopqrstuvwxyz0123456/>refused NAME/=1 NAME: \
        the name abcdefghijklmnopqrstuvwxyz0123456 is longer than 32 letters;\n\
        create a exp 1 0 1/>refused PARAM/=1 PARAM: B is 1, and can be 2 to 16;\n\
        create a exp 2 0 1/>refused PARAM/=1 PARAM: R is 0, and can be 1 to 65536;\n\
        create a power 5 0 1 1/>refused PARAM/=1 PARAM: P is 5, and can be 1 to 4;\n\
        create a power 1 4 1 1/>refused PARAM/=1 PARAM: Q is 4, and can be 0 to 3;\n\
        create a power 1 0 1 65537/>refused PARAM/=1 PARAM: S is 65537, and can be 1 to 65536;\n\
        create a exp 2 1 1 within 0/>refused PARAM/=1 PARAM: E is 0, and can be 1 to 4294967295;\n\
        create a power 1 0 0 1 within 0/>refused PARAM/=1 PARAM: R is 0, and can be 1 to 65536;\n",
    ))
}

// What the store holds.
#[test]
fn states(rt: HostRuntime) -> Result<(), Fail> {
    pass(first_wrong(
        rt.alloc(),
        b"create a exp 2 1 1/>refused EXISTS/=1 EXISTS: a stream named a stands already, with the parameters that list shows;\n\
        create a exp 2 1 1/>refused STREAMS/=1 STREAMS: the store takes no more than 4096 streams;\n\
        windows rom/>refused UNKNOWN/=1 UNKNOWN: no stream is named rom;\n\
        drop rom/>refused UNKNOWN/=1 UNKNOWN: no stream is named rom;\n\
        landmark a open 1/>refused OPEN/=1 OPEN: a landmark of a is open already;\n\
        landmark a close 1/>refused NOT_OPEN/=1 NOT_OPEN: no landmark of a is open;\n\
        query a sum 5 4/>refused RANGE/=1 RANGE: the range ends before it begins: 5 is later than 4;\n\
        query a has 9 5 4/>refused RANGE/=1 RANGE: the range ends before it begins: 5 is later than 4;\n\
        query rom has 9 4 5/>refused UNKNOWN/=1 UNKNOWN: no stream is named rom;\n\
        series a sum 5 4 1/>refused RANGE/=1 RANGE: the range ends before it begins: 5 is later than 4;\n\
        series rom sum 4 5 1/>refused UNKNOWN/=1 UNKNOWN: no stream is named rom;\n\
        estimate a sum 5 4/>refused RANGE/=1 RANGE: the range ends before it begins: 5 is later than 4;\n\
        estimates a sum 5 4 1/>refused RANGE/=1 RANGE: the range ends before it begins: 5 is later than 4;\n\
        certify a sum lo 5 4/>refused RANGE/=1 RANGE: the range ends before it begins: 5 is later than 4;\n\
        certify rom sum lo 4 5/>refused UNKNOWN/=1 UNKNOWN: no stream is named rom;\n\
        append a 1 1/>refused STREAM_FULL/=1 STREAM_FULL: a takes no more values outside landmarks;\n\
        append a 1 1/>refused STORE_FULL/=1 STORE_FULL: the store takes no more records;\n\
        append a 50 1/>refused TIME/=1 TIME: 50 isn't later than the last time of a, which last a tells;\n\
        append a 70 1/append a 50 1/>ok 1 1/refused TIME/=2 TIME: 50 isn't later than the last time of a, 70;\n\
        append a 70 1/append b 9 1/append a 70 1/>ok 1 1/ok 1 1/refused TIME/=\
        3 TIME: 70 isn't later than the last time of a, 70;\n\
        append a 70 1/drop a/append a 50 1/>ok 1 1/ok 0 0/refused TIME/=\
        3 TIME: 50 isn't later than the last time of a, which last a tells;\n\
        append a 70 1/drop b/append a 50 1/>ok 1 1/ok 0 0/refused TIME/=\
        3 TIME: 50 isn't later than the last time of a, 70;\n\
        landmark a open 8/landmark a close 7/>ok 0 0/refused TIME/=2 TIME: 7 is before the last time of a, 8;\n\
        landmark a close 8/landmark a open 8/>ok 0 0/refused TIME/=2 TIME: 8 isn't later than the last time of a, 8;\n",
    ))
}

// Lines of sessions. The empty ones and those with # first have no reply, and each session's replies are told from those of others.
#[test]
fn sessions(rt: HostRuntime) -> Result<(), Fail> {
    pass(first_wrong_of(
        rt.alloc(),
        Form::Sessions { framed: true },
        b"list/>refused SYNTAX/=1 SYNTAX: \"list\" is no session: a line begins with @0 to @7, as in @0 list;\n\
        @8 list/>refused SYNTAX/=1 SYNTAX: \"@8\" is no session: a line begins with @0 to @7, as in @0 list;\n\
        @12 list/>refused SYNTAX/=1 SYNTAX: \"@12\" is no session: a line begins with @0 to @7, as in @0 list;\n\
        #/ /@1/@1 /@1 # x/@1 List/>@1 refused SYNTAX/=\
        6 SYNTAX: no command begins with \"List\": commands are in small letters;\n\
        \t@1\tappend a 1/>@1 refused SYNTAX/=1 SYNTAX: append NAME T V has 4 words, and this line has 3;\n\
        @1 cursor/>@1 refused SYNTAX/=1 SYNTAX: a cursor form is cursor open NAME, cursor next C or cursor close;\n\
        @1 cursor open/>@1 refused SYNTAX/=1 SYNTAX: cursor open NAME has 3 words, and this line has 2;\n\
        @1 cursor next 1 2/>@1 refused SYNTAX/=1 SYNTAX: cursor next C has 3 words, and this line has 4;\n\
        @1 cursor close a/>@1 refused SYNTAX/=1 SYNTAX: cursor close has 2 words, and this line has 3;\n\
        @1 cursor next 0/>@1 refused NUMBER/=1 NUMBER: 0 isn't within 1 to 1000, as many as a cursor gives at once;\n\
        @1 cursor next 1001/>@1 refused NUMBER/=1 NUMBER: 1001 isn't within 1 to 1000, as many as a cursor gives at once;\n\
        @1 cursor next all/>@1 refused NUMBER/=1 NUMBER: all isn't a whole number;\n\
        @1 cursor open x!/>@1 refused NAME/=1 NAME: the name x! has more in it than letters, digits, _, - and .;\n\
        @1 cursor open rom/>@1 refused UNKNOWN/=1 UNKNOWN: no stream is named rom;\n\
        @1 cursor open a/@1 cursor open a/>@1 cursor 3/@1 refused BUSY/=2 BUSY: session 1 has a cursor already: cursor close ends it;\n\
        @3 cursor next 1/>@3 refused NO_CURSOR/=1 NO_CURSOR: session 3 has no cursor: cursor open NAME opens one;\n\
        @0 cursor close/>@0 refused NO_CURSOR/=1 NO_CURSOR: session 0 has no cursor: cursor open NAME opens one;\n\
        @1 cursor next 2/@2 windows rom/>@1 rows 2/@1 1 1 1 1 1 1 1 1/@1 2 2 1 7 7 7 2 2/@2 refused UNKNOWN/=\
        2 UNKNOWN: no stream is named rom;\n\
        @1 cursor close/@2 windows rom/>@1 closed/@2 refused UNKNOWN/=2 UNKNOWN: no stream is named rom;\n\
        @1 append a 70 1/@2 append a 50 1/>@1 ok 1 1/@2 refused TIME/=\
        2 TIME: 50 isn't later than the last time of a, 70;\n\
        @1 append a 1 1/@2 x/>@1 ok 1 1/@1 frame 02/@2 refused SYNTAX/=2 SYNTAX: no command begins with \"x\";\n\
        @1 windows a/list/>@1 windows 1/@1 1 1 1 1 1 1 1 1/refused SYNTAX/=\
        2 SYNTAX: \"list\" is no session: a line begins with @0 to @7, as in @0 list;\n",
    ))
}

// Bytes that are no frames, and frames that come too early or aren't taken.
#[test]
fn frames(rt: HostRuntime) -> Result<(), Fail> {
    pass(first_wrong_of(
        rt.alloc(),
        Form::Follow,
        b"\t\x01\x01z\x05z\x07\x01az\x1fz\x03\x02z\x03\x01z\x03\x01z\x04>refused FRAME/=\
        1 FRAME: it begins with the byte 9, and frames begin with 1 to 4: these bytes aren't frames, or some are lost;\n\
        z\x40>refused FRAME/=1 FRAME: it begins with the byte 0, and frames begin with 1 to 4: these bytes aren't frames, or some are lost;\n\
        \x01\x03\x01z\x05z\x07\x01az\x1fz\x03\x02z\x03\x01z\x03\x01z\x04>refused FRAME/=\
        1 FRAME: a target of the family 3 isn't known: 1 is exp, and 2 is power;\n\
        \x02\x01\x01z\x05z\x07\x02az\x1fz\x07\x0bz\x07\x05>refused FRAME/=1 FRAME: it has the family 1, and only the frame of a create has one;\n\
        \x02z\x02z\x05z\x07\x02az\x1fz\x07\x0bz\x07\x05>refused FRAME/=1 FRAME: its name has 0 letters, and a name has 1 to 32;\n\
        \x02\0!z\x05z\x07\x02az\x1fz\x07\x0bz\x07\x05>refused FRAME/=1 FRAME: its name has 33 letters, and a name has 1 to 32;\n\
        \x02\0\x01z\x05z\x07\x02!z\x1fz\x07\x0bz\x07\x05>refused FRAME/=1 FRAME: its name has more in it than letters, digits, _, - and .;\n\
        \x02\0\x01z\x05z\x07\x02abz\x1ez\x07\x0bz\x07\x05>refused FRAME/=\
        1 FRAME: bytes that belong to no field of it are zeros in a frame, and here they aren't;\n\
        \x02\0\x01\x01z\x04z\x07\x02az\x1fz\x07\x0bz\x07\x05>refused FRAME/=\
        1 FRAME: bytes that belong to no field of it are zeros in a frame, and here they aren't;\n\
        \x02\0\x01z\x04\x3cz\x07\x02az\x1fz\x07\x0bz\x07\x05>refused FRAME/=\
        1 FRAME: bytes that belong to no field of it are zeros in a frame, and here they aren't;\n\
        \x01\x01\x01\x01z\x03\x3cz\x07\x01az\x1fz\x03\x02z\x03\x01z\x03\x01z\x04>refused FRAME/=\
        1 FRAME: bytes that belong to no field of it are zeros in a frame, and here they aren't;\n\
        \x01\x01\x01z\x04\x3cz\x07\x01az\x1fz\x03\x01z\x03\x01z\x03\x01z\x04>refused FRAME/=1 FRAME: B is 1, and can be 2 to 16;\n\
        \x02\0\x01z\x05z\x08az\x1fz\x07\x0bz\x07\x05>refused FRAME/=1 FRAME: its number is 0, and the events of a stream count from 1;\n\
        \x01\x01\x01z\x05z\x07\x02az\x1fz\x03\x02z\x03\x01z\x03\x01z\x04>refused FRAME/=\
        1 FRAME: it is a create with the number 2, and each create has the number 1;\n\
        \x02\0\x01z\x05z\x07\x01az\x1fz\x07\x0bz\x07\x05>refused FRAME/=1 FRAME: its number is 1, and that is the number of a create;\n\
        \x01\x01\x01z\x05z\x07\x01az\x1fz\x03\x01z\x03\x01z\x03\x01z\x04>refused FRAME/=1 FRAME: B is 1, and can be 2 to 16;\n\
        \x01\x01\x01z\x05z\x07\x01az\x1fz\x03\x02z\x03\x01z\x03\x01z\x03\x01>refused FRAME/=\
        1 FRAME: the target exp has three parameters, and its last four bytes aren't zeros;\n\
        \x01\x02\x01z\x05z\x07\x01az\x1fz\x03\x05z\x04z\x03\x01z\x03\x01>refused FRAME/=1 FRAME: P is 5, and can be 1 to 4;\n\
        \x02\0\x01z\x05z\x07\x02az\x1f@z\x06\x01z\x07\x05>refused FRAME/=\
        1 FRAME: its time is 4611686018427387905, and times are 0 to 4611686018427387904;\n\
        \x03\0\x01z\x05z\x07\x02az\x1fz\x07\x0bz\x07\x05>refused FRAME/=1 FRAME: its last eight bytes aren't zeros, and a landmark has no value;\n\
        z\t>refused FRAME/=1 FRAME: the input ends after 9 of the 64 bytes of a frame;\n\
        append a 1 2\r>refused FRAME/=1 FRAME: these bytes aren't frames but text: the mode frames makes frames of commands;\n\
        frame 01020304050607\r>refused FRAME/=1 FRAME: these are the digits of frames, and not their bytes: xxd -r -p makes bytes of digits;\n\
        01020304050607080910111213141516>refused FRAME/=\
        1 FRAME: these are the digits of frames, and not their bytes: xxd -r -p makes bytes of digits;\n\
        \x02\0\x01z\x05z\x07\x05az\x1fz\x07\x0bz\x07\x05>gap 2/=\
        1 gap: event 3 of a is missing, and this is event 5: send its frames again from event 3 on;\n\
        \x02\0\x01z\x05z\x07\x02az\x1fz\x07\x0bz\x07\x05>gap 0/=\
        1 gap: event 1 of a is missing, and this is event 2: send its frames again from event 1 on;\n\
        \x01\x01\x01z\x05z\x07\x01az\x1fz\x03\x02z\x03\x01z\x03\x01z\x04\x02\0\x01z\x05z\x07\x02az\x1fz\x07\x0bz\x07\x05\
        \x02\0\x01z\x05z\x07\x02az\x1fz\x07\x0bz\x07\x05z\t>ok 0 0/ok 1 1/old/refused FRAME/=\
        4 FRAME: the input ends after 9 of the 64 bytes of a frame;\n\
        \x02\0\x01z\x05z\x07\x02az\x1fz\x07\x0bz\x07\x05\x02\0\x01z\x05z\x07\x03az\x1fz\x07\x0bz\x07\x05>ok 1 1/refused TIME/=\
        2 TIME: 11 isn't later than the last time of a, 11;\n\
        \x01\x01\x01z\x05z\x07\x01az\x1fz\x03\x02z\x03\x01z\x03\x01z\x04>refused STREAMS/=1 STREAMS: the store takes no more than 4096 streams;\n",
    ))
}

// Where frames stand in the place of replies, lines are explained that are refused by themselves.
#[test]
fn lines_without_replies(rt: HostRuntime) -> Result<(), Fail> {
    pass(first_wrong_of(
        rt.alloc(),
        Form::Frames,
        b"list/append a 1/# x/append a 1 2/x/>=2 SYNTAX: append NAME T V has 4 words, and this line has 3;\
        5 SYNTAX: no command begins with \"x\";\n\
        append a 1 2/drop a/append x! 1 1>=3 NAME: the name x! has more in it than letters, digits, _, - and .;\n",
    ))
}

// Lines are told from each other past lines without a reply and replies with rows, and two at the most are explained.
#[test]
fn lines_and_replies(rt: HostRuntime) -> Result<(), Fail> {
    pass(first_wrong(
        rt.alloc(),
        b"# a//list/windows a/x/>list 2/a b c/d e f/windows 1/refused TIME/refused SYNTAX/=\
        5 SYNTAX: no command begins with \"x\";\n\
        x/y/z/>refused SYNTAX/refused SYNTAX/refused SYNTAX/=\
        1 SYNTAX: no command begins with \"x\";2 SYNTAX: no command begins with \"y\";\n\
        list/x>list 0/refused SYNTAX/=2 SYNTAX: no command begins with \"x\";\n\
        series a sum 1 9 5/x>series 2/1 0 4/6 refused SYNTAX/refused SYNTAX/=2 SYNTAX: no command begins with \"x\";\n\
        estimates a sum 1 9 5/x>estimates 2/1 0 2 4/6 refused SYNTAX/refused SYNTAX/=2 SYNTAX: no command begins with \"x\";\n\
        certify a sum lo 1 9/x>certify -5 0 1/inside 1 4 2 -3*1 -2*1/outside 1 4 2 8*2/refused SYNTAX/=\
        2 SYNTAX: no command begins with \"x\";\n\
        certify a count lo 1 9/x>certify 4 4 0/refused SYNTAX/=2 SYNTAX: no command begins with \"x\";\n\
        query a has 8 1 9/x>has maybe/refused SYNTAX/=2 SYNTAX: no command begins with \"x\";\n\
        append a 1 1/x>ok 1 1/frame 02/refused SYNTAX/=2 SYNTAX: no command begins with \"x\";\n\
        >sum 1 1/refused SYNTAX/=\n",
    ))
}
