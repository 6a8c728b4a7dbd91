// What a run wrote, as it stands in a script.
use crate::bytes::part;
use crate::story::FRAME;
use std::alloc::AllocError;

// A byte as it is, where it can be read, and else by its digits.
fn push_byte(out: &mut String, byte: u8) -> Result<(), AllocError> {
    if (32..127).contains(&byte) && byte != b'\\' {
        out.push(byte as char)
    } else {
        write!(out, "\\x{byte:02x}")
    }
}

fn push_line(out: &mut String, line: &[u8]) -> Result<(), AllocError> {
    out.push_str("= ")?;
    for byte in line {
        push_byte(out, *byte)?;
    }
    out.push_str("\n")
}

// How many lines after this one are the same.
fn count_same(rest: &[u8], line: &[u8]) -> usize {
    let length = line.len().saturating_add(1);
    let mut same = 0usize;
    for k in 0..rest.len() / length.max(1) {
        let from = k.saturating_mul(length);
        let next = part(rest, from, from.saturating_add(length));
        if !next.starts_with(line) || !next.ends_with(b"\n") {
            return same;
        }
        same = same.saturating_add(1);
    }
    same
}

// From so many lines on the same ones are counted.
const FEW: usize = 8;

fn print_lines(out: &mut String, written: &[u8]) -> Result<(), AllocError> {
    let mut from = 0usize;
    for (k, byte) in written.iter().enumerate() {
        if *byte == b'\n' && from <= k {
            let line = part(written, from, k);
            push_line(out, line)?;
            from = k.saturating_add(1);
            let same = count_same(part(written, from, written.len()), line);
            if same >= FEW {
                write!(out, "= ({same} times more)\n")?;
                from = from.saturating_add(same.saturating_mul(line.len().saturating_add(1)));
            }
        }
    }
    if from < written.len() {
        push_line(out, part(written, from, written.len()))?;
        out.push_str("= (no line end)\n")?;
    }
    Ok(())
}

fn print_frames(out: &mut String, written: &[u8]) -> Result<(), AllocError> {
    for k in 0..written.len() / FRAME {
        let from = k.saturating_mul(FRAME);
        out.push_str("= ")?;
        for byte in part(written, from, from.saturating_add(FRAME)) {
            write!(out, "{byte:02x}")?;
        }
        out.push_str("\n")?;
    }
    Ok(())
}

/// Prints the lines that a run wrote in a mode, or its frames by hexadecimal digits.
pub fn print_written(out: &mut String, mode: &str, written: &[u8]) -> Result<(), AllocError> {
    if mode.starts_with("frames") {
        print_frames(out, written)
    } else {
        print_lines(out, written)
    }
}
