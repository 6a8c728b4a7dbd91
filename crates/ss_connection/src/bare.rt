// A line as it is read.
ghost use Rattle.std.specs.Prelude.{◌≡◌};
ghost use Rattle.ss_command.specs.Lines.{without_return};
ghost use Rattle.ss_connection.specs.Calls.{bare, without_end};

use ss_command::{CARRIAGE_RETURN, LINE_END};

// The line without one line end at its end.
fn without_end(line: &[u8]) -> &[u8]
    ensures { result.now ≡ without_end line.now }
{
    match line.last() {
        Some(&LINE_END) => &line[..line.len() - 1],
        _ => line,
    }
}

// The line without one carriage return at its end.
fn without_return(line: &[u8]) -> &[u8]
    ensures { result.now ≡ without_return line.now }
{
    match line.last() {
        Some(&CARRIAGE_RETURN) => &line[..line.len() - 1],
        _ => line,
    }
}

/// The line without its line end and its carriage return, where it has them.
pub fn bare(line: &[u8]) -> &[u8]
    ensures { result.now ≡ bare line.now }
{
    without_return(without_end(line))
}
