// What a test over a table ends with.
use std::test::Fail;

/// Passes where no row is wrong.
pub fn pass(wrong: Option<usize>) -> Result<(), Fail> {
    match wrong {
        None => Ok(()),
        Some(row) => Err(Fail::new(format_args!("row {row}"))),
    }
}
