// What a test ends with. The error of the journal also says that a device failed, or that there was no memory.
use ss_journal::JournalError;
use std::test::Fail;

/// Passes where no row is wrong.
pub fn pass(wrong: Result<Option<usize>, JournalError>) -> Result<(), Fail> {
    match wrong {
        Ok(None) => Ok(()),
        Ok(Some(row)) => Err(Fail::new(format_args!("row {row}"))),
        Err(error) => Err(Fail::new(format_args!("{error}"))),
    }
}

/// Passes where it holds.
pub fn pass_if(holds: Result<bool, JournalError>) -> Result<(), Fail> {
    match holds {
        Ok(true) => Ok(()),
        Ok(false) => Err(Fail::new(format_args!("it doesn't hold"))),
        Err(error) => Err(Fail::new(format_args!("{error}"))),
    }
}
