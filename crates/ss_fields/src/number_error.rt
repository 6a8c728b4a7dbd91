// Why a word is no number of a type.
use thiserror::Error;

/// Why a word was not read as a number.
#[derive(Clone, Copy, Debug, PartialEq, Eq, Error)]
pub enum NumberError {
    /// The word is not spelled as a number.
    #[error("not a number")]
    NotNumber,
    /// The word is a number that the type cannot hold.
    #[error("number out of range")]
    OutOfRange,
}
