//! Fields of whole numbers in bytes, and whole numbers as decimal text.
#![tactic(auto)]

mod bytes;
mod digits;
mod laws;
mod number_error;
mod print;
mod read;

pub use bytes::{get_i64, get_i128, get_u32, get_u64, put_i64, put_i128, put_u32, put_u64};
pub use laws::{
    printed_i64_reads_back, printed_u64_reads_back, written_i64_reads_back,
    written_i128_reads_back, written_number_reads_back,
};
pub use number_error::NumberError;
pub use print::{LONGEST_PRINTED_NUMBER, print_i64, print_i128, print_u64};
pub use read::{read_i64, read_u64};
