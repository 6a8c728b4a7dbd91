//! Lines: how an input is cut into them, what a line means, and the words of numbers and targets.
#![tactic(auto)]

mod command;
mod grammar;
mod laws;
mod line_reader;
mod numbers;
mod put;
mod said;
mod table;
mod verb;
mod words;

pub use command::Command;
pub use grammar::parse;
pub use laws::{
    lines_give_the_input_back, lines_have_no_line_end, long_lines_are_refused,
    meant_commands_can_be_said, printed_commands_read_back, words_stand_between_blanks,
};
pub use line_reader::{Ended, LineReader};
pub use put::{put_number, put_sum, put_target, put_value};
pub use table::{Field, Fixed, Kinds, Letter, Row, forms_of};
pub use verb::{Verb, verb_of};
pub use words::{Words, cut_first, is_word};

/// The byte that ends a line.
pub const LINE_END: u8 = b'\n';

/// One of this byte at the end of a line is dropped.
pub const CARRIAGE_RETURN: u8 = b'\r';

/// A line has at most this many bytes, without its line end and the carriage return before it.
pub const LONGEST_LINE: usize = 256;

/// A line that begins with this byte is no command.
pub const COMMENT: u8 = b'#';
