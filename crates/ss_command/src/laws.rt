// Laws, each the contract of a function that does nothing.
ghost use Rattle.std.specs.Prelude.{◌≡◌, ◌<◌, ◌++◌, [], ◌∷◌, ℕ, List, length, true, false, Ok, Err, Some};
ghost use Rattle.std.specs.List.{All, flat_map, position_or_len};
ghost use Rattle.ss_catalog.specs.declared.refusal.Refusal.TheVariants as refusals;
ghost use Rattle.ss_command.specs.declared.command.Command.{Command};
ghost use Rattle.ss_command.specs.Grammar.{meaning};
ghost use Rattle.ss_command.specs.Lines.{ended_lines, is_line_end, lines, unended};
ghost use Rattle.ss_command.specs.Printed.{IsSayable, printed};
ghost use Rattle.ss_command.specs.Words.{is_blank, words};

use crate::{LINE_END, LONGEST_LINE};

/// The lines that a line end ends, each with it, and what stands after the last one are the input.
pub fn lines_give_the_input_back()
    ensures { (input : List ℕ) → flat_map (λ line. line ++ LINE_END ∷ []) (ended_lines input) ++ unended input ≡ input }
{}

/// No line has a line end.
pub fn lines_have_no_line_end()
    ensures { (input : List ℕ) → All (λ line. position_or_len is_line_end line ≡ length line) (lines input) }
{}

/// The words on both sides of a blank are those of each side; some bytes without a blank are one word; nothing has none.
pub fn words_stand_between_blanks()
    ensures blank { (before after : List ℕ) (b : ℕ) → is_blank b ≡ true → words (before ++ b ∷ after) ≡ words before ++ words after }
    ensures one { (word : List ℕ) → 0 < length word → All (λ b. is_blank b ≡ false) word → words word ≡ word ∷ [] }
    ensures none { words [] ≡ [] }
{}

/// A line that is too long is refused as such, whatever it says.
pub fn long_lines_are_refused()
    ensures { (line : List ℕ) → LONGEST_LINE < length line → meaning line ≡ Err refusals.Line }
{}

/// A printed command means that command.
pub fn printed_commands_read_back()
    ensures { (command : Command) → IsSayable command → meaning (printed command) ≡ Ok (Some command) }
{}

/// A command that a line means is one that a line can say: its name is one, and its numbers are in their ranges.
pub fn meant_commands_can_be_said()
    ensures { (line : List ℕ) (command : Command) → meaning line ≡ Ok (Some command) → IsSayable command }
{}
