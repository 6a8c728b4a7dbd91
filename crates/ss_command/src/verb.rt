// The first words of the commands.
ghost use Rattle.std.specs.Prelude.{◌≡◌};
ghost use Rattle.ss_command.specs.Grammar.{verb_of};

use crate::words::is_word;

/// The first word of a command. The words after it are to have one of its forms. docs/GUIDE.md ("Commands") has them.
#[derive(Clone, Copy, Debug, PartialEq, Eq)]
pub enum Verb {
    Create,
    Append,
    Landmark,
    Drop,
    Query,
    Series,
    Windows,
    List,
    Certify,
    Last,
    Values,
    Estimate,
    Estimates,
}

/// The verb that a word is. Of any other word it is `None`, and `parse` refuses a line that begins with one as SYNTAX.
pub fn verb_of(word: &[u8]) -> Option<Verb>
    ensures { result ≡ verb_of word.now }
{
    if is_word(word, "create") {
        Some(Verb::Create)
    } else if is_word(word, "append") {
        Some(Verb::Append)
    } else if is_word(word, "landmark") {
        Some(Verb::Landmark)
    } else if is_word(word, "drop") {
        Some(Verb::Drop)
    } else if is_word(word, "query") {
        Some(Verb::Query)
    } else if is_word(word, "series") {
        Some(Verb::Series)
    } else if is_word(word, "windows") {
        Some(Verb::Windows)
    } else if is_word(word, "list") {
        Some(Verb::List)
    } else if is_word(word, "certify") {
        Some(Verb::Certify)
    } else if is_word(word, "last") {
        Some(Verb::Last)
    } else if is_word(word, "values") {
        Some(Verb::Values)
    } else if is_word(word, "estimate") {
        Some(Verb::Estimate)
    } else if is_word(word, "estimates") {
        Some(Verb::Estimates)
    } else {
        None
    }
}
