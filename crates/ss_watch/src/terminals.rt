// Which standard streams are terminals.

/// Which of standard input, output and error are terminals.
#[derive(Clone, Copy)]
pub struct Terminals {
    pub input: bool,
    pub output: bool,
    pub error: bool,
}
