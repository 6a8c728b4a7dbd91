// The kinds of stores.

/// What a store has beside its records. It is born so, and stays so.
#[derive(Clone, Copy, Debug, PartialEq, Eq)]
pub enum Kind {
    /// Nothing.
    Plain,
    /// A checksum in each live record and in each entry.
    Checked,
}
