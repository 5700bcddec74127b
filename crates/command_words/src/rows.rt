//! What the words after a command may say.

/// Whether an option has to be said, and beside which others.
#[derive(Clone, Copy)]
pub(crate) enum Need {
    /// It needn't be.
    Free,
    /// It has to be.
    Wanted,
    /// It has to be, unless this one is said.
    Unless(&'static str),
    /// It needn't be, and only if this one is said.
    With(&'static str),
    /// It needn't be, and only if the first is said and the second isn't.
    WithBut(&'static str, &'static str),
    /// It needn't be, and only if neither is said.
    Without(&'static str, &'static str),
}

/// An option, or a word in its place. The first text is its name, the last one what `--help` says of it.
#[derive(Clone, Copy)]
pub(crate) enum Row {
    /// A word in its place: a path.
    Path(&'static str, Need, &'static str),
    /// A word in its place: a number, which has to be said, from the least to the most.
    Count(&'static str, u64, u64, &'static str),
    /// An option without a value.
    Flag(&'static str, &'static str),
    /// An option with a text, which has this name in `--help`.
    Text(&'static str, Need, &'static str, &'static str),
    /// An option with one of these words.
    OneOf(&'static str, &'static [&'static str], &'static str, &'static str),
    /// An option with a number, from the least to the most, which has this name in `--help`.
    Number(&'static str, u64, u64, Need, &'static str, &'static str),
}

/// A command.
#[derive(Clone, Copy)]
pub(crate) struct Verb {
    pub(crate) name: &'static str,
    /// What `--help` says of it.
    pub(crate) about: &'static str,
    /// In the order in which `--help` lists them.
    pub(crate) rows: &'static [Row],
}
