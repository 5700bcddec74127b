//! How strictly replies are judged.

/// How strictly replies are judged.
#[derive(Clone, Copy, PartialEq, Eq, Drop)]
pub enum Profile {
    /// Attributes in replies aren't judged.
    Plain,
    /// The types and sizes in a reply's attributes have to be those of the tree, and its sizes before those of the tree before.
    Strict,
}
