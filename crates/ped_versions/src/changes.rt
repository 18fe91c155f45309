//! The kinds of changes.

/// The kind of a change between two sources of a session.
#[derive(Clone, Copy, PartialEq, Eq)]
pub enum ChangeKind {
    /// Lines were edited.
    Edit,
    /// Dependences of a variable were rejected.
    Rejection,
    /// The program was transformed.
    Transformation,
}
