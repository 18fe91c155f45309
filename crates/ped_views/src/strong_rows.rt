//! Subscript pairs that are strong SIV.

/// What the strong SIV test looks at of a subscript pair with one common index and one coefficient: `a * i + c1` at
/// the source and `a * j + c2` at the sink (Allen and Kennedy, section 3.3.2).
#[derive(Clone, Copy, PartialEq, Eq)]
pub struct StrongRow {
    /// The coefficient of the index on both sides, which isn't 0.
    pub a: i64,
    /// The constant of the source.
    pub c1: i64,
    /// The constant of the sink.
    pub c2: i64,
}
