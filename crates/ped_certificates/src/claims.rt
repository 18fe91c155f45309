//! What a line of evidence claims: that two references never touch one cell in some directions, by a certificate.

use crate::systems::Step;
use ped_base::Listed;

/// What a pattern says of a common loop (Allen and Kennedy, section 2.2.4).
#[derive(Clone, Copy, PartialEq, Eq)]
pub enum Sign {
    /// `<`: the source's iteration comes first.
    Before,
    /// `=`: both are in one iteration.
    Same,
    /// `>`: the sink's iteration comes first.
    After,
    /// `*`: any of these.
    Any,
}

/// The place of a reference: its statement, and its number among the references of that statement.
#[derive(Clone, Copy, PartialEq, Eq)]
pub struct Position {
    /// The number of the statement.
    pub statement: u32,
    /// The number of the reference.
    pub number: u32,
}

/// A pair of references and directions, with the steps that are to show that they never touch one cell in these
/// directions.
#[derive(Drop)]
pub struct Claim {
    /// The place of the source.
    pub source: Position,
    /// The place of the sink.
    pub sink: Position,
    /// The directions: a sign for each common loop.
    pub pattern: Listed<Sign>,
    /// The steps of the certificate.
    pub steps: Listed<Step>,
}

/// A line of the text of evidence.
#[derive(Drop)]
pub enum EvidenceLine {
    /// It has no word.
    Empty,
    /// It has words, and they are no claim.
    Malformed,
    /// It is this claim.
    Claim(Claim),
}

/// The lines of the text of evidence, in their order.
pub type Evidence = Listed<EvidenceLine>;
