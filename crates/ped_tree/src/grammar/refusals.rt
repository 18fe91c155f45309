//! Why a text is refused: a rule with its number and its name, at a line; and the first such refusal.

ghost use Rattle.std.specs.Prelude.{◌≡◌};
ghost use Rattle.ped_tree.specs.Grammar.Refusal as Plain;
ghost use Rattle.ped_tree.specs.Grammar.Refusal.{earliest, refused_if, number_of, name_of_refusal};
ghost use Rattle.ped_tree.specs.Grammar.RefusalViews.{kind_of, finding_of, found_of};

/// A rule that a text breaks, in the order of the numbers 1 to 19: of lines up to 6, of statements and their
/// nesting up to 13, of names and what they stand for up to 19.
#[derive(Clone, Copy, Debug, PartialEq, Eq)]
pub enum RefusalKind {
    /// A tab in columns 1 to 72 of a line that is no comment.
    Tab,
    /// Columns 1 to 5 are neither blank nor, on a line that begins a statement, a label.
    BadLabel,
    /// A statement has more than 19 continuation lines.
    TooManyContinuations,
    /// A continuation line before any statement has begun.
    ContinuationFirst,
    /// A character in columns 7 to 72 that may not occur there.
    BadCharacter,
    /// A constant that isn't closed in its statement.
    OpenConstant,
    /// A statement's text has no form, or it is at a place where it may not be.
    Syntax,
    /// A statement of FORTRAN 77 that the profile leaves out.
    NotInProfile,
    /// A block isn't closed.
    OpenBlock,
    /// A statement with the label of an open DO that can't end it.
    BadTerminal,
    /// The variable of a DO is assigned in it.
    IndexAssigned,
    /// STOP within a DO.
    StopPlace,
    /// A statement passes a limit of the profile.
    Limit,
    /// A name that isn't declared and would be REAL.
    RealName,
    /// A name is declared twice, or a constant is used as a variable.
    DeclaredTwice,
    /// A value that has to be constant isn't, or can't be computed.
    NotConstant,
    /// A name with another number of subscripts than its dimensions.
    RankDiffers,
    /// A lower bound above its upper bound.
    BoundsEmpty,
    /// The arrays or the pairs of references pass a limit of the profile.
    StorageLimit,
}

impl RefusalKind {
    /// The number of this kind, 1 to 19: of the refusals at one line the least counts.
    pub fn number(self) -> u8
        ensures { result ≡ number_of (kind_of self) }
    {
        match self {
            RefusalKind::Tab => 1,
            RefusalKind::BadLabel => 2,
            RefusalKind::TooManyContinuations => 3,
            RefusalKind::ContinuationFirst => 4,
            RefusalKind::BadCharacter => 5,
            RefusalKind::OpenConstant => 6,
            RefusalKind::Syntax => 7,
            RefusalKind::NotInProfile => 8,
            RefusalKind::OpenBlock => 9,
            RefusalKind::BadTerminal => 10,
            RefusalKind::IndexAssigned => 11,
            RefusalKind::StopPlace => 12,
            RefusalKind::Limit => 13,
            RefusalKind::RealName => 14,
            RefusalKind::DeclaredTwice => 15,
            RefusalKind::NotConstant => 16,
            RefusalKind::RankDiffers => 17,
            RefusalKind::BoundsEmpty => 18,
            RefusalKind::StorageLimit => 19,
        }
    }

    /// The name of this kind, as it is printed.
    pub fn name(self) -> &'static [u8]
        ensures { result.now ≡ name_of_refusal (kind_of self) }
    {
        match self {
            RefusalKind::Tab => b"Tab",
            RefusalKind::BadLabel => b"BadLabel",
            RefusalKind::TooManyContinuations => b"TooManyContinuations",
            RefusalKind::ContinuationFirst => b"ContinuationFirst",
            RefusalKind::BadCharacter => b"BadCharacter",
            RefusalKind::OpenConstant => b"OpenConstant",
            RefusalKind::Syntax => b"Syntax",
            RefusalKind::NotInProfile => b"NotInProfile",
            RefusalKind::OpenBlock => b"OpenBlock",
            RefusalKind::BadTerminal => b"BadTerminal",
            RefusalKind::IndexAssigned => b"IndexAssigned",
            RefusalKind::StopPlace => b"StopPlace",
            RefusalKind::Limit => b"Limit",
            RefusalKind::RealName => b"RealName",
            RefusalKind::DeclaredTwice => b"DeclaredTwice",
            RefusalKind::NotConstant => b"NotConstant",
            RefusalKind::RankDiffers => b"RankDiffers",
            RefusalKind::BoundsEmpty => b"BoundsEmpty",
            RefusalKind::StorageLimit => b"Limit",
        }
    }
}

/// A refusal and its line.
#[derive(Clone, Copy, Debug, PartialEq, Eq)]
pub struct Refusal {
    /// The rule.
    pub kind: RefusalKind,
    /// The line's number, from 1; 0 for a text without lines.
    pub line: u64,
}

/// The earlier one of what was found and the refusal of this kind and line, where the test holds.
#[tactic(auto, unfolding(crate::specs::Grammar::Refusal::refused_if))]
pub fn standing(found: Option<Refusal>, test: bool, kind: RefusalKind, line: u64) -> Option<Refusal>
    ensures { found_of result ≡ earliest (found_of found) (refused_if test (kind_of kind) line) }
{
    if test {
        earlier(found, Refusal { kind, line })
    } else {
        found
    }
}

#[tactic(auto, unfolding(crate::specs::Grammar::Refusal::earlier))]
fn earlier(found: Option<Refusal>, refusal: Refusal) -> Option<Refusal>
    ensures { found_of result ≡ Plain.earlier (found_of found) (finding_of refusal) }
{
    match found {
        None => Some(refusal),
        Some(first) => Some(if is_before(refusal, first) {
            refusal
        } else {
            first
        }),
    }
}

/// Whether a refusal comes before another: by line, and then by number.
#[tactic(auto, unfolding(crate::specs::Grammar::Refusal::is_before))]
fn is_before(left: Refusal, right: Refusal) -> bool
    ensures { result ≡ Plain.is_before (finding_of left) (finding_of right) }
{
    left.line < right.line || (left.line == right.line && left.kind.number() < right.kind.number())
}
