//! The characters of a statement: where each lies with respect to constants, what is kept of it, and whether it may
//! occur there. An apostrophe opens a constant and closes it. A doubled one in a constant does both, so the constant
//! goes on.

ghost use Rattle.std.specs.Prelude.{◌≡◌, ◌∷◌, [], ◌++◌, ◌||◌, ℕ, List, IfOk, OnOk};
ghost use Rattle.ped_tree.specs.Grammar.Characters as Spec;
ghost use Rattle.ped_lines.specs.Cutting.{WithColumns};
ghost use Rattle.ped_lines.specs.Quoting.{is_inside, quoting_of};

use ped_base::NoMemory;
use std::alloc::Global;

/// The place of a statement's next character relative to its constants.
#[derive(Clone, Copy)]
pub enum Quoting {
    /// In a constant.
    Inside,
    /// Directly after the apostrophe that closed a constant.
    Closed,
    /// After a constant, with blanks alone between.
    Apart,
    /// Anywhere else.
    Outside,
}

/// The text of a statement so far.
#[derive(Drop)]
pub struct OpenText {
    /// What is kept of its characters.
    pub bytes: Vec<u8>,
    /// The place of the next character.
    pub quoting: Quoting,
    /// Whether the line that was added last has a character at a place where it may not occur.
    pub bad: bool,
}

impl OpenText {
    /// The text of no characters, with room for those of a line.
    #[tactic(auto, unfolding(ped_tree::specs::Grammar::Characters::is_quoted, crate::specs::Quoting::quoting_of))]
    pub fn new(alloc: Global) -> Result<OpenText, NoMemory>
        ensures text { IfOk result (λ o. o.bytes.items ≡ []) }
        ensures quoting { IfOk result (λ o. quoting_of [] ≡ o.quoting) }
    {
        Ok(OpenText {
            bytes: Vec::with_capacity(alloc, 66)?,
            quoting: Quoting::Outside,
            bad: false,
        })
    }

    /// Whether a constant isn't closed.
    pub fn is_open(&self) -> bool
        ensures { result ≡ is_inside self.now.quoting }
    {
        matches!(self.quoting, Quoting::Inside)
    }

    /// The text with the columns of one more line, whatever is before them.
    pub fn with_columns(self, columns: &[u8]) -> Result<OpenText, NoMemory>
        ensures { IfOk result (WithColumns self columns.now) }
    {
        let mut bytes = self.bytes;
        let mut quoting = self.quoting;
        let mut bad = false;
        for c in columns {
            bad = is_bad_so_far(bad, quoting, *c);
            push_kept(&mut bytes, quoting, *c)?;
            quoting = quoting_behind(quoting, *c);
        }
        Ok(OpenText {
            bytes,
            quoting,
            bad,
        })
    }
}

/// The place of the character after `c`.
#[tactic(auto, using(crate::proofs::Constants::quoting_more))]
fn quoting_behind(quoting: Quoting, c: u8) -> Quoting
    ensures { (before : List ℕ) → quoting_of before ≡ quoting → quoting_of (before ++ c ∷ []) ≡ result }
{
    match (quoting, c) {
        (Quoting::Inside, b'\'') => Quoting::Closed,
        (Quoting::Inside, _) => Quoting::Inside,
        (_, b'\'') => Quoting::Inside,
        (Quoting::Closed | Quoting::Apart, b' ') => Quoting::Apart,
        _ => Quoting::Outside,
    }
}

/// Adds what is kept of a character: one blank comes before a constant that only blanks separate from another.
#[tactic(auto, using(crate::proofs::Constants::kept_is))]
fn push_kept(text: &mut Vec<u8>, quoting: Quoting, c: u8) -> Result<(), NoMemory>
    ensures { OnOk result ((before : List ℕ) → quoting_of before ≡ quoting → text.new.items ≡ text.old.items ++ Spec.kept before c) }
{
    match (quoting, c) {
        (Quoting::Inside, _) => text.push(c)?,
        (Quoting::Apart, b'\'') => text.extend_from_slice(b" '")?,
        (_, b' ') => {}
        _ => text.push(c.to_ascii_uppercase())?,
    }
    Ok(())
}

fn is_bad_so_far(bad: bool, quoting: Quoting, c: u8) -> bool
    ensures { (before : List ℕ) → quoting_of before ≡ quoting → result ≡ (bad || Spec.is_bad before c) }
{
    bad || is_bad(quoting, c)
}

#[tactic(auto, using(crate::proofs::Constants::bad_is))]
fn is_bad(quoting: Quoting, c: u8) -> bool
    ensures { (before : List ℕ) → quoting_of before ≡ quoting → result ≡ Spec.is_bad before c }
{
    match quoting {
        Quoting::Inside => !is_printable(c),
        Quoting::Closed | Quoting::Apart | Quoting::Outside => !is_character(c),
    }
}

fn is_printable(c: u8) -> bool
    ensures { result ≡ Spec.is_printable c }
{
    (b' '..=b'~').contains(&c)
}

fn is_character(c: u8) -> bool
    ensures { result ≡ Spec.is_character c }
{
    c.is_ascii_alphabetic() || c.is_ascii_digit() || b" =+-*/(),.'$:".contains(&c)
}
