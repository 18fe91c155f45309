//! Names that are declared or listed again.

ghost use Rattle.std.specs.Prelude.{◌≡◌, [], ◌∷◌, ◌++◌, ◌||◌, ℕ, List, IfOk, OnOk, if◌then◌else◌};
ghost use Rattle.ped_symbols.specs.NameRefusals as Spec;
ghost use Rattle.ped_symbols.specs.NameRefusals.{has_twice, is_again, declares_again};
ghost use Rattle.ped_symbols.specs.Passes.{HaveSame, HasSeen};
ghost use Rattle.ped_symbols.specs.declared.uses.Use.{Use as PlainUse};
ghost use Rattle.ped_tree.specs.Views.{stmt_tree};

use crate::uses::Use;
use ped_base::{Name, NoMemory};
use ped_tree::Stmt;
use ped_tree::names::NameSet;
use std::alloc::Global;

/// The names that declarations have typed, dimensioned, made constants and saved so far.
#[derive(Drop)]
pub struct Seen {
    /// Those in INTEGER.
    pub typed: NameSet,
    /// Those with dimensions.
    pub dimensioned: NameSet,
    /// The named constants.
    pub named: NameSet,
    /// Those in SAVE.
    pub saved: NameSet,
}

impl Seen {
    /// Before the first declaration.
    pub fn nothing(alloc: Global) -> Seen
        ensures { HasSeen result [] }
    {
        Seen {
            typed: NameSet::new(alloc),
            dimensioned: NameSet::new(alloc),
            named: NameSet::new(alloc),
            saved: NameSet::new(alloc),
        }
    }

    /// Whether one of the uses of a declaration says again what a use before it says; and they are seen.
    pub fn see_all(&mut self, uses: &[Use]) -> Result<bool, NoMemory>
        ensures again { IfOk result (λ again. (before : List PlainUse) → HasSeen self.old before → again ≡ declares_again before uses.now) }
        ensures seen { OnOk result ((before : List PlainUse) → HasSeen self.old before → HasSeen self.new (before ++ uses.now)) }
    {
        let mut again = false;
        for u in uses {
            again = either(again, self.has(u));
            self.see(u)?;
        }
        Ok(again)
    }

    /// Whether a use says again what one before it says.
    fn has(&self, u: &Use) -> bool
        ensures { (before : List PlainUse) → HasSeen self.now before → result ≡ is_again before u.now }
    {
        (u.role.is_typing() && self.typed.contains(&u.name))
            || (u.role.is_dimensioning() && self.dimensioned.contains(&u.name))
            || (u.role.is_naming() && self.named.contains(&u.name))
            || (u.role.is_saving() && self.saved.contains(&u.name))
    }

    fn see(&mut self, u: &Use) -> Result<(), NoMemory>
        ensures { OnOk result ((before : List PlainUse) → HasSeen self.old before → HasSeen self.new (before ++ u.now ∷ [])) }
    {
        insert_where(u.role.is_typing(), &mut self.typed, &u.name)?;
        insert_where(u.role.is_dimensioning(), &mut self.dimensioned, &u.name)?;
        insert_where(u.role.is_naming(), &mut self.named, &u.name)?;
        insert_where(u.role.is_saving(), &mut self.saved, &u.name)
    }
}

/// Whether one of two holds; both are known.
fn either(first: bool, second: bool) -> bool
    ensures { result ≡ (first || second) }
{
    first || second
}

/// Adds a name where it is wanted.
pub fn insert_where(wanted: bool, names: &mut NameSet, name: &Name) -> Result<(), NoMemory>
    ensures { OnOk result ((before : List (List ℕ)) → HaveSame names.old before → HaveSame names.new (before ++ (if wanted then name.now ∷ [] else []))) }
{
    if wanted {
        return names.insert(name);
    }
    Ok(())
}

/// Whether a DO rejects a name twice.
pub fn rejects_twice(alloc: Global, statement: &Stmt) -> Result<bool, NoMemory>
    ensures { IfOk result (λ twice. twice ≡ Spec.rejects_twice (stmt_tree statement.now)) }
{
    match statement {
        Stmt::Do(d) => stands_twice(alloc, d.rejected.as_slice()),
        Stmt::Assign { .. }
        | Stmt::If { .. }
        | Stmt::Print(_)
        | Stmt::Read(_)
        | Stmt::Stop
        | Stmt::Comment(_) => Ok(false),
    }
}

/// Whether a name occurs twice among these.
pub fn stands_twice(alloc: Global, names: &[Name]) -> Result<bool, NoMemory>
    ensures { IfOk result (λ twice. twice ≡ has_twice names.now) }
{
    let mut seen = NameSet::new(alloc);
    for name in names {
        if seen.contains(name) {
            return Ok(true);
        }
        seen.insert(name)?;
    }
    Ok(false)
}
