//! New names, each given once, and the arrays that are declared with them.

ghost use Rattle.std.specs.Prelude.{◌≡◌, [], IfOk, OnOk, map};
ghost use Rattle.ped_links.specs.ped_units.specs.ped_symbolic.specs.Arithmetic;
ghost use Rattle.ped_tree.specs.Views.{expr_tree, bound_tree, decl_tree};
ghost use Rattle.ped_links.specs.ped_units.specs.Expanding as Spec;
ghost use Rattle.ped_links.specs.ped_units.specs.Expanding.{numbered_name, free_name, with_new, with_local};
ghost use Rattle.ped_calls.specs.Giving.{given_of, HasNext, IsSmall, HasSmallBounds, HasSmallKind, decls_of};

use itoa::Buffer;
use ped_base::{Bounds, Bytes, Name, NoMemory};
use ped_links::Kind;
use ped_tree::names::NameSet;
use ped_tree::{Bound, Decl, Declarator, Expr};
use std::alloc::Global;

/// The names that are taken, and the arrays that were given names.
#[derive(Drop)]
pub struct Given {
    taken: NameSet,
    /// All names with lesser numbers are taken.
    next: u64,
    /// The declarations of the arrays.
    pub arrays: Vec<Decl>,
}

impl Given {
    /// Where these names are taken.
    pub fn new(alloc: Global, taken: NameSet) -> Given
        ensures given { given_of result ≡ record { taken = taken; arrays = [] } }
        ensures next { HasNext result }
    {
        Given {
            taken,
            next: 1,
            arrays: Vec::new(alloc),
        }
    }

    /// The next new name, which is taken from now on.
    pub fn new_name(&mut self, alloc: Global) -> Result<Name, NoMemory>
        requires { HasNext self.old }
        ensures name { IfOk result (λ name. name ≡ free_name (given_of self.old).taken) }
        ensures given { OnOk result (given_of self.new ≡ with_new (given_of self.old)) }
        ensures next { OnOk result (HasNext self.new) }
    {
        let mut name = numbered(alloc, self.next)?;
        let mut left = (self.taken.as_slice().len() as u64).saturating_sub(self.next - 1);
        while left > 0 && self.taken.contains(&name) {
            self.next += 1;
            left -= 1;
            name = numbered(alloc, self.next)?;
        }
        self.taken.insert(&name)?;
        Ok(name)
    }

    /// The next new name for something of this kind; an array is declared.
    pub fn new_local(&mut self, alloc: Global, kind: Option<Kind>) -> Result<Name, NoMemory>
        requires next { HasNext self.old }
        requires small { HasSmallKind kind }
        ensures name { IfOk result (λ name. name ≡ free_name (given_of self.old).taken) }
        ensures given { OnOk result (given_of self.new ≡ with_local (given_of self.old) kind) }
        ensures next { OnOk result (HasNext self.new) }
    {
        let name = self.new_name(alloc)?;
        if let Some(decl) = declaration(alloc, &name, &kind)? {
            self.arrays.push(decl)?;
        }
        Ok(name)
    }
}

/// KX with a number after it.
fn numbered(alloc: Global, n: u64) -> Result<Name, NoMemory>
    ensures { IfOk result (λ name. name ≡ numbered_name n) }
{
    let mut text = Bytes::new(alloc);
    let mut buffer = Buffer::new();
    text.extend_from_slice(b"KX")?;
    text.extend_from_slice(buffer.format(n).as_bytes())?;
    match Name::from_bytes(text.as_slice()) {
        Some(name) => Ok(name),
        None => unreachable!(),
    }
}

/// The declaration of a name that is given to something of this kind: none but of an array.
fn declaration(alloc: Global, name: &Name, kind: &Option<Kind>) -> Result<Option<Decl>, NoMemory>
    requires { HasSmallKind kind.now }
    ensures { IfOk result (λ d. decls_of d ≡ Spec.declared_as name.now kind.now) }
{
    match kind {
        Some(Kind::Array(bounds)) => Ok(Some(array_declaration(alloc, name, bounds)?)),
        Some(Kind::Scalar) | Some(Kind::Constant(_)) | None => Ok(None),
    }
}

/// The declaration of an array with these bounds.
fn array_declaration(alloc: Global, name: &Name, bounds: &Bounds) -> Result<Decl, NoMemory>
    requires { HasSmallBounds bounds.now }
    ensures { IfOk result (λ d. decl_tree d ≡ Spec.array_declaration name.now bounds.now) }
{
    let bounds = literal_bounds(alloc, bounds)?;
    let mut declared = Vec::new(alloc);
    declared.push(Declarator {
        name: *name,
        bounds,
    })?;
    Ok(Decl::Integer(declared))
}

/// The bounds of dimensions as literals.
fn literal_bounds(alloc: Global, bounds: &Bounds) -> Result<Vec<Bound>, NoMemory>
    requires { HasSmallBounds bounds.now }
    ensures { IfOk result (λ all. map bound_tree all.items ≡ Spec.literal_bounds bounds.now.lower bounds.now.upper) }
{
    let mut all = Vec::new(alloc);
    let mut place = 0;
    while place < bounds.rank as usize && place < 7 {
        all.push(literal_bound(alloc, bounds.lower[place], bounds.upper[place])?)?;
        place += 1;
    }
    Ok(all)
}

/// The bounds of a dimension as literals.
fn literal_bound(alloc: Global, lower: i64, upper: i64) -> Result<Bound, NoMemory>
    requires lower { IsSmall lower }
    requires upper { IsSmall upper }
    ensures { IfOk result (λ b. bound_tree b ≡ record { lower = Arithmetic.literal lower; upper = Arithmetic.literal upper }) }
{
    let lower = literal(alloc, lower)?;
    match literal(alloc, upper) {
        Ok(upper) => Ok(Bound { lower, upper }),
        Err(error) => {
            drop(lower);
            Err(error)
        }
    }
}

/// The literal of a number, with a sign where the number is negative (ANSI X3.9-1978, section 4.3).
pub fn literal(alloc: Global, n: i64) -> Result<Expr, NoMemory>
    requires { IsSmall n }
    ensures { IfOk result (λ e. expr_tree e ≡ Arithmetic.literal n) }
{
    let size = Expr::literal(n.unsigned_abs() as u32);
    if n < 0 {
        Expr::negation(alloc, size)
    } else {
        Ok(size)
    }
}
