//! The arrays in which each iteration keeps what it adds.

ghost use Rattle.std.specs.Prelude.{◌≡◌, ◌≤◌, ◌<◌, ◌+◌, ◌^◌, ◌∷◌, ◌++◌, [], ℕ, List, None, Some, codes, map, option_map, IfOk, OnOk, MatchOption};
ghost use Rattle.std.specs.Fmt.{decimal};
ghost use Rattle.ped_tree.specs.Views.{program_tree, decl_tree};
ghost use Rattle.ped_rules.specs.ped_symbols.specs.Kinds.{table_of};
ghost use Rattle.ped_rules.specs.CodeSpans.{span_in, IsNear};
ghost use Rattle.ped_rules.specs.ScalarArrays as ScalarArrays;
ghost use Rattle.ped_reduce.specs.Lowering as Spec;
ghost use Rattle.ped_reduce.specs.CodeLowering.{partials_view, fresh_from};

use itoa::Buffer;
use ped_base::{Bytes, Name, NoMemory, both};
use ped_rules::{Span, Symbols, literal, occurs};
use ped_tree::{Bound, Decl, Declarator, Program};
use std::alloc::Global;

/// The arrays in which each iteration keeps what it adds to a scalar, as high * 65536 + low.
#[derive(Clone, Copy)]
pub(crate) struct Partials {
    /// The scalar.
    pub(crate) scalar: Name,
    /// The array of the high parts.
    pub(crate) high: Name,
    /// The array of the low parts, which stay less than 65536 in size.
    pub(crate) low: Name,
    /// The array with 1 for each iteration that has added something.
    pub(crate) flag: Name,
}

/// The greatest number after two letters in a name of 31 characters.
const MOST_NUMBERED: u128 = 99_999_999_999_999_999_999_999_999_999;

/// Three arrays with fresh names for each of these scalars: none where there are too few names.
pub(crate) fn partials_of(
    alloc: Global,
    program: &Program,
    symbols: &Symbols,
    names: &[Name],
) -> Result<Option<Vec<Partials>>, NoMemory>
    requires { symbols.now ≡ table_of (program_tree program.now) }
    ensures { IfOk result (λ found. MatchOption found
        (Spec.partials_of names.now (Spec.fresh_arrays (program_tree program.now)) ≡ None)
        (λ all. Spec.partials_of names.now (Spec.fresh_arrays (program_tree program.now)) ≡ Some (map partials_view all.items))) }
{
    let mut all = Vec::new(alloc);
    let mut next = 1;
    for name in names {
        match three_arrays(alloc, program, symbols, name, &mut next)? {
            Some(found) => all.push(found)?,
            None => return Ok(None),
        }
    }
    Ok(Some(all))
}

/// Three arrays for a scalar, whose names have numbers from `next` on, which goes after them.
fn three_arrays(
    alloc: Global,
    program: &Program,
    symbols: &Symbols,
    name: &Name,
    next: &mut u128,
) -> Result<Option<Partials>, NoMemory>
    requires { symbols.now ≡ table_of (program_tree program.now) }
    ensures { IfOk result (λ found. (xs : List (List ℕ)) → MatchOption found
        (Spec.partials_of (name.now ∷ xs) (fresh_from (program_tree program.now) next.old) ≡ None)
        (λ p. Spec.partials_of (name.now ∷ xs) (fresh_from (program_tree program.now) next.old) ≡ option_map (λ ps. partials_view p ∷ ps) (Spec.partials_of xs (fresh_from (program_tree program.now) next.new)))) }
{
    let Some(high) = fresh_array(alloc, program, symbols, next)? else {
        return Ok(None);
    };
    let Some(low) = fresh_array(alloc, program, symbols, next)? else {
        return Ok(None);
    };
    let Some(flag) = fresh_array(alloc, program, symbols, next)? else {
        return Ok(None);
    };
    Ok(Some(Partials {
        scalar: *name,
        high,
        low,
        flag,
    }))
}

/// The first of the names KX with a number from `next` on that doesn't occur in the program; `next` goes after it.
fn fresh_array(
    alloc: Global,
    program: &Program,
    symbols: &Symbols,
    next: &mut u128,
) -> Result<Option<Name>, NoMemory>
    requires { symbols.now ≡ table_of (program_tree program.now) }
    ensures { IfOk result (λ found. MatchOption found
        (fresh_from (program_tree program.now) next.old ≡ [])
        (λ x. fresh_from (program_tree program.now) next.old ≡ x ∷ fresh_from (program_tree program.now) next.new)) }
{
    while *next <= MOST_NUMBERED {
        let name = numbered(alloc, *next)?;
        *next += 1;
        if !occurs(program, symbols, &name) {
            return Ok(Some(name));
        }
    }
    Ok(None)
}

/// KX with a number of at most 29 digits after it.
fn numbered(alloc: Global, n: u128) -> Result<Name, NoMemory>
    requires { n < 10 ^ 29 }
    ensures { IfOk result (λ name. name ≡ codes "KX" ++ decimal n) }
{
    let mut text = Bytes::new(alloc);
    let mut buffer = Buffer::new();
    text.extend_from_slice(b"KX")?;
    text.extend_from_slice(buffer.format(n).as_bytes())?;
    match Name::from_bytes(text.as_slice()) {
        Some(name) => Ok(name),
        None => unreachable!(),
    }
}

/// Adds the declarations of the arrays, each over the values of the DO's variable.
pub(crate) fn declare(
    alloc: Global,
    decls: &mut Vec<Decl>,
    span: Span,
    partials: &[Partials],
) -> Result<(), NoMemory>
    requires { IsNear span }
    ensures { OnOk result (map decl_tree decls.new.items ≡ map decl_tree decls.old.items ++ Spec.declarations (span_in span) (map partials_view partials.now)) }
{
    for p in partials {
        decls.push(declaration(alloc, p.high, span)?)?;
        decls.push(declaration(alloc, p.low, span)?)?;
        decls.push(declaration(alloc, p.flag, span)?)?;
    }
    Ok(())
}

/// The declaration of an array over the values of the DO's variable.
fn declaration(alloc: Global, array: Name, span: Span) -> Result<Decl, NoMemory>
    requires { IsNear span }
    ensures { IfOk result (λ decl. decl_tree decl ≡ ScalarArrays.declaration array (span_in span)) }
{
    let lower = literal(alloc, span.first.min(span.last))?;
    let (lower, upper) = both(lower, literal(alloc, span.first.max(span.last)))?;
    let mut bounds = Vec::new(alloc);
    bounds.push(Bound { lower, upper })?;
    let mut declarators = Vec::new(alloc);
    declarators.push(Declarator {
        name: array,
        bounds,
    })?;
    Ok(Decl::Integer(declarators))
}
