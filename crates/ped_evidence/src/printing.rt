//! What `system` prints of a pair: the names of the unknowns, and the rows.

ghost use Rattle.std.specs.Prelude.{◌≡◌, ◌<◌, ◌^◌, ◌++◌, ℤ, List, length, map, codes, IfOk, OnOk};
ghost use Rattle.std.specs.List.{flat_map, range_with_len};
ghost use Rattle.std.specs.Fmt.{decimal};
ghost use Rattle.ped_tree.specs.Nests.{indices_of};
ghost use Rattle.ped_refs.specs.Loops.{nest_of};
ghost use Rattle.ped_evidence.specs.SystemTexts as Spec;

use ped_base::{Bytes, Listed, Name, NoMemory, push_number, push_signed};
use ped_certificates::{Position, Row, Sign, System, push_pattern, push_place};
use ped_refs::Loop;
use std::alloc::Global;

/// The names of the unknowns of a pair, in their order: the variables of the loops round the source, those of the loops
/// round the sink with an apostrophe, the quotients by their numbers, and the symbols.
pub fn unknown_names(
    alloc: Global,
    source: &[Loop],
    sink: &[Loop],
    quotients: usize,
    symbols: &[Name],
) -> Result<Listed<Bytes>, NoMemory>
    ensures { IfOk result (λ names. names ≡ Spec.unknown_names (nest_of source.now) (nest_of sink.now) quotients symbols.now) }
{
    let mut names = Listed::new(alloc);
    add_source(alloc, &mut names, source)?;
    add_sink(alloc, &mut names, sink)?;
    add_quotients(alloc, &mut names, quotients)?;
    add_symbols(alloc, &mut names, symbols)?;
    Ok(names)
}

/// Adds the variables of loops.
fn add_source(alloc: Global, names: &mut Listed<Bytes>, loops: &[Loop]) -> Result<(), NoMemory>
    ensures { OnOk result (names.new ≡ names.old ++ indices_of (nest_of loops.now)) }
{
    for around in loops {
        names.push(copy_of(alloc, around.statement.variable.as_bytes())?)?;
    }
    Ok(())
}

/// Adds the variables of loops, each with an apostrophe.
fn add_sink(alloc: Global, names: &mut Listed<Bytes>, loops: &[Loop]) -> Result<(), NoMemory>
    ensures { OnOk result (names.new ≡ names.old ++ map (λ x. x ++ codes "'") (indices_of (nest_of loops.now))) }
{
    for around in loops {
        names.push(marked(alloc, around.statement.variable.as_bytes())?)?;
    }
    Ok(())
}

/// Adds the names of so many quotients.
fn add_quotients(alloc: Global, names: &mut Listed<Bytes>, quotients: usize) -> Result<(), NoMemory>
    ensures { OnOk result (names.new ≡ names.old ++ map (λ k. codes "#" ++ decimal k) (range_with_len 1 quotients)) }
{
    for before in 0..quotients {
        names.push(quotient(alloc, before as u64 + 1)?)?;
    }
    Ok(())
}

/// Adds the names of symbols.
fn add_symbols(alloc: Global, names: &mut Listed<Bytes>, symbols: &[Name]) -> Result<(), NoMemory>
    ensures { OnOk result (names.new ≡ names.old ++ symbols.now) }
{
    for symbol in symbols {
        names.push(copy_of(alloc, symbol.as_bytes())?)?;
    }
    Ok(())
}

fn copy_of(alloc: Global, name: &[u8]) -> Result<Bytes, NoMemory>
    ensures { IfOk result (λ text. text ≡ name.now) }
{
    let mut text = Bytes::new(alloc);
    text.extend_from_slice(name)?;
    Ok(text)
}

/// A name with an apostrophe.
fn marked(alloc: Global, name: &[u8]) -> Result<Bytes, NoMemory>
    ensures { IfOk result (λ text. text ≡ name.now ++ codes "'") }
{
    let mut text = copy_of(alloc, name)?;
    text.push(b'\'')?;
    Ok(text)
}

/// The name of the quotient with this number.
fn quotient(alloc: Global, number: u64) -> Result<Bytes, NoMemory>
    ensures { IfOk result (λ text. text ≡ codes "#" ++ decimal number) }
{
    let mut text = copy_of(alloc, b"#")?;
    push_number(&mut text, number)?;
    Ok(text)
}

/// The lines for a pair and a pattern, where the unknowns have these names, and this is the system.
pub fn pair_text(
    alloc: Global,
    source: &Position,
    sink: &Position,
    pattern: &[Sign],
    names: &[Bytes],
    system: &System,
) -> Result<Bytes, NoMemory>
    ensures { IfOk result (λ text. text ≡ Spec.pair_text source.now sink.now pattern.now names.now system.now) }
{
    let mut text = Bytes::new(alloc);
    push_head(&mut text, source, sink, pattern)?;
    push_unknowns(&mut text, names)?;
    push_count(&mut text, system.rows.as_slice())?;
    push_rows(&mut text, names, system.rows.as_slice())?;
    Ok(text)
}

/// Adds the line with the pair and the pattern.
fn push_head(
    text: &mut Bytes,
    source: &Position,
    sink: &Position,
    pattern: &[Sign],
) -> Result<(), NoMemory>
    ensures { OnOk result (text.new ≡ text.old ++ Spec.head_text source.now sink.now pattern.now) }
{
    text.extend_from_slice(b"system ")?;
    push_place(text, source)?;
    text.push(b' ')?;
    push_place(text, sink)?;
    text.push(b' ')?;
    push_pattern(text, pattern)?;
    text.push(b'\n')
}

/// Adds the line with the names of the unknowns.
fn push_unknowns(text: &mut Bytes, names: &[Bytes]) -> Result<(), NoMemory>
    ensures { OnOk result (text.new ≡ text.old ++ Spec.unknowns_text names.now) }
{
    text.extend_from_slice(b"unknowns")?;
    push_names(text, names)?;
    text.push(b'\n')
}

/// Adds names, each behind a blank.
fn push_names(text: &mut Bytes, names: &[Bytes]) -> Result<(), NoMemory>
    ensures { OnOk result (text.new ≡ text.old ++ flat_map (λ name. codes " " ++ name) names.now) }
{
    for name in names {
        text.push(b' ')?;
        text.extend_from_slice(name.as_slice())?;
    }
    Ok(())
}

/// Adds the line with the number of rows.
fn push_count(text: &mut Bytes, rows: &[Row]) -> Result<(), NoMemory>
    ensures { OnOk result (text.new ≡ text.old ++ Spec.count_text rows.now) }
{
    text.extend_from_slice(b"rows ")?;
    push_number(text, rows.len() as u64)?;
    text.push(b'\n')
}

/// Adds rows, numbered from 1.
fn push_rows(text: &mut Bytes, names: &[Bytes], rows: &[Row]) -> Result<(), NoMemory>
    ensures { OnOk result (text.new ≡ text.old ++ Spec.rows_text names.now 1 rows.now) }
{
    let mut before = 0;
    for row in rows {
        push_row(text, names, before + 1, row)?;
        before += 1;
    }
    Ok(())
}

/// Adds a row with its number, and the end of its line.
fn push_row(text: &mut Bytes, names: &[Bytes], number: u64, row: &Row) -> Result<(), NoMemory>
    ensures { OnOk result (text.new ≡ text.old ++ Spec.row_text names.now number row.now) }
{
    push_number(text, number)?;
    text.push(b' ')?;
    push_sum(text, true, row.coefficients.as_slice(), names, row.constant)?;
    push_relation(text, row.equation)?;
    text.push(b'\n')
}

/// Adds what a row says of its sum.
fn push_relation(text: &mut Bytes, equation: bool) -> Result<(), NoMemory>
    ensures { OnOk result (text.new ≡ text.old ++ Spec.relation_text equation) }
{
    if equation {
        return text.extend_from_slice(b" = 0");
    }
    text.extend_from_slice(b" >= 0")
}

/// Adds a sum: the terms whose coefficient isn't 0, and the constant.
fn push_sum(
    text: &mut Bytes,
    first: bool,
    coefficients: &[i128],
    names: &[Bytes],
    constant: i128,
) -> Result<(), NoMemory>
    ensures { OnOk result (text.new ≡ text.old ++ Spec.sum_text first coefficients.now names.now constant) }
{
    let Some((coefficient, coefficients)) = coefficients.split_first() else {
        return push_constant(text, first, constant);
    };
    let Some((name, names)) = names.split_first() else {
        return push_constant(text, first, constant);
    };
    if *coefficient == 0 {
        return push_sum(text, first, coefficients, names, constant);
    }
    push_term(text, first, *coefficient, name.as_slice())?;
    push_sum(text, false, coefficients, names, constant)
}

/// Adds a multiple of an unknown.
fn push_term(text: &mut Bytes, first: bool, coefficient: i128, name: &[u8]) -> Result<(), NoMemory>
    ensures { OnOk result (text.new ≡ text.old ++ Spec.term_text first coefficient name.now) }
{
    push_plus(text, first, coefficient)?;
    push_coefficient(text, coefficient)?;
    text.extend_from_slice(name)
}

/// Adds a plus before a number that isn't the first of its sum, and not negative.
fn push_plus(text: &mut Bytes, first: bool, number: i128) -> Result<(), NoMemory>
    ensures { OnOk result (text.new ≡ text.old ++ Spec.plus_text first number) }
{
    if first || number < 0 {
        return Ok(());
    }
    text.push(b'+')
}

/// Adds what stands before an unknown.
fn push_coefficient(text: &mut Bytes, coefficient: i128) -> Result<(), NoMemory>
    ensures { OnOk result (text.new ≡ text.old ++ Spec.coefficient_text coefficient) }
{
    if coefficient == 1 {
        return Ok(());
    }
    if coefficient == -1 {
        return text.push(b'-');
    }
    push_signed(text, coefficient)?;
    text.push(b'*')
}

/// Adds the constant behind the terms.
fn push_constant(text: &mut Bytes, first: bool, constant: i128) -> Result<(), NoMemory>
    ensures { OnOk result (text.new ≡ text.old ++ Spec.constant_text first constant) }
{
    if !first && constant == 0 {
        return Ok(());
    }
    push_plus(text, first, constant)?;
    push_signed(text, constant)
}
