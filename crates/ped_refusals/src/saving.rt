//! SAVE without a list, which is read as a list (ANSI X3.9-1978, section 8.9).

ghost use Rattle.std.specs.Prelude.{◌≡◌, IfOk, [], map, filter, not};
ghost use Rattle.std.specs.List.{flat_map};
ghost use Rattle.ped_tree.specs.Grammar.Occurrences as Spec;
ghost use Rattle.ped_tree.specs.Grammar.Occurrences.{entry_names};
ghost use Rattle.ped_base.specs.Lists.{is_among};
ghost use Rattle.ped_tree.specs.Grammar.ItemViews.{entry_of, reading_of};
ghost use Rattle.ped_tree.specs.Names.Collecting.{with_names};

use crate::occurrences::{add_constants, add_do_variable, add_entry};
use ped_base::{Listed, Name, Names, NoMemory};
use ped_tree::grammar::{Entry, Item, StatementReading};
use ped_tree::names::NameSet;
use std::alloc::Global;

/// The names that SAVE without a list stands for: all variables up to END that are the variable of no DO,
/// in the order in which they occur first.
pub fn saved_names(alloc: Global, entries: &[Entry]) -> Result<Names, NoMemory>
    ensures { IfOk result (λ names. names ≡ Spec.saved_names (map entry_of entries.now)) }
{
    let entries = up_to_end(entries);
    let all = all_names(alloc, entries)?;
    let others = constants_and_do_variables(alloc, entries)?;
    without(alloc, all.as_slice(), &others)
}

/// The statements of the program: those up to END.
fn up_to_end(entries: &[Entry]) -> &[Entry]
    ensures { map entry_of result.now ≡ Spec.up_to_end (map entry_of entries.now) }
{
    for (i, entry) in entries.iter().enumerate() {
        if is_end(&entry.reading) {
            return &entries[..i + 1];
        }
    }
    entries
}

fn is_end(reading: &StatementReading) -> bool
    ensures { result ≡ Spec.is_end_entry (reading_of reading.now) }
{
    match reading {
        StatementReading::Says(Item::End) => true,
        _ => false,
    }
}

/// The names that occur in statements, each once, in the order in which they occur first.
fn all_names(alloc: Global, entries: &[Entry]) -> Result<NameSet, NoMemory>
    ensures { IfOk result (λ names. names ≡ with_names [] (flat_map entry_names (map entry_of entries.now))) }
{
    let mut names = NameSet::new(alloc);
    for entry in entries {
        add_entry(&mut names, entry)?;
    }
    Ok(names)
}

/// The named constants and the variables of DO statements.
fn constants_and_do_variables(alloc: Global, entries: &[Entry]) -> Result<NameSet, NoMemory>
    ensures { IfOk result (λ names. names
        ≡ with_names (with_names [] (Spec.all_constants (map entry_of entries.now))) (Spec.all_do_variables (map entry_of entries.now))) }
{
    let mut names = NameSet::new(alloc);
    'constants: for entry in entries {
        add_constants(&mut names, entry)?;
    }
    'variables: for entry in entries {
        add_do_variable(&mut names, entry)?;
    }
    Ok(names)
}

/// The names that aren't among the others.
fn without(alloc: Global, names: &[Name], others: &NameSet) -> Result<Names, NoMemory>
    ensures { IfOk result (λ rest. rest ≡ filter (λ x. not (is_among x others.now)) names.now) }
{
    let mut rest = Listed::new(alloc);
    for name in names {
        if !others.contains(name) {
            rest.push(*name)?;
        }
    }
    Ok(rest)
}
