//! Lists in parentheses, separated by commas.

ghost use Rattle.std.specs.Prelude.{◌≡◌, ◌++◌, ℕ, List, codes, OnOk};
ghost use Rattle.std.specs.List.{flat_map, join_by};

use ped_base::{Bytes, NoMemory};

/// What is between two commas.
pub(crate) trait Shown {
    ghost text: { Self → List ℕ };

    /// Adds the text.
    fn push_to(&self, out: &mut Bytes) -> Result<(), NoMemory>
        ensures { OnOk result (out.new ≡ out.old ++ text self.now) };
}

/// Adds a list in parentheses.
pub(crate) fn push_list<T: Shown>(out: &mut Bytes, items: &[T]) -> Result<(), NoMemory>
    ensures { OnOk result (out.new ≡ out.old ++ (codes "(" ++ join_by T.text (codes ",") items.now ++ codes ")")) }
{
    out.push(b'(')?;
    push_joined(out, items)?;
    out.push(b')')
}

/// Adds the items, with a comma between two.
fn push_joined<T: Shown>(out: &mut Bytes, items: &[T]) -> Result<(), NoMemory>
    ensures { OnOk result (out.new ≡ out.old ++ join_by T.text (codes ",") items.now) }
{
    match items.split_first() {
        Some((first, further)) => {
            first.push_to(out)?;
            push_further(out, further)
        }
        None => Ok(()),
    }
}

/// Adds the items, each after a comma.
fn push_further<T: Shown>(out: &mut Bytes, items: &[T]) -> Result<(), NoMemory>
    ensures { OnOk result (out.new ≡ out.old ++ flat_map (λ item. codes "," ++ T.text item) items.now) }
{
    for item in items {
        out.push(b',')?;
        item.push_to(out)?;
    }
    Ok(())
}
