//! CALLs as they are printed: without blanks, with the fewest parentheses that read as the same arguments.

ghost use Rattle.std.specs.Prelude.{◌≡◌, ◌++◌, map, OnOk};
ghost use Rattle.ped_tree.specs.Views.{expr_tree, pack_exprs};
ghost use Rattle.ped_links.specs.ped_units.specs.Units as Units;

use ped_base::{Bytes, Name, NoMemory};
use ped_print::push_enclosed;
use ped_tree::Expr;

/// Adds a subroutine's name and the arguments, in parentheses where there are some.
pub fn push_called(out: &mut Bytes, name: &Name, arguments: &[Expr]) -> Result<(), NoMemory>
    ensures { OnOk result (out.new ≡ out.old ++ name.now ++ Units.arguments_text (pack_exprs (map expr_tree arguments.now))) }
{
    out.extend_from_slice(name.as_bytes())?;
    if arguments.is_empty() {
        return Ok(());
    }
    push_enclosed(out, arguments)
}
