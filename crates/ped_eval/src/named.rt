//! Values of named constants (ANSI X3.9-1978, section 8.6). A name that is read is compared with few constants one by one,
//! which takes less time than its hash.

ghost use Rattle.std.specs.Prelude.{◌≡◌, Some, None, if◌then◌else◌};
ghost use Rattle.ped_base.specs.Lists.{is_same_text};
ghost use Rattle.ped_tree.specs.Constants.NamedConstants.{value_named};

use ped_base::Name;
use ped_store::is_same_name;
use ped_tree::constants::Consts;

/// The value of a named constant, none where the name is none. Without constants no name is looked up.
pub(crate) fn constant_named(name: &Name, consts: &Consts) -> Option<i128>
    ensures { result ≡ value_named consts.now name.now }
{
    if consts.is_empty() {
        return None;
    }
    if consts.len() < 8 {
        return constant_in_line(name, consts);
    }
    hashed_constant(name, consts)
}

/// The value of a named constant, found by the hash of its name.
#[inline(never)]
fn hashed_constant(name: &Name, consts: &Consts) -> Option<i128>
    ensures { result ≡ value_named consts.now name.now }
{
    Some(i128::from(consts.get(name)?))
}

/// The value of a named constant, found by comparing its name with each of them.
#[inline(never)]
fn constant_in_line(name: &Name, consts: &Consts) -> Option<i128>
    ensures { result ≡ value_named consts.now name.now }
{
    for place in 0..consts.len() {
        let constant = consts.get_index(place)?;
        if let Some(value) = value_under(name, &constant) {
            return Some(value);
        }
    }
    None
}

/// The value of a constant, where it has this name.
#[inline(always)]
fn value_under(name: &Name, constant: &(Name, i64)) -> Option<i128>
    ensures { result ≡ (if is_same_text name.now constant.now.0 then Some constant.now.1 else None) }
{
    if is_same_name(name, &constant.0) {
        Some(i128::from(constant.1))
    } else {
        None
    }
}
