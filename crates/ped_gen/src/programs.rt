//! The programs: nests of two loops over one array.

ghost use Rattle.std.specs.Prelude.{◌≡◌, ◌≤◌, ◌++◌, codes, IfOk, OnOk};
ghost use Rattle.std.specs.Fmt.{decimal};
ghost use Rattle.ped_gen.specs.Generated as Spec;

use ped_base::{Bytes, NoMemory, push_number};
use std::alloc::Global;

/// The program with this many nests after the first, in printed form.
pub fn program(alloc: Global, nests: u32) -> Result<Bytes, NoMemory>
    requires { (1 ≤ nests) × (nests ≤ 300) }
    ensures { IfOk result (λ text. text ≡ Spec.program nests) }
{
    let mut text = Bytes::new(alloc);
    push_front(&mut text)?;
    for nest in 1..nests + 1 {
        push_nest(&mut text, nest)?;
    }
    text.extend_from_slice(b"      END\n")?;
    Ok(text)
}

/// Adds the declarations and the first nest.
fn push_front(text: &mut Bytes) -> Result<(), NoMemory>
    ensures { OnOk result (text.new ≡ text.old ++ Spec.text_of Spec.front) }
{
    text.extend_from_slice(
        b"      INTEGER A(10,10), B(10,10)
      SAVE A, B
      DO I = 1, 10
        DO J = 1, 10
          A(I,J) = I+J
        END DO
      END DO
",
    )
}

/// Adds the nest of this number.
fn push_nest(text: &mut Bytes, nest: u32) -> Result<(), NoMemory>
    ensures { OnOk result (text.new ≡ text.old ++ Spec.text_of (Spec.later_nest nest)) }
{
    text.extend_from_slice(b"      DO I = 2, 9\n        DO J = 2, 9\n          ")?;
    push_assignment(text, nest)?;
    text.extend_from_slice(b"\n        END DO\n      END DO\n")
}

/// Adds the assignment in the nest of this number.
fn push_assignment(text: &mut Bytes, nest: u32) -> Result<(), NoMemory>
    ensures { OnOk result (text.new ≡ text.old ++ Spec.assignment nest) }
{
    match nest % 3 {
        1 => return text.extend_from_slice(b"A(I,J) = MOD(A(I-1,J)+A(I,J-1),1000)"),
        2 => return push_diagonal(text, nest),
        _ => return push_copy(text, nest),
    }
}

/// Adds the assignment along the falling diagonal.
fn push_diagonal(text: &mut Bytes, nest: u32) -> Result<(), NoMemory>
    ensures { OnOk result (text.new ≡ text.old ++ codes "A(I,J) = MOD(A(I-1,J+1)+" ++ decimal nest ++ codes ",1000)") }
{
    text.extend_from_slice(b"A(I,J) = MOD(A(I-1,J+1)+")?;
    push_number(text, u64::from(nest))?;
    text.extend_from_slice(b",1000)")
}

/// Adds the assignment of an element at the same place.
fn push_copy(text: &mut Bytes, nest: u32) -> Result<(), NoMemory>
    ensures { OnOk result (text.new ≡ text.old ++ codes "B(I,J) = A(I,J)+" ++ decimal nest) }
{
    text.extend_from_slice(b"B(I,J) = A(I,J)+")?;
    push_number(text, u64::from(nest))
}
