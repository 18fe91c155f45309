//! Whole texts read as expressions and conditions, and files of program units expanded to the text of one program.

use ped_calls::{UnitFinding, UnitRefusal, UnitRule, expand_units};
use ped_expressions::{Reading, read_condition, read_expression, read_reference};
use ped_tree::{Cond, Expr};
use std::test::Fail;

/// A main program that calls a subroutine with a variable and a sum.
const UNITS: &[u8] = b"      CALL NEXT(I,J+1)
      END
      SUBROUTINE NEXT(K,L)
      K=L
      RETURN
      END
";

/// Its CALL as a block, in which the sum has a new name.
const EXPANDED: &[u8] = b"      IF (0.EQ.0) THEN
C$CALL NEXT(I,J+1)
        KX1 = J+1
        I = KX1
      END IF
      END
";

#[test]
fn whole_texts_are_read(rt: HostRuntime) -> Result<(), Fail> {
    let alloc = rt.alloc();
    let sum = read_expression(alloc, b"A+B*2")?;
    assert!(rt; matches!(sum, Reading::Tree(Expr::Add(_, _))));
    let element = read_reference(alloc, b"A(I,1)")?;
    assert!(rt; matches!(element, Reading::Tree(Expr::Element(_, _))));
    let negation = read_condition(alloc, b".NOT.A.LT.B")?;
    assert!(rt; matches!(negation, Reading::Tree(Cond::Not(_))));
    Ok(())
}

#[test]
fn a_call_is_expanded(rt: HostRuntime) -> Result<(), Fail> {
    let expanded = expand_units(rt.alloc(), UNITS)?;
    assert!(rt; expanded.as_slice() == EXPANDED);
    Ok(())
}

#[test]
fn a_call_of_no_unit_is_refused(rt: HostRuntime) -> Result<(), Fail> {
    let refused = expand_units(rt.alloc(), b"      CALL NEXT\n      END\n").err();
    let finding = UnitFinding {
        rule: UnitRule::NoUnit,
        line: 1,
    };
    assert!(rt; refused == Some(UnitRefusal::At(finding)));
    Ok(())
}
