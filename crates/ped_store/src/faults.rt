//! What ends a run before its END or STOP.

ghost use Rattle.std.specs.Prelude.{◌≡◌};

use ped_base::arithmetic::Fault;
use std::marker::Model;

/// The kinds of faults.
#[derive(Clone, Copy, PartialEq, Eq)]
pub enum FaultKind {
    /// A read of a scalar or an element that is undefined (ANSI X3.9-1978, section 17).
    UndefinedRead,
    /// A subscript outside its bounds (ANSI X3.9-1978, section 5.4.2).
    OutsideBounds,
    /// A division by zero.
    DivisionByZero,
    /// A value that leaves its range.
    OutOfRange,
    /// Data that are missing or unreadable.
    BadData,
}

/// A fault, which ends a run. Contracts see its number.
#[derive(Clone, Copy, PartialEq, Eq)]
pub struct RunFault {
    /// What it is.
    pub kind: FaultKind,
}

impl Model for RunFault {
    ghost use Rattle.std.specs.Prelude.{ℕ};

    ghost Value = { ℕ };

    ghost use Rattle.ped_store.specs.Faults.{kind_number, kind_of, fault_back};

    ghost view = { λ f. kind_number f.kind };

    ghost inverse = { λ n. record { kind = kind_of n } };

    ghost inverse_ok = { fault_back };
}

impl RunFault {
    /// A read of what is undefined.
    pub const UNDEFINED_READ: RunFault = RunFault {
        kind: FaultKind::UndefinedRead,
    };

    /// A subscript outside its bounds.
    pub const OUTSIDE_BOUNDS: RunFault = RunFault {
        kind: FaultKind::OutsideBounds,
    };

    /// A division by zero.
    pub const DIVISION_BY_ZERO: RunFault = RunFault {
        kind: FaultKind::DivisionByZero,
    };

    /// A value that leaves its range.
    pub const OUT_OF_RANGE: RunFault = RunFault {
        kind: FaultKind::OutOfRange,
    };

    /// Data that are missing or unreadable.
    pub const BAD_DATA: RunFault = RunFault {
        kind: FaultKind::BadData,
    };

    /// Its number: 1 undefined read, 2 outside bounds, 3 division by zero, 4 out of range, 5 bad data.
    pub fn number(self) -> u8
        ensures { result ≡ self }
    {
        match self.kind {
            FaultKind::UndefinedRead => 1,
            FaultKind::OutsideBounds => 2,
            FaultKind::DivisionByZero => 3,
            FaultKind::OutOfRange => 4,
            FaultKind::BadData => 5,
        }
    }
}

impl From<Fault> for RunFault {
    ghost use Rattle.std.specs.Prelude.{◌≡◌};
    ghost use Rattle.ped_base.specs.Arithmetic.Faults.{fault_number};

    ghost from_gives = { λ fault f. f ≡ fault_number fault };

    fn from(fault: Fault) -> RunFault {
        match fault {
            Fault::DivisionByZero => RunFault::DIVISION_BY_ZERO,
            Fault::OutOfRange => RunFault::OUT_OF_RANGE,
        }
    }
}
