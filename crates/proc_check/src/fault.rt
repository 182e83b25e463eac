//! The faults of applications.

use rel_base::NoMemory;

/// What is wrong at a place of an application.
#[derive(Clone, Copy, Debug, PartialEq, Eq)]
pub enum BadKind {
    /// Nothing of that name is declared or in scope.
    UnknownName,
    /// The name is declared or in scope already.
    NameTwice,
    /// A value of another kind is needed there.
    WrongKind,
    /// Too few or too many values.
    WrongCount,
    /// An update that sets a key column.
    KeySet,
    /// A span on a column that is neither the first of the key nor indexed.
    NoIndex,
    /// One more than there may be.
    Limit,
}

/// A fault: the line on which it stands, from 1, and what is wrong.
#[derive(Clone, Copy, Debug, PartialEq, Eq)]
pub struct Bad {
    pub line: u32,
    pub kind: BadKind,
}

/// Why an application was not checked to its end.
#[derive(Clone, Copy, Debug, PartialEq, Eq)]
pub enum CheckFault {
    /// Memory ran out.
    NoMemory,
    /// The first fault of the application.
    Bad {
        /// The line on which it stands, from 1.
        line: u32,
        /// What is wrong.
        kind: BadKind,
    },
}

impl From<NoMemory> for CheckFault {
    ghost use Rattle.std.specs.Prelude.{◌≡◌};
    ghost use Rattle.proc_check.specs.declared.fault.CheckFault.TheVariants as fault;

    ghost from_gives = { λ _ e. e ≡ fault.NoMemory };

    fn from(_error: NoMemory) -> CheckFault {
        CheckFault::NoMemory
    }
}

impl From<Bad> for CheckFault {
    ghost use Rattle.std.specs.Prelude.{◌≡◌};
    ghost use Rattle.proc_check.specs.declared.fault.CheckFault.TheVariants as fault;

    ghost from_gives = { λ bad e. e ≡ fault.Bad bad.line bad.kind };

    fn from(bad: Bad) -> CheckFault {
        CheckFault::Bad {
            line: bad.line,
            kind: bad.kind,
        }
    }
}
