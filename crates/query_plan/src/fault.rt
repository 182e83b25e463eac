//! Why a query has no answer.

ghost use Rattle.std.specs.Prelude.{◌≡◌};

use rel_base::NoMemory;

/// Why the tuples of a query are not gathered.
#[derive(Clone, Copy, PartialEq, Eq)]
pub enum WalkFault {
    NoMemory,
    TooMany,
}

impl From<NoMemory> for WalkFault {
    ghost use Rattle.query_plan.specs.declared.fault.WalkFault.TheVariants as fault;

    ghost from_gives = { λ _ e. e ≡ fault.NoMemory };

    fn from(_error: NoMemory) -> WalkFault {
        WalkFault::NoMemory
    }
}

/// Why a query has no answer. A text is refused at the place of a token: line and column count from 1, columns in bytes.
#[derive(Clone, Copy, Debug, PartialEq, Eq)]
pub enum AskFault {
    /// Memory ran out.
    NoMemory,
    /// The text is not in the grammar: the place of the first token that nothing allows there, or of the end. A text that is too
    /// long is refused at line 0 and column 0.
    Syntax { line: u32, col: u32 },
    /// No table, source or column has the name.
    UnknownName { line: u32, col: u32 },
    /// An earlier source has the name.
    NameTwice { line: u32, col: u32 },
    /// A value of another kind is needed, or a group column, or the number of an item.
    WrongKind { line: u32, col: u32 },
    /// The height is above the last sealed one.
    TooHigh { sealed: u64 },
    /// There are more than 1,000,000 tuples.
    TooMany,
    /// The sum of a group is no int.
    Overflow,
}

impl From<NoMemory> for AskFault {
    ghost use Rattle.query_plan.specs.declared.fault.AskFault.TheVariants as fault;

    ghost from_gives = { λ _ e. e ≡ fault.NoMemory };

    fn from(_error: NoMemory) -> AskFault {
        AskFault::NoMemory
    }
}
