//! The kinds of outcomes, of faults and of dangers: the word and the byte of each.

ghost use Rattle.std.specs.Prelude.{◌≡◌};
ghost use Rattle.node_model.specs.Kinds.{danger_mark, fault_mark, is_same, kind_byte, kind_of, kind_word, late_kind, mark_of};

use crate::danger::Danger;
use crate::outcome::Outcome;
use proc_syntax::Fault;

/// What became of a transaction, without what it names.
#[derive(Clone, Copy, PartialEq, Eq)]
pub enum OutcomeKind {
    Committed,
    DuplicateId,
    FutureHeight,
    UnknownProcedure,
    BadArguments,
    Stale,
    Phantom,
    Fault,
    WriteConflict,
    Danger,
}

impl OutcomeKind {
    /// Its word in reports, and its byte in the code of a block's result.
    fn mark(self) -> (&'static str, u8)
        ensures word { result.0.now ≡ kind_word self }
        ensures byte { result.1 ≡ kind_byte self }
    {
        match self {
            OutcomeKind::Committed => ("committed", 0),
            OutcomeKind::DuplicateId => ("duplicate-id", 1),
            OutcomeKind::FutureHeight => ("future-height", 2),
            OutcomeKind::UnknownProcedure => ("unknown-procedure", 3),
            OutcomeKind::BadArguments => ("bad-arguments", 4),
            OutcomeKind::Stale => ("stale", 5),
            OutcomeKind::Phantom => ("phantom", 6),
            OutcomeKind::Fault => ("fault", 7),
            OutcomeKind::WriteConflict => ("write-conflict", 8),
            OutcomeKind::Danger => ("danger", 9),
        }
    }

    /// Its word in reports.
    pub fn word(self) -> &'static str
        ensures { result.now ≡ kind_word self }
    {
        self.mark().0
    }

    /// Its byte in the code of a block's result.
    pub fn byte(self) -> u8
        ensures { result ≡ kind_byte self }
    {
        self.mark().1
    }

    /// Whether this is the kind.
    pub fn is(self, other: OutcomeKind) -> bool
        ensures { result ≡ is_same self other }
    {
        self.word() == other.word()
    }
}

/// The kind of a late read.
fn late_kind(stale: bool) -> OutcomeKind
    ensures { result ≡ late_kind stale }
{
    if stale {
        OutcomeKind::Stale
    } else {
        OutcomeKind::Phantom
    }
}

impl Outcome {
    /// Its kind.
    pub fn kind(&self) -> OutcomeKind
        ensures { result ≡ kind_of self.now }
    {
        match self {
            Outcome::Committed => OutcomeKind::Committed,
            Outcome::DuplicateId => OutcomeKind::DuplicateId,
            Outcome::FutureHeight => OutcomeKind::FutureHeight,
            Outcome::UnknownProcedure => OutcomeKind::UnknownProcedure,
            Outcome::BadArguments => OutcomeKind::BadArguments,
            Outcome::Late(late) => late_kind(late.get().stale),
            Outcome::Fault(_) => OutcomeKind::Fault,
            Outcome::WriteConflict(_) => OutcomeKind::WriteConflict,
            Outcome::Danger(_) => OutcomeKind::Danger,
        }
    }
}

/// The word of a fault in reports, and its byte in the code of a block's result.
pub fn fault_mark(fault: &Fault) -> (&'static str, u8)
    ensures word { result.0.now ≡ (fault_mark fault.now).0 }
    ensures byte { result.1 ≡ (fault_mark fault.now).1 }
{
    match fault {
        Fault::Overflow => ("overflow", 1),
        Fault::ZeroDivide => ("zero-divide", 2),
        Fault::DuplicateKey => ("duplicate-key", 3),
        Fault::NoRow => ("no-row", 4),
        Fault::TextTooLong => ("text-too-long", 5),
        Fault::Steps => ("steps", 6),
        Fault::Failed(_) => ("failed", 7),
    }
}

impl Danger {
    /// The word of its form in reports, and the byte of its form in the code of a block's result.
    pub fn mark(&self) -> (&'static str, u8)
        ensures word { result.0.now ≡ (danger_mark self.now).0 }
        ensures byte { result.1 ≡ (danger_mark self.now).1 }
    {
        match self {
            Danger::One { .. } => ("one", 1),
            Danger::Two { .. } => ("two", 2),
            Danger::Cycle { .. } => ("cycle", 3),
        }
    }
}
