//! What the check comes to, as contracts of functions that do nothing.

ghost use Rattle.proc_check.specs.Laws.{CheckedRunsAreTyped};

/// A run of a checked application never meets a value of a wrong kind, a missing column or an absent name.
pub fn checked_runs_are_typed()
    ensures { CheckedRunsAreTyped }
{}
