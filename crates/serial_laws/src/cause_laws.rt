//! Laws, each the contract of a function that does nothing.

ghost use Rattle.serial_laws.specs.CauseLaws.{ConflictIsLeast, DangerIsLeast, OutcomesNameTheLeast, PremisesAreMet};

/// A write conflict names the least position of those that wrote a table and key which the transaction writes too, and then the
/// least table and key that both wrote; and there is one exactly where there is such a position.
pub fn conflict_is_least()
    ensures { ConflictIsLeast }
{}

/// A danger of form one names the least Z for which there is an X, and then the least such X; one of form two, which comes only where
/// no two are in form one, the least Y and then the least Z; and there is none exactly where no two are in either form. With exact
/// isolation it names a path of least length, and of these the least by position, and there is none exactly where there is no path.
pub fn danger_is_least()
    ensures { DangerIsLeast }
{}

/// What these two laws ask of lists holds wherever the fold decides a transaction.
pub fn premises_are_met()
    ensures { PremisesAreMet }
{}

/// So each outcome that the fold tells names the least, or has none to name.
pub fn outcomes_name_the_least()
    ensures { OutcomesNameTheLeast }
{}
