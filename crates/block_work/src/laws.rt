//! Laws, each the contract of a function that does nothing.

ghost use Rattle.block_work.specs.Laws.{ResultsRunAgain, RunsFit};

/// A run on the tables of a height can be judged.
pub fn runs_fit()
    ensures { RunsFit }
{}

/// The results of a chain tell for each block an order in which its committed transactions run again one by one.
pub fn results_run_again()
    ensures { ResultsRunAgain }
{}
