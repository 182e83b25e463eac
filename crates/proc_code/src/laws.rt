//! The law of code, the contract of a function that does nothing.

ghost use Rattle.proc_code.specs.Laws.{CodeRunsAreRuns};

/// The run of an application's code is the run of the application, for every application, call, time and tables.
pub fn code_runs_are_runs()
    ensures { CodeRunsAreRuns }
{}
