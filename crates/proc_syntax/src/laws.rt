//! The laws of runs, of every application and every call, each the contract of a function that does nothing.

ghost use Rattle.proc_syntax.specs.Laws.{ReadsAreRows, EqualRowsGiveEqualRuns, ReadsFit, FewReads, FewWrites, WritesFit, WritesInOrder, WritesFind, WritesAreRead, SeesItsWrites};

/// Each read of a run is listed with the rows that it gets of the tables, whatever the transaction wrote.
pub fn reads_are_rows()
    ensures { ReadsAreRows }
{}

/// The frame law: two tables on which each read of a run has the same rows give the same run, at the same time.
pub fn equal_rows_give_equal_runs()
    ensures { EqualRowsGiveEqualRuns }
{}

/// Each read of a run fits the declaration of its table.
pub fn reads_fit()
    ensures { ReadsFit }
{}

/// A run has at most 100,000 reads.
pub fn few_reads()
    ensures { FewReads }
{}

/// A run has at most 100,000 writes.
pub fn few_writes()
    ensures { FewWrites }
{}

/// On tables whose rows fit and stand under their keys, each write of a run fits the declaration of its table.
pub fn writes_fit()
    ensures { WritesFit }
{}

/// The writes of a run stand in the order of their tables and keys, and no two have the same.
pub fn writes_in_order()
    ensures { WritesInOrder }
{}

/// On such tables, the row before of each write is the row of its key.
pub fn writes_find()
    ensures { WritesFind }
{}

/// The key of each write of a run was read at its point.
pub fn writes_are_read()
    ensures { WritesAreRead }
{}

/// The rows that a transaction sees at a read are those of the tables with its own writes put in.
pub fn sees_its_writes()
    ensures { SeesItsWrites }
{}
