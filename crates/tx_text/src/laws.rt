//! What is written is read back, and what is read was written so: each the contract of a function that does nothing.

ghost use Rattle.tx_text.specs.Arrivals.{ArrivalFaultsLast, ArrivalsAreBounded, ArrivalsComeBack, ArrivalsHaveOneText};
ghost use Rattle.tx_text.specs.Laws.{ValuesHaveOneSpelling, ValuesComeBack, TransactionsHaveOneLine, TransactionsComeBack};

/// A value that is read has the spelling in which it is written.
pub fn values_have_one_spelling()
    ensures { ValuesHaveOneSpelling }
{}

/// A value is read back from its spelling.
pub fn values_come_back()
    ensures { ValuesComeBack }
{}

/// A transaction that is read has the line in which it is written.
pub fn transactions_have_one_line()
    ensures { TransactionsHaveOneLine }
{}

/// A transaction is read back from its line, where that has at most 4,096 bytes.
pub fn transactions_come_back()
    ensures { TransactionsComeBack }
{}

/// An arrival file that is read is the text of its transactions, each byte of it.
pub fn arrivals_have_one_text()
    ensures { ArrivalsHaveOneText }
{}

/// Transactions are read back from their arrival file.
pub fn arrivals_come_back()
    ensures { ArrivalsComeBack }
{}

/// An arrival file that is longer than the longest one has a fault in the bytes that are too many, or before them.
pub fn arrivals_are_bounded()
    ensures { ArrivalsAreBounded }
{}

/// After a fault, but that the bytes end too early, no more bytes change what an arrival file gives.
pub fn arrival_faults_last()
    ensures { ArrivalFaultsLast }
{}
