//! What holds of every text that is an application: it may be printed and read again.

ghost use Rattle.proc_print.specs.Laws.{PrintsAgree, PrintsAreRead, PrintsAreStable, PrintsComeBack, PrintsKeepTokens};

/// What is printed of an application that was read has the tokens of the text that it was read from.
pub fn prints_keep_tokens()
    ensures { PrintsKeepTokens }
{}

/// What is printed of an application that was read is read as that application in all but line numbers, and nothing is left over.
pub fn prints_are_read()
    ensures { PrintsAreRead }
{}

/// It is the text of an application, which is the printed one in all but line numbers.
pub fn prints_come_back()
    ensures { PrintsComeBack }
{}

/// A tree that is read from it is the printed one in all but line numbers.
pub fn prints_agree()
    ensures { PrintsAgree }
{}

/// Such a tree has the same print.
pub fn prints_are_stable()
    ensures { PrintsAreStable }
{}
