//! What is written is read back, and what is read was written so: each the contract of a function that does nothing.

ghost use Rattle.literals.specs.Laws.{TextsComeBack, BytesComeBack, NumbersComeBack, TextsHaveOneSpelling, BytesHaveOneSpelling, NumbersHaveOneSpelling};

/// A text in quotes is read back, whatever follows it.
pub fn texts_come_back()
    ensures { TextsComeBack }
{}

/// A byte string is read back, whatever follows it.
pub fn bytes_come_back()
    ensures { BytesComeBack }
{}

/// A number is read back, where no digit follows it.
pub fn numbers_come_back()
    ensures { NumbersComeBack }
{}

/// A text that is read has the spelling in which it is written.
pub fn texts_have_one_spelling()
    ensures { TextsHaveOneSpelling }
{}

/// A byte string that is read has the spelling in which it is written.
pub fn bytes_have_one_spelling()
    ensures { BytesHaveOneSpelling }
{}

/// A number that is read has the spelling in which it is written.
pub fn numbers_have_one_spelling()
    ensures { NumbersHaveOneSpelling }
{}
