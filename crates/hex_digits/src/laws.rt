//! What is written is read back, and what is read was written so: each the contract of a function that does nothing.

ghost use Rattle.hex_digits.specs.Laws.{BytesAreBytes, BytesComeBack, BytesHaveOneSpelling, HashesAreHashes, HashesComeBack, HashesHaveOneSpelling};

/// Bytes are read back from their digits, and have no others.
pub fn bytes_have_digits()
    ensures back { BytesComeBack }
    ensures one { BytesHaveOneSpelling }
    ensures bytes { BytesAreBytes }
{}

/// Hashes are read back from their digits, and have no others.
pub fn hashes_have_digits()
    ensures back { HashesComeBack }
    ensures one { HashesHaveOneSpelling }
    ensures hashes { HashesAreHashes }
{}
