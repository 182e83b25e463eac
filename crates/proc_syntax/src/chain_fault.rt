//! What is wrong with a file of blocks, and where.

/// The kinds of faults of a block file, each with its number.
#[derive(Clone, Copy, Debug, PartialEq, Eq)]
pub enum ChainKind {
    /// The first line is the header of no block file.
    BadHeader = 1,
    /// The line has none of the forms that may stand there.
    BadLine = 2,
    /// The block has not the next number, or is one too many.
    WrongNumber = 3,
    /// The hash is not that of the block before.
    WrongPrev = 4,
    /// The block has one transaction too many.
    TooManyTx = 5,
    /// The line has more than 4,096 bytes.
    LineTooLong = 6,
    /// The bytes end before the file does.
    Truncated = 7,
    /// The time of the block is below that of the block before, or no i64.
    WrongTime = 8,
}

/// The first fault of a block file.
#[derive(Clone, Copy, Debug, PartialEq, Eq)]
pub struct ChainFault {
    /// The line, counted from 1; of a file that ends too early it is the one in which the next byte would stand.
    pub line: u64,
    pub kind: ChainKind,
}
