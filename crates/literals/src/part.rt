//! What a reader between quotes meets.

/// What stands at the start of bytes between quotes.
pub enum Part<'a> {
    /// The closing quote, and what follows it.
    Close(&'a [u8]),
    /// The spelling of a byte, and what follows it.
    Byte(u8, &'a [u8]),
    /// Neither.
    Bad,
}
