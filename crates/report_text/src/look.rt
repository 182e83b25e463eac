//! What a report shows.

/// The form of a report, and what it shows only where it is asked for. The lines of a block stand after its transactions, in the order
/// of these fields; the journals stand after the report.
#[derive(Clone, Copy, PartialEq, Eq)]
pub struct Look {
    /// The line `order`, and in it, each after a space, the positions of the block's committed transactions, from 1, in their
    /// serial order. Where none committed the line is `order` alone.
    pub orders: bool,
    /// The line `digest`, and in it, after a space, the 64 lower-case hexadecimal digits of the block's digest.
    pub digests: bool,
    /// One line of JSON in place of the lines of text, but for the journals.
    pub json: bool,
    /// For each node the line `journal` with its number, and after it a line for each entry of its journal: the actor and what it did.
    pub trace: bool,
}
