//! What is known before a line of a block file.

ghost use Rattle.std.specs.Prelude.{◌≡◌, true};
ghost use Rattle.chain_file.specs.Near.{is_near};

use crate::hash::Hashes;
use crate::section::Section;

/// A line: its number, and where it stands.
#[derive(Drop)]
pub struct LinePoint {
    /// The line's number, from 1.
    pub line: u64,
    pub place: Section,
    ghost near: { is_near line place ≡ true },
}

/// What is known before a line.
#[derive(Drop)]
pub struct Standing {
    pub spot: LinePoint,
    pub hashes: Hashes,
}
