//! The lines of a file.

ghost use Rattle.std.specs.Prelude.{◌≡◌, ◌<◌, ◌≤◌, length};
ghost use Rattle.std.specs.List.{position_or_len};
ghost use Rattle.tx_text.specs.Parts.{is_newline, parts_of, SplitsLine, IsShorter};

use memchr::memchr;

/// Where the first newline stands, or the length where there is none.
#[tactic(auto, using(crate::proofs::Newline::no_newline, crate::proofs::Newline::first_newline))]
fn newline_at(bytes: &[u8]) -> usize
    ensures value { result ≡ position_or_len is_newline bytes.now }
    ensures bound { result ≤ length bytes.now }
{
    match memchr(b'\n', bytes) {
        Some(at) => at,
        None => bytes.len(),
    }
}

/// The first line without its newline, and what follows it; nothing where no newline is left.
#[tactic(auto, using(crate::proofs::Parts::only_part, crate::proofs::Parts::first_part))]
pub fn split_line(bytes: &[u8]) -> Option<(&[u8], &[u8])>
    ensures parts { SplitsLine result bytes.now }
    ensures shorter { IsShorter result bytes.now }
{
    let at = newline_at(bytes);
    if at == bytes.len() {
        return None;
    }
    Some((&bytes[..at], &bytes[at + 1..]))
}
