//! Digest files.

ghost use Rattle.checkpoint.specs.Files.{Gives, digest_at, digest_file, digest_text, digests_from, digests_of, header_of, lines_from, most_digests, numbered_digest};
ghost use Rattle.hex_digits.specs.Laws.{IsHash};
ghost use Rattle.std.specs.Prelude.{All, IfOk, IfSome, Ok, OnOk, Some, cond, false, length, take, ◌++◌, ◌≡◌, ◌≤◌};
ghost use Rattle.tx_text.specs.Parts.{line_text, parts_of};

use hex_digits::{hash_digits, read_hash};
use itoa::Buffer;
use literals::push_number;
use rel_base::{List, NoMemory};
use std::alloc::Global;
use tx_text::field::strip;
use tx_text::split_line;

/// Why bytes are no digest file.
#[derive(Clone, Copy, PartialEq, Eq)]
pub enum DigestFault {
    /// Memory ran out.
    NoMemory,
    /// The line of this number, from 1, is the first bad one.
    Bad { line: u64 },
}

impl From<NoMemory> for DigestFault {
    ghost use Rattle.checkpoint.specs.declared.files.DigestFault.TheVariants as fault;
    ghost use Rattle.std.specs.Prelude.{◌≡◌};

    ghost from_gives = { λ _ e. e ≡ fault.NoMemory };

    fn from(_error: NoMemory) -> DigestFault {
        DigestFault::NoMemory
    }
}

/// The number of blocks that a digest file may tell of.
pub const MOST_DIGESTS: u64 = 1_000_000;

/// The digest after the number of a height.
fn numbered_digest(height: u64, line: &[u8]) -> Option<[u8; 32]>
    ensures { result ≡ numbered_digest height line.now }
{
    let mut buffer = Buffer::new();
    let rest = strip(buffer.format(height).as_bytes(), line)?;
    let digits = strip(b" ", rest)?;
    read_hash(digits)
}

/// The digest that the line of a height spells.
fn digest_at(height: u64, line: &[u8]) -> Option<[u8; 32]>
    ensures digest { result ≡ digest_at height line.now }
    ensures low { IfSome result (λ digest. height ≤ most_digests) }
{
    if height > MOST_DIGESTS {
        return None;
    }
    numbered_digest(height, line)
}

/// Reads the lines of digests, from height 1 on.
fn read_lines(alloc: Global, bytes: &[u8]) -> Result<List<[u8; 32]>, DigestFault>
    ensures { Gives result (digests_from 1 (parts_of bytes.now)) }
{
    let mut digests = List::new(alloc);
    let mut height = 1_u64;
    let mut rest = bytes;
    while let Some((line, after)) = split_line(rest) {
        let Some(digest) = digest_at(height, line) else {
            return Err(DigestFault::Bad { line: height + 1 });
        };
        digests.push(digest)?;
        height += 1;
        rest = after;
    }
    if !rest.is_empty() {
        return Err(DigestFault::Bad { line: height + 1 });
    }
    Ok(digests)
}

/// The digests of a whole file: `digests 1`, and then a line `H HEX` for each block, where H counts from 1 to at most 1,000,000 and HEX is 64
/// lower-case hexadecimal digits. `Bad` names the first line that is not so, or has no newline: of an empty file, and of one of heads, line 1.
pub fn read_digests(alloc: Global, bytes: &[u8]) -> Result<List<[u8; 32]>, DigestFault>
    ensures { Gives result (digests_of bytes.now) }
{
    let Some((header, rest)) = split_line(bytes) else {
        return Err(DigestFault::Bad { line: 1 });
    };
    if header != b"digests 1".as_slice() {
        return Err(DigestFault::Bad { line: 1 });
    }
    read_lines(alloc, rest)
}

/// Writes the line of a height at the end, or a part of it.
fn push_digest(out: &mut Vec<u8>, height: u64, digest: &[u8; 32]) -> Result<(), NoMemory>
    // What a digest is: so what is written is read back.
    ensures sound { IsHash digest.now }
    ensures line { OnOk result (out.new.items ≡ out.old.items ++ line_text (digest_text height digest.now)) }
{
    push_number(out, height)?;
    out.push(b' ')?;
    out.extend_from_slice(hash_digits(digest).as_slice())?;
    out.push(b'\n')?;
    Ok(())
}

/// Writes the lines of digests at the end, or a part of them.
fn push_digests(out: &mut Vec<u8>, digests: &[[u8; 32]]) -> Result<(), NoMemory>
    ensures sound { OnOk result (All IsHash digests.now) }
    ensures lines { OnOk result (out.new.items ≡ out.old.items ++ lines_from 1 digests.now) }
{
    let mut height = 1_u64;
    for digest in digests {
        push_digest(out, height, digest)?;
        height += 1;
    }
    Ok(())
}

/// The first line of a file.
fn header(heads: bool) -> &'static [u8]
    ensures { result.now ≡ line_text (header_of heads) }
{
    if heads { b"heads 1\n" } else { b"digests 1\n" }
}

/// The digest file of digests, or of heads.
fn file_of(alloc: Global, heads: bool, list: &List<[u8; 32]>) -> Result<List<u8>, NoMemory>
    ensures file { IfOk result (λ file. file ≡ digest_file heads list.now) }
    ensures sound { OnOk result (All IsHash list.now) }
{
    let mut out = Vec::from_slice(alloc, header(heads))?;
    push_digests(&mut out, list.as_slice())?;
    Ok(List::from_vec(out))
}

/// The digest file of digests, or of heads. At most 1,000,000 digests are read back from it. It fails only where memory runs out.
pub fn write_digests(
    alloc: Global,
    heads: bool,
    list: &List<[u8; 32]>,
) -> Result<List<u8>, NoMemory>
    ensures file { IfOk result (λ file. file ≡ digest_file heads list.now) }
    ensures back { IfOk result (λ file. heads ≡ false → length list.now ≤ most_digests → digests_of file ≡ Ok list.now) }
{
    let file = file_of(alloc, heads, list)?;
    Ok(file)
}
