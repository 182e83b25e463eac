//! Texts and bytes after one byte, which is their length.

ghost use Rattle.std.specs.Prelude.{◌≡◌, ◌≤◌, ◌++◌, true, length, take, Some, OnOk, OnErr, IsErrOf, IfOk};
ghost use Rattle.canon_code.specs.Codes.{AreBytes, HasShortCode, short_code};
ghost use Rattle.canon_code.specs.Parts.{short_at, parted};
ghost use Rattle.canon_code.specs.Reads.{Reads, Gives, slice_of};
ghost use Rattle.canon_code.specs.Values.{is_text, text_at};

use crate::CodeFault;
use rel_base::{Blob, BlobFault, NoMemory, Str, text_of};
use std::alloc::Global;

/// Writes bytes after their length at the end, or a part of that.
fn push_short(out: &mut Vec<u8>, bytes: &[u8]) -> Result<(), NoMemory>
    requires { length bytes.now ≤ 255 }
    ensures ok { OnOk result (out.new.items ≡ out.old.items ++ short_code bytes.now) }
    ensures front { take (length out.old.items) out.new.items ≡ out.old.items }
{
    out.push(bytes.len() as u8)?;
    out.extend_from_slice(bytes)?;
    Ok(())
}

/// Writes bytes after their length at the end, or nothing where memory runs out.
pub fn put_short(out: &mut Vec<u8>, bytes: &[u8]) -> Result<(), NoMemory>
    requires { length bytes.now ≤ 255 }
    ensures ok { OnOk result (out.new.items ≡ out.old.items ++ short_code bytes.now) }
    ensures err { OnErr result (out.new.items ≡ out.old.items) }
    ensures sound { HasShortCode bytes.now }
{
    let start = out.len();
    let pushed = push_short(out, bytes);
    if pushed.is_err() {
        out.truncate(start);
    }
    pushed
}

/// Writes a text after its length at the end, or nothing where memory runs out.
#[tactic(auto, using(rel_base::proofs::Utf8::text_sound))]
pub fn put_text(out: &mut Vec<u8>, text: &Str) -> Result<(), NoMemory>
    ensures ok { OnOk result (out.new.items ≡ out.old.items ++ short_code text.now) }
    ensures err { OnErr result (out.new.items ≡ out.old.items) }
    ensures sound { is_text text.now ≡ true }
{
    put_short(out, text.as_str().as_bytes())
}

/// Writes a byte string after its length at the end, or nothing where memory runs out.
pub fn put_blob(out: &mut Vec<u8>, blob: &Blob) -> Result<(), NoMemory>
    ensures ok { OnOk result (out.new.items ≡ out.old.items ++ short_code blob.now) }
    ensures err { OnErr result (out.new.items ≡ out.old.items) }
    ensures sound { HasShortCode blob.now }
{
    put_short(out, blob.as_slice())
}

/// Reads the bytes after their length at the start of the bytes, and answers what follows them too.
pub fn read_short(bytes: &[u8]) -> Result<(&[u8], &[u8]), CodeFault>
    ensures found { Reads (slice_of result) (short_at bytes.now) }
    ensures short { IfOk result (λ found. length found.0.now ≤ 255) }
    ensures judged { IsErrOf result CodeFault.NoMemory → ⊥ }
{
    match bytes {
        [] => Err(CodeFault::Bad),
        [len, rest @ ..] => split_short(*len, rest),
    }
}

/// Parts bytes after so many.
fn split_short(len: u8, bytes: &[u8]) -> Result<(&[u8], &[u8]), CodeFault>
    ensures found { Reads (slice_of result) (parted len bytes.now) }
    ensures short { IfOk result (λ found. length found.0.now ≤ 255) }
    ensures judged { IsErrOf result CodeFault.NoMemory → ⊥ }
{
    let len = usize::from(len);
    if bytes.len() < len {
        return Err(CodeFault::Bad);
    }
    Ok(bytes.split_at(len))
}

/// Reads the text after its length at the start of the bytes, and answers what follows it too.
pub fn read_text(alloc: Global, bytes: &[u8]) -> Result<(Str, &[u8]), CodeFault>
    ensures { Reads result (text_at bytes.now) }
{
    let (found, rest) = read_short(bytes)?;
    let text = text_of(alloc, found)?;
    Ok((text, rest))
}

/// The byte string of some bytes.
fn blob_of(alloc: Global, bytes: &[u8]) -> Result<Blob, CodeFault>
    requires { length bytes.now ≤ 255 }
    ensures { Gives result (Some bytes.now) }
{
    match Blob::new(alloc, bytes) {
        Ok(blob) => Ok(blob),
        Err(BlobFault::NoMemory) => Err(CodeFault::NoMemory),
        Err(BlobFault::TooLong) => Err(CodeFault::Bad),
    }
}

/// Reads the byte string after its length at the start of the bytes, and answers what follows it too.
pub fn read_blob(alloc: Global, bytes: &[u8]) -> Result<(Blob, &[u8]), CodeFault>
    ensures { Reads result (short_at bytes.now) }
{
    let (found, rest) = read_short(bytes)?;
    let blob = blob_of(alloc, found)?;
    Ok((blob, rest))
}
