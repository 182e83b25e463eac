//! Bytes of any number.

ghost use Rattle.hex.specs.Hex.{decode_of, encode_lower};
ghost use Rattle.hex_digits.specs.Digits.{as_written, bytes_of};
ghost use Rattle.rel_base.specs.Reading.{Gives};
ghost use Rattle.std.specs.Prelude.{Ok, OnErr, OnOk, ◌++◌, ◌≡◌};

use hex::FromHexError;
use rel_base::{List, NoMemory, ReadFault};
use std::alloc::Global;

/// Puts the digits of bytes at the end, or nothing where memory runs out.
pub fn push_digits(alloc: Global, out: &mut Vec<u8>, bytes: &[u8]) -> Result<(), NoMemory>
    ensures ok { OnOk result (out.new.items ≡ out.old.items ++ encode_lower bytes.now) }
    ensures err { OnErr result (out.new.items ≡ out.old.items) }
{
    let digits = hex::encode(alloc, bytes)?;
    out.extend_from_slice(digits.as_bytes())?;
    Ok(())
}

/// Bytes that were found for digits, if these are the digits in which they are written.
fn if_written(alloc: Global, digits: &[u8], bytes: List<u8>) -> Result<List<u8>, ReadFault>
    ensures { Gives result (as_written digits.now (Ok bytes)) }
{
    let written = hex::encode(alloc, bytes.as_slice())?;
    if written.as_bytes() == digits {
        Ok(bytes)
    } else {
        Err(ReadFault::Bad)
    }
}

/// The bytes that lower-case digits spell, all of them; `Bad` exactly where they spell none.
pub fn read_bytes(alloc: Global, digits: &[u8]) -> Result<List<u8>, ReadFault>
    ensures { Gives result (bytes_of digits.now) }
{
    match hex::decode(alloc, digits) {
        Ok(bytes) => if_written(alloc, digits, List::from_vec(bytes)),
        Err(FromHexError::OutOfMemory) => Err(ReadFault::NoMemory),
        Err(_) => Err(ReadFault::Bad),
    }
}
