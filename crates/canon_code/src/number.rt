//! Numbers of fixed width, the high bytes first.

ghost use Rattle.std.specs.Prelude.{◌≡◌, ◌++◌, OnOk, OnErr, IsErrOf};
ghost use Rattle.std.specs.Int.{w32, w64};
ghost use Rattle.canon_code.specs.Codes.{be_code, byte_code};
ghost use Rattle.canon_code.specs.Parts.{number_at, byte_at};
ghost use Rattle.canon_code.specs.Reads.{Reads};

use crate::CodeFault;
use rel_base::NoMemory;

/// Writes a number of 32 bits at the end, in 4 bytes, or nothing where memory runs out.
pub fn put_u32(out: &mut Vec<u8>, number: u32) -> Result<(), NoMemory>
    ensures ok { OnOk result (out.new.items ≡ out.old.items ++ be_code w32 number) }
    ensures err { OnErr result (out.new.items ≡ out.old.items) }
{
    out.extend_from_slice(&number.to_be_bytes())?;
    Ok(())
}

/// Writes a number of 64 bits at the end, in 8 bytes, or nothing where memory runs out.
pub fn put_u64(out: &mut Vec<u8>, number: u64) -> Result<(), NoMemory>
    ensures ok { OnOk result (out.new.items ≡ out.old.items ++ be_code w64 number) }
    ensures err { OnErr result (out.new.items ≡ out.old.items) }
{
    out.extend_from_slice(&number.to_be_bytes())?;
    Ok(())
}

/// Reads the byte at the start of the bytes, and answers what follows it too.
pub fn read_u8(bytes: &[u8]) -> Result<(u8, &[u8]), CodeFault>
    ensures number { Reads result (byte_at bytes.now) }
    ensures judged { IsErrOf result CodeFault.NoMemory → ⊥ }
{
    match bytes {
        [number, rest @ ..] => Ok((*number, rest)),
        [] => Err(CodeFault::Bad),
    }
}

/// Reads the number of 32 bits at the start of the bytes, and answers what follows it too.
pub fn read_u32(bytes: &[u8]) -> Result<(u32, &[u8]), CodeFault>
    ensures number { Reads result (number_at w32 bytes.now) }
    ensures judged { IsErrOf result CodeFault.NoMemory → ⊥ }
{
    if bytes.len() < 4 {
        return Err(CodeFault::Bad);
    }
    let (front, rest) = bytes.split_at(4);
    let number = u32::from_be_bytes([front[0], front[1], front[2], front[3]]);
    Ok((number, rest))
}

/// Reads the number of 64 bits at the start of the bytes, and answers what follows it too.
pub fn read_u64(bytes: &[u8]) -> Result<(u64, &[u8]), CodeFault>
    ensures number { Reads result (number_at w64 bytes.now) }
    ensures judged { IsErrOf result CodeFault.NoMemory → ⊥ }
{
    if bytes.len() < 8 {
        return Err(CodeFault::Bad);
    }
    let (front, rest) = bytes.split_at(8);
    let number = u64::from_be_bytes([
        front[0], front[1], front[2], front[3], front[4], front[5], front[6], front[7],
    ]);
    Ok((number, rest))
}
