//! What is read of codes that were written out by another program, or by hand.

use block_digest::{decode, digest_of, encode};
use canon_code::{get_row, get_value, get_write};
use rel_base::Value;
use std::alloc::Global;
use std::test::Fail;

/// The code of block 258, in which each kind of outcome and of write stands.
const CODE: &[u8] = b"\x00\x00\x00\x00\x00\x00\x01\x02\x00\x00\x00\x00\x00\x00\x01\x03\
    \x00\x00\x00\x13\
    \x02a1\x00\
    \x01b\x01\
    \x04c_-9\x02\
    \x01d\x03\
    \x01e\x04\
    \x01f\x05\x00\x00\x00\x01\x00\x00\x00\x01\x00\x00\x00\x05\x00\x00\x00\x03\x00\x00\x00\x01\x01\x02\x02\xc3\xa9\
    \x01g\x06\x00\x01\x86\xa0\x00\x00\x00\x00\x00\x00\x00\x01\x00\x00\x00\x02\x00\x00\x00\x00\x03\x01\xff\xff\xff\xff\xff\xff\xff\xfe\x03\x01\x04\x02\x00\xff\
    \x02h1\x07\x01\
    \x02h2\x07\x02\
    \x02h3\x07\x03\
    \x02h4\x07\x04\
    \x02h5\x07\x05\
    \x02h6\x07\x06\
    \x02h7\x07\x07\x05funds\
    \x01i\x08\x00\x00\x00\x01\x00\x00\x00\x00\x01\x01\x00\x00\x00\x00\x00\x00\x00\x07\
    \x01j\x09\x01\x00\x00\x00\x01\x00\x00\x00\x10\
    \x01k\x09\x02\x00\x00\x00\x10\x00\x00\x00\x01\
    \x01l\x00\
    \x01m\x09\x03\x00\x00\x00\x02\x00\x00\x00\x11\x00\x00\x04\x00\
    \x00\x00\x00\x02\
    \x00\x00\x00\x12\
    \x00\x00\x00\x01\
    \x00\x00\x00\x04\
    \x00\x00\x00\x01\x00\x00\x00\x00\x01\x01\x00\x00\x00\x00\x00\x00\x00\x01\x02\x02\x01\x00\x00\x00\x00\x00\x00\x00\x01\x03\x00\x02\x01\x00\x00\x00\x00\x00\x00\x00\x01\x03\x01\
    \x00\x00\x00\x01\x00\x00\x00\x00\x01\x01\x00\x00\x00\x00\x00\x00\x00\x02\x03\x02\x01\x00\x00\x00\x00\x00\x00\x00\x02\x03\x01\
    \x00\x00\x00\x01\x00\x00\x00\x01\x01\x02\x01a\x01\x01\x02\x01a\
    \x00\x00\x00\x12\x00\x00\x00\x00\x01\x01\xff\xff\xff\xff\xff\xff\xff\xff\x01\x02\x01\xff\xff\xff\xff\xff\xff\xff\xff\x03\x00";

/// Whether a block of one transaction, which was refused for a cycle of so many positions from one on, is a code.
fn is_cycle(alloc: Global, first: u8, positions: &[u8]) -> Result<bool, Fail> {
    let mut code = Vec::from_slice(
        alloc,
        b"\x00\x00\x00\x00\x00\x00\x00\x01\x00\x00\x00\x00\x00\x00\x00\x00\x00\x00\x00\x01\x01a\x09\x03\x00\x00\x00",
    )?;
    code.push(first)?;
    for position in positions {
        code.push(0)?;
        code.push(0)?;
        code.push(0)?;
        code.push(*position)?;
    }
    for _ in 0..8 {
        code.push(0)?;
    }
    Ok(decode(alloc, code.as_slice()).is_ok())
}

#[test]
fn a_cycle_has_different_positions(rt: HostRuntime) -> Result<(), Fail> {
    let alloc = rt.alloc();
    assert!(rt; is_cycle(alloc, 2, &[9, 3])?);
    assert!(rt; !is_cycle(alloc, 2, &[9, 9])?);
    assert!(rt; !is_cycle(alloc, 2, &[9, 0])?);
    assert!(rt; !is_cycle(alloc, 0, &[])?);
    Ok(())
}

/// The digest of that block after one whose digest has the byte 7 alone.
const DIGEST: &[u8] =
    b"\xab\x8d\x45\x8f\xcc\xd7\x24\xd0\xeb\x74\x3f\x90\x50\x62\x77\x9f\xc5\x5d\xc3\xc7\x6f\xf0\x9e\xee\xc4\x71\x50\xc0\x90\xed\xb3\xb9";

/// Whether what the code says is read, has this code again, and has its digest.
fn comes_back(alloc: Global) -> Result<bool, Fail> {
    let block = decode(alloc, CODE)?;
    let digest = digest_of(alloc, &[7; 32], &block)?;
    let code = encode(alloc, &block)?;
    Ok(
        block.number == 258
            && block.time == 259
            && block.outcomes.len() == 19
            && block.order.as_slice() == [18, 1].as_slice()
            && code.as_slice() == CODE
            && digest.as_slice() == DIGEST,
    )
}

#[test]
fn all_kinds_come_back(rt: HostRuntime) -> Result<(), Fail> {
    let is_back = comes_back(rt.alloc())?;
    assert!(rt; is_back);
    Ok(())
}

/// The insert of the row (7) by position 1 in table 0, and two bytes after it.
const WRITE: &[u8] =
    b"\x00\x00\x00\x01\x00\x00\x00\x00\x01\x01\x00\x00\x00\x00\x00\x00\x00\x07\x01\x01\x01\x00\x00\x00\x00\x00\x00\x00\x07\xaa\xbb";

/// Whether the key's value is got from these bytes.
fn has_value(alloc: Global) -> Result<bool, Fail> {
    let (value, length) = get_value(alloc, &WRITE[9..])?;
    Ok(value == Value::Int(7) && length == 9)
}

/// Whether its key is.
fn has_row(alloc: Global) -> Result<bool, Fail> {
    let (row, length) = get_row(alloc, &WRITE[8..])?;
    Ok(row.len() == 1 && length == 10)
}

/// Whether the write is.
fn has_write(alloc: Global) -> Result<bool, Fail> {
    let (placed, length) = get_write(alloc, WRITE)?;
    Ok(placed.pos == 1 && placed.write.before.is_none() && length == 29)
}

#[test]
fn what_stands_first_is_got(rt: HostRuntime) -> Result<(), Fail> {
    let alloc = rt.alloc();
    assert!(rt; has_value(alloc)?);
    assert!(rt; has_row(alloc)?);
    assert!(rt; has_write(alloc)?);
    Ok(())
}
