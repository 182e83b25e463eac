//! Calls that the program does not make, with memory enough.

use chain_file::{ChainVersion, Reader, Sealer, read_pieces, seal};
use proc_syntax::{Block, ChainKind};
use rel_base::{List, Value};
use std::alloc::Global;
use std::test::Fail;
use tx_text::{read_arrivals, read_tx, read_value, write_tx, write_value};

/// A chain of version 2, whose hash was computed by another program.
const CHAIN: &[u8] = b"chain 2\n\
    block 1 0000000000000000000000000000000000000000000000000000000000000000 100\n\
    tx a1 0 add 1 \"ann\" 50\n\
    end\n\
    block 2 2c4f56e4d2fe969a8f842f9390bfe70c13bbeff847458957d7c491338a8d0876 100\n\
    end\n";

/// The line and the kind of the first fault of a file.
fn fault_of(alloc: Global, file: &[u8]) -> Result<Option<(u64, ChainKind)>, Fail> {
    let mut reader = Reader::new(alloc);
    reader.feed(file)?;
    match reader.end() {
        Ok(()) => Ok(None),
        Err(fault) => Ok(Some((fault.line, fault.kind))),
    }
}

/// The two blocks of `CHAIN`.
fn blocks(alloc: Global) -> Result<List<Block>, Fail> {
    let mut reader = Reader::new(alloc);
    let fed = reader.feed(
        b"draft 2\nblock 1 100\ntx a1 0 add 1 \"ann\" 50\nend\nblock 2 100\nend\n",
    )?;
    Ok(fed.blocks)
}

#[test]
fn a_draft_in_pieces(rt: HostRuntime) -> Result<(), Fail> {
    let alloc = rt.alloc();
    let mut pieces = List::new(alloc);
    pieces.push(List::from_vec(Vec::from_slice(alloc, b"draft 1\nblock 1\ne")?))?;
    pieces.push(List::from_vec(Vec::from_slice(alloc, b"nd\n")?))?;
    let read = read_pieces(alloc, pieces.as_slice())?;
    assert_eq!(rt; read.blocks.len(), 1);
    assert!(rt; read.fault.is_none());
    Ok(())
}

#[test]
fn times_may_stay_and_not_fall(rt: HostRuntime) -> Result<(), Fail> {
    let alloc = rt.alloc();
    let same = fault_of(alloc, b"draft 2\nblock 1 100\nend\nblock 2 100\nend\n")?;
    assert!(rt; same.is_none());
    let falls = fault_of(alloc, b"draft 2\nblock 1 100\nend\nblock 2 99\nend\n")?;
    assert!(rt; falls == Some((4, ChainKind::WrongTime)));
    Ok(())
}

#[test]
fn a_time_is_an_int(rt: HostRuntime) -> Result<(), Fail> {
    let alloc = rt.alloc();
    let most = fault_of(alloc, b"draft 2\nblock 1 9223372036854775807\nend\n")?;
    assert!(rt; most.is_none());
    let above = fault_of(alloc, b"draft 2\nblock 1 9223372036854775808\nend\n")?;
    assert!(rt; above == Some((2, ChainKind::WrongTime)));
    let twenty = fault_of(alloc, b"draft 2\nblock 1 99999999999999999999\nend\n")?;
    assert!(rt; twenty == Some((2, ChainKind::WrongTime)));
    let longer = fault_of(alloc, b"draft 2\nblock 1 100000000000000000000\nend\n")?;
    assert!(rt; longer == Some((2, ChainKind::BadLine)));
    let zero = fault_of(alloc, b"draft 2\nblock 1 01\nend\n")?;
    assert!(rt; zero == Some((2, ChainKind::BadLine)));
    Ok(())
}

#[test]
fn each_version_has_its_lines(rt: HostRuntime) -> Result<(), Fail> {
    let alloc = rt.alloc();
    let timed = fault_of(alloc, b"draft 1\nblock 1 100\nend\n")?;
    assert!(rt; timed == Some((2, ChainKind::BadLine)));
    let untimed = fault_of(alloc, b"draft 2\nblock 1\nend\n")?;
    assert!(rt; untimed == Some((2, ChainKind::BadLine)));
    let unchained = fault_of(alloc, b"chain 2\nblock 1 100\nend\n")?;
    assert!(rt; unchained == Some((2, ChainKind::BadLine)));
    let third = fault_of(alloc, b"draft 3\n")?;
    assert!(rt; third == Some((1, ChainKind::BadHeader)));
    Ok(())
}

#[test]
fn a_version_is_known_after_its_line(rt: HostRuntime) -> Result<(), Fail> {
    let alloc = rt.alloc();
    let mut reader = Reader::new(alloc);
    reader.feed(b"dra")?;
    reader.feed(b"ft 2")?;
    assert!(rt; reader.version().is_none());
    reader.feed(b"\nblock 2 7\n")?;
    assert!(rt; reader.version() == Some(ChainVersion::Two));
    assert!(rt; reader.end().is_err());
    assert!(rt; reader.version() == Some(ChainVersion::Two));
    Ok(())
}

/// Whether the blocks of the chain are sealed as it.
fn seals(alloc: Global) -> Result<bool, Fail> {
    let blocks = blocks(alloc)?;
    let chain = seal(alloc, ChainVersion::Two, &blocks)?;
    Ok(chain.as_slice() == CHAIN)
}

/// Whether a draft in two pieces is.
fn seals_pieces(alloc: Global) -> Result<bool, Fail> {
    let mut sealer = Sealer::new(alloc);
    sealer.feed(b"draf")?;
    sealer.feed(b"t 2\nblock 1 100\ntx a1 0 add 1 \"ann\" 50\nend\nblock 2 100\nend\n")?;
    Ok(sealer.end().is_ok_and(|text| text.as_slice() == CHAIN))
}

#[test]
fn a_chain_of_version_2_is_sealed(rt: HostRuntime) -> Result<(), Fail> {
    let alloc = rt.alloc();
    assert!(rt; seals(alloc)?);
    assert!(rt; fault_of(alloc, CHAIN)?.is_none());
    assert!(rt; seals_pieces(alloc)?);
    Ok(())
}

#[test]
fn a_line_comes_back(rt: HostRuntime) -> Result<(), Fail> {
    let alloc = rt.alloc();
    let line = b"tx a-1 18446744073709551615 table 1 \"a b\" true x\"0a\" -5";
    let tx = read_tx(alloc, line)?;
    assert!(rt; write_tx(alloc, &tx)?.as_slice() == line.as_slice());
    assert!(rt; write_value(alloc, &Value::Bool(true))?.as_slice() == b"true".as_slice());
    Ok(())
}

#[test]
fn calls_that_arrive_in_pieces(rt: HostRuntime) -> Result<(), Fail> {
    let alloc = rt.alloc();
    let mut pieces = List::new(alloc);
    pieces.push(List::from_vec(Vec::from_slice(alloc, b"arrivals 1\ntx a")?))?;
    pieces.push(List::from_vec(Vec::from_slice(alloc, b"1 0 p\ntx a2 0 p")?))?;
    assert!(rt; read_arrivals(alloc, pieces.as_slice()).is_err());
    pieces.push(List::from_vec(Vec::from_slice(alloc, b"\n")?))?;
    assert!(rt; read_arrivals(alloc, pieces.as_slice())?.len() == 2);
    Ok(())
}

#[test]
fn a_value_is_read_to_its_end(rt: HostRuntime) -> Result<(), Fail> {
    let alloc = rt.alloc();
    assert!(rt; read_value(alloc, b"-5")? == Value::Int(-5));
    assert!(rt; read_value(alloc, b"-5 ").is_err());
    Ok(())
}
