//! Shelves and sinks in memory that fail in mid-stream.

use edge_traits::{
    FetchFault, MemShelf, MemSink, NullSink, SinkFailed, SureShelf, read_whole, write_whole,
};
use rel_base::{List, Name};
use std::alloc::Global;
use std::test::Fail;

/// A file `app` of five bytes.
fn hello(alloc: Global) -> Result<List<(Name, List<u8>)>, Fail> {
    let mut files = List::new(alloc);
    let bytes = Vec::from_slice(alloc, b"hello")?;
    files.push((Name::new(alloc, "app")?, List::from_vec(bytes)))?;
    Ok(files)
}

/// The number of the second call.
fn second(alloc: Global) -> Result<List<u64>, Fail> {
    Ok(List::from_vec(Vec::from_slice(alloc, &[2])?))
}

#[test]
fn a_second_read_fails(rt: HostRuntime) -> Result<(), Fail> {
    let alloc = rt.alloc();
    let mut shelf = MemShelf::slow(hello(alloc)?, second(alloc)?, 2);
    assert!(rt;
        matches!(
            read_whole(alloc, &mut shelf, "app", 9),
            Err(FetchFault::Failed)
        )
    );
    assert!(rt; read_whole(alloc, &mut shelf, "app", 9).is_ok());
    Ok(())
}

#[test]
fn a_second_write_fails(rt: HostRuntime) -> Result<(), Fail> {
    let alloc = rt.alloc();
    let mut sink = MemSink::slow(alloc, 9, second(alloc)?, 4)?;
    assert_eq!(rt; write_whole(&mut sink, b"abcdef"), Err(SinkFailed));
    assert_eq!(rt; write_whole(&mut sink, b"ef"), Ok(()));
    assert!(rt; sink.bytes() == b"abcdef".as_slice());
    Ok(())
}

#[test]
fn devices_that_never_fail(rt: HostRuntime) -> Result<(), Fail> {
    let alloc = rt.alloc();
    let mut shelf = SureShelf::new(hello(alloc)?);
    assert!(rt; read_whole(alloc, &mut shelf, "none", 9).is_ok());
    assert_eq!(rt; write_whole(&mut NullSink::new(), b"text"), Ok(()));
    Ok(())
}
