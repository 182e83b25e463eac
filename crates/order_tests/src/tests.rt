//! Clients that submit.

use crate::drafts::draft_of;
use crate::meeting::Meeting;
use order_queue::NoPace;
use rel_base::List;
use std::alloc::Global;
use std::test::Fail;

// The file of a client with this line so many times.
fn file_of(alloc: Global, line: &[u8], count: u32) -> Result<List<u8>, Fail> {
    let mut file = Vec::from_slice(alloc, b"arrivals 1\n")?;
    for _ in 0..count {
        file.extend_from_slice(line)?;
    }
    Ok(List::from_vec(file))
}

#[test]
fn one_of_two_has_all(rt: HostRuntime) -> Result<(), Fail> {
    let alloc = rt.alloc();
    let lines = b"tx a1 0 add 1 \"ann\" 50\ntx a2 0 add 2 \"bob\" 20\n";
    let mut files = List::new(alloc);
    files.push(file_of(alloc, lines, 1)?)?;
    files.push(file_of(alloc, lines, 0)?)?;
    let draft = draft_of(&rt, alloc, &files, 1, &NoPace)?;
    let wanted =
        b"draft 1\nblock 1\ntx a1 0 add 1 \"ann\" 50\nend\nblock 2\ntx a2 0 add 2 \"bob\" 20\nend\n";
    assert!(rt; draft.as_slice() == wanted.as_slice());
    Ok(())
}

#[test]
fn nobody_has_any(rt: HostRuntime) -> Result<(), Fail> {
    let alloc = rt.alloc();
    let mut files = List::new(alloc);
    files.push(file_of(alloc, b"", 0)?)?;
    files.push(file_of(alloc, b"", 0)?)?;
    let draft = draft_of(&rt, alloc, &files, 1024, &NoPace)?;
    assert!(rt; draft.as_slice() == b"draft 1\n".as_slice());
    Ok(())
}

#[test]
fn two_clients_put_at_once(rt: HostRuntime) -> Result<(), Fail> {
    let alloc = rt.alloc();
    let mut files = List::new(alloc);
    files.push(file_of(alloc, b"tx a 0 p\n", 3)?)?;
    files.push(file_of(alloc, b"tx b 0 p\n", 3)?)?;
    let pace = Meeting::new();
    let draft = draft_of(&rt, alloc, &files, 6, &pace)?;
    assert!(rt; pace.has_met());
    assert_eq!(rt; draft.len(), 74);
    Ok(())
}

#[test]
fn more_than_the_queue_holds(rt: HostRuntime) -> Result<(), Fail> {
    let alloc = rt.alloc();
    let mut files = List::new(alloc);
    for _ in 0..3 {
        files.push(file_of(alloc, b"tx a 0 p\n", 100)?)?;
    }
    let draft = draft_of(&rt, alloc, &files, 300, &NoPace)?;
    assert_eq!(rt; draft.len(), 2720);
    Ok(())
}
