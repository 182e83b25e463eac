//! The bytes that a reader keeps of a line that has not ended.

ghost use Rattle.std.specs.Prelude.{◌≡◌, ◌++◌, IfOk, OnOk, OnErr};

use rel_base::{List, NoMemory};
use std::alloc::Global;

/// A copy of bytes.
pub fn copy_of(alloc: Global, bytes: &[u8]) -> Result<List<u8>, NoMemory>
    ensures { IfOk result (λ copy. copy ≡ bytes.now) }
{
    Ok(List::from_vec(Vec::from_slice(alloc, bytes)?))
}

/// Bytes after others.
pub fn joined(alloc: Global, front: &[u8], back: &[u8]) -> Result<Vec<u8>, NoMemory>
    ensures { IfOk result (λ both. both.items ≡ front.now ++ back.now) }
{
    let mut both = Vec::from_slice(alloc, front)?;
    both.extend_from_slice(back)?;
    Ok(both)
}

/// Puts bytes at the end of others, or none where memory runs out.
pub fn extend(alloc: Global, held: &mut List<u8>, bytes: &[u8]) -> Result<(), NoMemory>
    ensures ok { OnOk result (held.new ≡ held.old ++ bytes.now) }
    ensures err { OnErr result (held.new ≡ held.old) }
{
    let mut all = std::mem::replace(held, List::new(alloc)).into_vec();
    let extended = all.extend_from_slice(bytes);
    *held = List::from_vec(all);
    extended?;
    Ok(())
}
