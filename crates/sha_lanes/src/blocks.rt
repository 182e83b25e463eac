//! Blocks that are taken in together.

ghost use Rattle.std.specs.Prelude.{◌≡◌, ◌≤◌, length};
ghost use Rattle.sha2.specs.Sha256.{hash_after};

use crate::rounds::compress;
use crate::words::keyed_words;

/// Takes the first of four blocks into a hash value, so many as are asked.
pub fn take_blocks(hash: &mut [u32; 8], bytes: &[u8], count: usize)
    requires four { length bytes.now ≡ 256 }
    requires few { count ≤ 4 }
    ensures { hash.new ≡ hash_after hash.old bytes.now count }
{
    let words = keyed_words(bytes);
    'taken: for lane in 0..count {
        compress(hash, &words, lane);
    }
}
