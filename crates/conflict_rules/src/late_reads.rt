//! The search for the first late read of a run.

ghost use Rattle.std.specs.Prelude.{◌≡◌, ◌<◌, ◌^◌, ◌+◌, All, length, map};
ghost use Rattle.std.specs.Option.{option_map};
ghost use Rattle.conflict_rules.specs.Late.{overtaken, overtaken_at, overtaken_from, overtaken_of};
ghost use Rattle.rel_base.specs.Late.{late};
ghost use Rattle.rel_base.specs.Tables.{writes_between};
ghost use Rattle.rel_base.specs.Among.{ReadFitsIn};

use crate::overtaken::LateRef;
use rel_base::{List, Made, Read};
use row_sets::Versions;

// Whether one read was overtaken.
fn late_at<'a, V: Versions>(
    versions: &'a V,
    number: u32,
    read: &Read,
    height: u64,
    upto: u64,
) -> Option<LateRef<'a>>
    requires { ReadFitsIn (V.tables versions.now) read.now }
    ensures { option_map overtaken_of result
        ≡ overtaken_at (V.tables versions.now) number read.now (writes_between height upto (V.history versions.now)) }
{
    match versions.late_hit(height, upto, read) {
        None => None,
        Some(hit) => Some(LateRef {
            read: number,
            table: read.table(),
            hit,
        }),
    }
}

fn late_from<'a, V: Versions>(
    versions: &'a V,
    reads: &[Made],
    height: u64,
    upto: u64,
) -> Option<LateRef<'a>>
    requires fits { All (λ made. ReadFitsIn (V.tables versions.now) made.read) reads.now }
    requires few { length reads.now < 2 ^ 32 }
    ensures { option_map overtaken_of result
        ≡ overtaken_from (V.tables versions.now) 1 reads.now (writes_between height upto (V.history versions.now)) }
{
    for (index, made) in reads.iter().enumerate() {
        if let Some(found) = late_at(versions, index as u32 + 1, &made.read, height, upto) {
            return Some(found);
        }
    }
    None
}

/// The first of the reads of a run that a write of the blocks above `height` up to `upto` hits, with the least such write by
/// place and key; `None` exactly where there is none. Takes no memory.
#[tactic(auto, using(crate::proofs::FirstLate::told_from))]
pub fn late<'a, V: Versions>(
    versions: &'a V,
    reads: &List<Made>,
    height: u64,
    upto: u64,
) -> Option<LateRef<'a>>
    requires fits { All (λ made. ReadFitsIn (V.tables versions.now) made.read) reads.now }
    requires few { length reads.now < 2 ^ 32 }
    ensures { option_map overtaken_of result
        ≡ option_map (overtaken (V.tables versions.now)) (late (V.tables versions.now) (map (λ made. made.read) reads.now) (writes_between height upto (V.history versions.now))) }
{
    late_from(versions, reads.as_slice(), height, upto)
}
