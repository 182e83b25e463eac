//! The versions that are chosen of those of a key or a table.

ghost use Rattle.std.specs.Prelude.{◌≡◌, ◌≤◌, ◌++◌, ◌∷◌, [], ◌&&◌, All, OnOk, map, nat_le, nat_lt};
ghost use Rattle.provenance.specs.Answer.{is_written_by, was_visible};
ghost use Rattle.provenance.specs.Chosen.{IsRange, IsTold, chosen, is_chosen};
ghost use Rattle.provenance.specs.Versions.{version_of};

use crate::author::{id_at, id_at_some, is_place_of};
use node_model::{KeptResult, Version};
use rel_base::{Id, List, NoMemory};
use row_sets::Lifespan;
use std::alloc::Global;

/// Which versions are chosen.
#[derive(Clone, Copy)]
pub enum Choice<'a> {
    /// All of them.
    Each,
    /// Those that were visible at some height from one to another, both included.
    Visible { from: u64, to: u64 },
    /// Those that the transaction that committed under an id made or ended.
    WrittenBy(&'a Id),
}

/// Whether the heights from where a version was made up to where it was ended meet a range. What is ended in the block in which it is
/// made has no height.
fn meets(made: u64, ended: u64, from: u64, to: u64) -> bool
    ensures { result ≡ (nat_le made to && (nat_lt from ended && nat_lt made ended)) }
{
    made <= to && (from < ended && made < ended)
}

/// Whether a version was visible at some height from one to another, both included.
#[tactic(auto, using(crate::proofs::Heights::seen_live, crate::proofs::Heights::seen_ended))]
fn was_visible(span: &Lifespan, from: u64, to: u64) -> bool
    requires { from ≤ to }
    ensures { result ≡ was_visible from to span.now.made span.now.ended }
{
    match span.ended {
        None => span.made.block <= to,
        Some(ended) => meets(span.made.block, ended.block, from, to),
    }
}

/// Whether the transaction that committed under an id made a version, or ended it.
fn is_written_by(blocks: &[KeptResult], id: &Id, span: &Lifespan) -> bool
    ensures { result ≡ is_written_by blocks.now id.now span.now.made span.now.ended }
{
    is_place_of(blocks, id, Some(span.made)) || is_place_of(blocks, id, span.ended)
}

/// Whether a version is chosen.
fn is_chosen(blocks: &[KeptResult], choice: Choice<'_>, span: &Lifespan) -> bool
    requires { IsRange choice }
    ensures { result ≡ is_chosen blocks.now choice.entry span.now.made span.now.ended }
{
    match choice {
        Choice::Each => true,
        Choice::Visible { from, to } => was_visible(span, from, to),
        Choice::WrittenBy(id) => is_written_by(blocks, id, span),
    }
}

/// Adds a version of a table with the ids of the transactions that made and ended it.
fn push_version(
    alloc: Global,
    blocks: &[KeptResult],
    table: u32,
    span: Lifespan,
    versions: &mut List<Version>,
) -> Result<(), NoMemory>
    requires { IsTold blocks.now span }
    ensures { OnOk result (versions.new ≡ versions.old ++ version_of blocks.now table span ∷ []) }
{
    let maker = id_at(alloc, blocks, span.made)?;
    let ender = id_at_some(alloc, blocks, span.ended)?;
    versions.push(Version {
        table,
        row: span.row,
        made: span.made,
        maker,
        ended: span.ended,
        ender,
    })
}

/// Adds a version of a table where it is chosen.
fn push_if_chosen(
    alloc: Global,
    blocks: &[KeptResult],
    choice: Choice<'_>,
    table: u32,
    span: Lifespan,
    versions: &mut List<Version>,
) -> Result<(), NoMemory>
    requires told { IsTold blocks.now span }
    requires range { IsRange choice }
    ensures { OnOk result (versions.new ≡ versions.old ++ chosen blocks.now choice.entry (version_of blocks.now table span ∷ [])) }
{
    if is_chosen(blocks, choice, &span) {
        push_version(alloc, blocks, table, span, versions)
    } else {
        Ok(())
    }
}

/// Adds those of some versions of a table that are chosen.
pub fn push_chosen(
    alloc: Global,
    blocks: &[KeptResult],
    choice: Choice<'_>,
    table: u32,
    spans: List<Lifespan>,
    versions: &mut List<Version>,
) -> Result<(), NoMemory>
    requires told { All (IsTold blocks.now) spans }
    requires range { IsRange choice }
    ensures { OnOk result (versions.new ≡ versions.old ++ chosen blocks.now choice.entry (map (version_of blocks.now table) spans)) }
{
    for span in spans.into_vec() {
        push_if_chosen(alloc, blocks, choice, table, span, versions)?;
    }
    Ok(())
}
