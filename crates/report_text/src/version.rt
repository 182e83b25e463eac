//! The lines of versions.

ghost use Rattle.std.specs.Prelude.{◌≡◌, ◌++◌, OnOk, IfOk, flat_map};
ghost use Rattle.report_text.specs.Versions.{author_text, ended_text, version_line, versions_text};

use crate::outcome::push_table_name;
use crate::text::Text;
use crate::value::push_values;
use node_model::Version;
use rel_base::{Id, List, NoMemory, Place, TableDef};
use std::alloc::Global;

/// The place and the id of a transaction, each part after a space.
fn push_author(out: &mut Text, place: Place, id: &Id) -> Result<(), NoMemory>
    ensures { OnOk result (out.new ≡ out.old ++ author_text place id.now) }
{
    out.push(" ")?;
    out.push_number(place.block)?;
    out.push(" ")?;
    out.push_number(u64::from(place.pos))?;
    out.push(" ")?;
    out.push(id.as_str())
}

/// Where and by whom a version was ended, or that it lives.
fn push_ended(out: &mut Text, ended: &Option<Place>, ender: &Option<Id>) -> Result<(), NoMemory>
    ensures { OnOk result (out.new ≡ out.old ++ ended_text ended.now ender.now) }
{
    match (ended, ender) {
        (Some(place), Some(id)) => push_author(out, *place, id),
        _ => out.push(" never"),
    }
}

/// A version: its table, who made it, who ended it, and its row.
fn push_version(out: &mut Text, tables: &[TableDef], version: &Version) -> Result<(), NoMemory>
    ensures { OnOk result (out.new ≡ out.old ++ version_line tables.now version.now) }
{
    out.push("version ")?;
    push_table_name(out, tables, version.table)?;
    out.push(" made")?;
    push_author(out, version.made, &version.maker)?;
    out.push(" ended")?;
    push_ended(out, &version.ended, &version.ender)?;
    out.push(" row")?;
    push_values(out, version.row.as_slice())?;
    out.push("\n")
}

/// Versions, in order.
fn push_versions(out: &mut Text, tables: &[TableDef], versions: &[Version]) -> Result<(), NoMemory>
    ensures { OnOk result (out.new ≡ out.old ++ flat_map (version_line tables.now) versions.now) }
{
    for version in versions {
        push_version(out, tables, version)?;
    }
    Ok(())
}

/// A line `version TABLE made BLOCK POS ID ended BLOCK POS ID row VALUES` for each version, in order, with `ended never` for one that
/// lives. Every line ends with a newline.
///
/// A table is shown by its name in the declarations; a number that none of them has is shown as an empty name. The only error is want
/// of memory.
pub fn versions(
    alloc: Global,
    tables: &List<TableDef>,
    list: &List<Version>,
) -> Result<List<u8>, NoMemory>
    ensures { IfOk result (λ bytes. bytes ≡ versions_text tables.now list.now) }
{
    let mut out = Text::new(alloc);
    push_versions(&mut out, tables.as_slice(), list.as_slice())?;
    Ok(List::from_vec(out.into_bytes()))
}
