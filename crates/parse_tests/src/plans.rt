//! How the sources of queries are read.

ghost use Rattle.std.specs.Prelude.{length, ◌<◌, ◌^◌};

use crate::declared::tables_of;
use query_plan::{Access, AskFault, plan};
use query_text::parse_select;
use rel_base::{List, TableDef};
use std::alloc::Global;
use std::test::Fail;

const TABLES: &str =
    "table lot (zone text, nr int, owner text, grams int, tag bytes) key (zone, nr) index (grams, owner); table zone (name text, open bool) key (name);";

/// Queries, each after a letter for each of its sources: `p` where rows are read by their key, `w` where all are read, and else the
/// number of the column whose values are read.
const PLANS: &str = r#"w from lot as l select l.nr;
p from lot as l where l.zone = "n" and l.nr = 1 select l.nr;
p from lot as l where l.nr = 1 and l.grams > 3 and l.zone = "n" select l.nr;
0 from lot as l where l.zone = "n" select l.nr;
0 from lot as l where l.zone = "n" and l.nr != 1 select l.nr;
0 from lot as l where l.zone = "n" and l.nr >= 1 select l.nr;
0 from lot as l where l.grams = 1 and l.zone <= "n" select l.nr;
w from lot as l where l.zone != "n" select l.nr;
w from lot as l where l.nr = 1 select l.nr;
2 from lot as l where l.owner = "n" select l.nr;
3 from lot as l where l.owner = "n" and l.grams < 9 select l.nr;
2 from lot as l where l.owner > "n" and l.grams != 9 select l.nr;
w from lot as l where l.tag = x"00" and l.block = 1 and l.pos <= 2 select l.nr;
w from lot as l where l.zone = l.owner and l.nr = l.grams select l.nr;
p from zone as z where z.name = "n" select z.open;
0 from zone as z where z.name < "n" select z.open;
wp from lot as l join zone as z where z.name = l.zone select l.nr;
ww from lot as l join zone as z where l.zone = z.name select l.nr;
w0 from zone as z join lot as l where l.zone = z.name select l.nr;
w2 from zone as z join lot as l where l.owner >= z.name and z.open = true select l.nr;
3p from lot as l join lot as m where m.zone = l.zone and m.nr = l.nr and l.grams >= 1 select l.nr;
w0 from lot as l join lot as m where m.zone = l.zone and m.nr = l.block select l.nr;
"#;

/// The letter of an access.
fn letter_of(access: &Access) -> u8 {
    match access {
        Access::Point => b'p',
        Access::Span { column } => b"0123456789"[*column as usize % 10],
        Access::Whole => b'w',
    }
}

/// Whether the sources of a query are read as these letters say.
fn reads_so(
    alloc: Global,
    tables: &List<TableDef>,
    text: &str,
    letters: &str,
) -> Result<bool, AskFault>
    requires { length tables.now < 2 ^ 32 }
{
    let select = parse_select(alloc, tables, text)?;
    let accesses = plan(alloc, tables, &select)?;
    let read = accesses.as_slice().iter().map(letter_of);
    Ok(read.eq(letters.bytes()))
}

/// The first line of the table whose sources are read otherwise, if there is one.
fn first_wrong(alloc: Global) -> Result<Option<&'static str>, Fail> {
    let tables = tables_of(alloc, TABLES)?;
    for line in PLANS.lines() {
        let (letters, text) = line.split_once(' ').unwrap_or(("", line));
        if !reads_so(alloc, &tables, text, letters)? {
            return Ok(Some(line));
        }
    }
    Ok(None)
}

#[test]
fn plans_are_those_of_the_table(rt: HostRuntime) -> Result<(), Fail> {
    assert_eq!(rt; first_wrong(rt.alloc())?, None);
    Ok(())
}
