//! Names of tables and columns.

ghost use Rattle.std.specs.Prelude.{◌≡◌, ◌<◌, ◌^◌, length};
ghost use Rattle.std.specs.Option.{option_map};
ghost use Rattle.proc_syntax.specs.Scope.{column_in, table_named};

use rel_base::{List, Name, TableDef, table_of};

/// The number of a table's first column of a name.
pub fn column_in(def: &TableDef, name: &Name) -> Option<usize>
    ensures { result ≡ column_in def.now name.now }
{
    for (i, column) in def.columns.as_slice().iter().enumerate() {
        if column.name.as_str() == name.as_str() {
            return Some(i);
        }
    }
    None
}

/// The number and the declaration of the first table of a name.
pub fn table_named<'a>(tables: &'a List<TableDef>, name: &Name) -> Option<(u32, &'a TableDef)>
    requires { length tables.now < 2 ^ 32 }
    ensures { option_map (λ named. (named.0, named.1.now)) result ≡ table_named tables.now name.now }
{
    let table = table_of(tables, name.as_str())?;
    let def = tables.get(table as usize)?;
    Some((table, def))
}
