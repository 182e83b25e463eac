//! The lines of tables.

ghost use Rattle.std.specs.Prelude.{◌≡◌, ◌++◌, OnOk, flat_map};
ghost use Rattle.report_text.specs.Report.{row_line, table_line, table_lines};

use crate::outcome::push_table_name;
use crate::text::Text;
use crate::value::push_values;
use node_model::TableRows;
use rel_base::{NoMemory, Row, TableDef};

/// A row: its values.
fn push_row_line(out: &mut Text, row: &Row) -> Result<(), NoMemory>
    ensures { OnOk result (out.new ≡ out.old ++ row_line row.now) }
{
    out.push("row")?;
    push_values(out, row.as_slice())?;
    out.push("\n")
}

/// Rows, in order.
fn push_rows(out: &mut Text, rows: &[Row]) -> Result<(), NoMemory>
    ensures { OnOk result (out.new ≡ out.old ++ flat_map row_line rows.now) }
{
    for row in rows {
        push_row_line(out, row)?;
    }
    Ok(())
}

/// The line that begins a table.
fn push_table_line(out: &mut Text, tables: &[TableDef], table: u32) -> Result<(), NoMemory>
    ensures { OnOk result (out.new ≡ out.old ++ table_line tables.now table) }
{
    out.push("table ")?;
    push_table_name(out, tables, table)?;
    out.push("\n")
}

/// A table: its name and its rows.
fn push_table(out: &mut Text, tables: &[TableDef], table: &TableRows) -> Result<(), NoMemory>
    ensures { OnOk result (out.new ≡ out.old ++ table_lines tables.now table.now) }
{
    push_table_line(out, tables, table.table)?;
    push_rows(out, table.rows.as_slice())
}

/// Tables, in order.
pub fn push_tables(out: &mut Text, tables: &[TableDef], shown: &[TableRows]) -> Result<(), NoMemory>
    ensures { OnOk result (out.new ≡ out.old ++ flat_map (table_lines tables.now) shown.now) }
{
    for table in shown {
        push_table(out, tables, table)?;
    }
    Ok(())
}
