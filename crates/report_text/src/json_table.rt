//! Tables as JSON.

ghost use Rattle.std.specs.Prelude.{◌≡◌, ◌++◌, OnOk, codes};
ghost use Rattle.serde_json.specs.Data.{array};
ghost use Rattle.report_text.specs.JsonReport.{items_by, value_json, row_json, table_json};
ghost use Rattle.report_text.specs.JsonTokens.{member_tokens, tokens_of};

use crate::json_text::JsonText;
use crate::outcome::table_name;
use node_model::TableRows;
use rel_base::{NoMemory, Row, TableDef, Value};

/// A value: an int as a number, a text as a string, a bool as a bool, and bytes as a string of their spelling.
fn put_value(out: &mut JsonText, value: &Value) -> Result<(), NoMemory>
    ensures { OnOk result (out.new ≡ out.old ++ tokens_of (value_json value.now)) }
{
    match value {
        Value::Int(int) => out.int(*int),
        Value::Text(text) => out.string(text.as_str()),
        Value::Bool(answer) => out.boolean(*answer),
        Value::Bytes(_) => out.spelled(value),
    }
}

/// A row: its values, in order.
fn put_row(out: &mut JsonText, row: &[Value]) -> Result<(), NoMemory>
    ensures { OnOk result (out.new ≡ out.old ++ tokens_of (row_json row.now)) }
{
    out.begin_array()?;
    for value in row {
        put_value(out, value)?;
    }
    out.end_array()
}

/// The rows of a table, in order.
fn put_rows(out: &mut JsonText, rows: &[Row]) -> Result<(), NoMemory>
    ensures { OnOk result (out.new ≡ out.old ++ member_tokens (codes "rows") (array (items_by row_json rows.now))) }
{
    out.key("rows")?;
    out.begin_array()?;
    for row in rows {
        put_row(out, row.as_slice())?;
    }
    out.end_array()
}

/// A table: its name and its rows.
fn put_table(out: &mut JsonText, tables: &[TableDef], table: &TableRows) -> Result<(), NoMemory>
    ensures { OnOk result (out.new ≡ out.old ++ tokens_of (table_json tables.now table.now)) }
{
    out.begin_object()?;
    out.text_member("name", table_name(tables, table.table))?;
    put_rows(out, table.rows.as_slice())?;
    out.end_object()
}

/// The tables of a node, in order.
pub fn put_tables(
    out: &mut JsonText,
    tables: &[TableDef],
    shown: &[TableRows],
) -> Result<(), NoMemory>
    ensures { OnOk result (out.new ≡ out.old ++ member_tokens (codes "tables") (array (items_by (table_json tables.now) shown.now))) }
{
    out.key("tables")?;
    out.begin_array()?;
    for table in shown {
        put_table(out, tables, table)?;
    }
    out.end_array()
}
