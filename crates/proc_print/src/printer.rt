//! Applications as texts.

ghost use Rattle.std.specs.Prelude.{◌≡◌, ◌++◌, [], OnOk, IfOk, codes, flat_map};
ghost use Rattle.proc_print.specs.Laws.{ComesBack};
ghost use Rattle.proc_print.specs.Printed.{column_text, index_text, isolation_text, kind_text, named_text, printed, procedure_text, table_text};

use crate::printed_expressions::push_name;
use crate::printed_statements::push_block;
use crate::writing::{Printed, push, push_in_parens};
use proc_syntax::{App, ColumnText, Named, ProcDef, TableText};
use rel_base::{Kind, List, NoMemory};
use std::alloc::Global;

/// A kind after a space.
fn kind_text(kind: Kind) -> &'static str
    ensures { result.now ≡ kind_text kind }
{
    match kind {
        Kind::Int => " int",
        Kind::Text => " text",
        Kind::Bool => " bool",
        Kind::Bytes => " bytes",
    }
}

impl Printed for Named {
    ghost text = { named_text };

    fn push_to(&self, out: &mut Vec<u8>) -> Result<(), NoMemory> {
        push_name(out, self)
    }
}

impl Printed for ColumnText {
    ghost text = { column_text };

    fn push_to(&self, out: &mut Vec<u8>) -> Result<(), NoMemory> {
        push_name(out, &self.name)?;
        push(out, kind_text(self.kind).as_bytes())
    }
}

/// Writes the part of a table's declaration that names its indexed columns at the end, where there are any.
fn push_index(out: &mut Vec<u8>, index: &[Named]) -> Result<(), NoMemory>
    ensures { OnOk result (out.new.items ≡ out.old.items ++ index_text index.now) }
{
    match index {
        [] => Ok(()),
        [_, ..] => {
            push(out, b" index ")?;
            push_in_parens(out, index)
        }
    }
}

/// Writes a table's declaration at the end.
fn push_table(out: &mut Vec<u8>, table: &TableText) -> Result<(), NoMemory>
    ensures { OnOk result (out.new.items ≡ out.old.items ++ table_text table.now) }
{
    push(out, b"table ")?;
    push_name(out, &table.name)?;
    push(out, b" ")?;
    push_in_parens(out, table.columns.as_slice())?;
    push(out, b" key ")?;
    push_in_parens(out, table.key.as_slice())?;
    push_index(out, table.index.as_slice())?;
    push(out, b";\n")
}

/// Writes a procedure at the end.
fn push_procedure(alloc: Global, out: &mut Vec<u8>, procedure: &ProcDef) -> Result<(), NoMemory>
    ensures { OnOk result (out.new.items ≡ out.old.items ++ procedure_text procedure.now) }
{
    push(out, b"proc ")?;
    push_name(out, &procedure.name)?;
    push_in_parens(out, procedure.params.as_slice())?;
    push(out, b" ")?;
    push_block(alloc, out, b"", procedure.body.as_slice())?;
    push(out, b"\n")
}

/// Writes tables at the end.
fn push_tables(out: &mut Vec<u8>, tables: &[TableText]) -> Result<(), NoMemory>
    ensures { OnOk result (out.new.items ≡ out.old.items ++ flat_map table_text tables.now) }
{
    for table in tables {
        push_table(out, table)?;
    }
    Ok(())
}

/// Writes procedures at the end.
fn push_procedures(alloc: Global, out: &mut Vec<u8>, procedures: &[ProcDef]) -> Result<(), NoMemory>
    ensures { OnOk result (out.new.items ≡ out.old.items ++ flat_map procedure_text procedures.now) }
{
    for procedure in procedures {
        push_procedure(alloc, out, procedure)?;
    }
    Ok(())
}

/// Writes the declaration of exact isolation at the end, where it is made.
fn push_isolation(out: &mut Vec<u8>, exact: bool) -> Result<(), NoMemory>
    ensures { OnOk result (out.new.items ≡ out.old.items ++ isolation_text exact) }
{
    if !exact {
        return Ok(());
    }
    push(out, b"isolation exact;\n")
}

/// The text of an application: one declaration or statement to a line, each block indented by two spaces.
pub fn print(alloc: Global, app: &App) -> Result<List<u8>, NoMemory>
    // The text of the tree.
    ensures text { IfOk result (λ bytes. bytes ≡ printed app.now) }
    // An application that was read from a text is read back from what is written, in all but line numbers.
    ensures back { IfOk result (λ bytes. ComesBack app.now bytes) }
{
    let mut out = Vec::new(alloc);
    push_isolation(&mut out, app.exact)?;
    push_tables(&mut out, app.tables.as_slice())?;
    push_procedures(alloc, &mut out, app.procs.as_slice())?;
    Ok(List::from_vec(out))
}
