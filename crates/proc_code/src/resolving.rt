//! Names resolved to numbers, in one pass over a procedure once its variables are known.

ghost use Rattle.std.specs.Prelude.{◌≡◌, ◌<◌, ◌^◌, IfOk, length, map};
ghost use Rattle.proc_syntax.specs.Declaring.{tables_of};
ghost use Rattle.proc_code.specs.Numbers.{column_names, slots_of};
ghost use Rattle.proc_code.specs.Resolved.{param_of, proc_of, code_of};

use crate::gather::slots_of;
use crate::numbering::Numbering;
use crate::places::{column_names, column_places};
use crate::statements::{Resolver, resolve_block};
use crate::tree::{AppCode, Param, ProcCode};
use proc_syntax::{App, ColumnText, ProcDef};
use rel_base::{List, NoMemory, TableDef, Twin};
use std::alloc::Global;

fn resolve_params(
    alloc: Global,
    names: &Numbering,
    params: &[ColumnText],
) -> Result<List<Param>, NoMemory>
    ensures { IfOk result (λ made. made ≡ map (param_of names.now) params.now) }
{
    let mut made = List::new(alloc);
    for param in params {
        let slot = names.number_or_len(&param.name.name);
        made.push(Param {
            slot,
            kind: param.kind,
        })?;
    }
    Ok(made)
}

/// The code of a procedure whose variables are known.
fn code_of_proc(resolver: &Resolver<'_>, procedure: &ProcDef) -> Result<ProcCode, NoMemory>
    requires few { length resolver.now.tables.now < 2 ^ 32 }
    requires columns { resolver.now.columns.now ≡ column_names resolver.now.tables.now }
    requires names { resolver.now.names.now ≡ slots_of procedure.now }
    ensures { IfOk result (λ code. code ≡ proc_of resolver.now.tables.now procedure.now) }
{
    let params = procedure.params.as_slice();
    Ok(ProcCode {
        name: procedure.name.name.copy(resolver.alloc)?,
        slots: resolver.names.len(),
        params: resolve_params(resolver.alloc, resolver.names, params)?,
        body: resolve_block(resolver, procedure.body.as_slice())?,
    })
}

/// The code of a procedure.
fn resolve_proc(
    alloc: Global,
    tables: &List<TableDef>,
    columns: &Numbering,
    procedure: &ProcDef,
) -> Result<ProcCode, NoMemory>
    requires few { length tables.now < 2 ^ 32 }
    requires columns { columns.now ≡ column_names tables.now }
    ensures { IfOk result (λ code. code ≡ proc_of tables.now procedure.now) }
{
    let names = slots_of(alloc, procedure)?;
    let resolver = Resolver {
        alloc,
        tables,
        columns,
        names: &names,
    };
    code_of_proc(&resolver, procedure)
}

fn resolve_procs(
    alloc: Global,
    tables: &List<TableDef>,
    columns: &Numbering,
    procedures: &[ProcDef],
) -> Result<List<ProcCode>, NoMemory>
    requires few { length tables.now < 2 ^ 32 }
    requires columns { columns.now ≡ column_names tables.now }
    ensures { IfOk result (λ procs. procs ≡ map (proc_of tables.now) procedures.now) }
{
    let mut procs = List::new(alloc);
    for procedure in procedures {
        let code = resolve_proc(alloc, tables, columns, procedure)?;
        procs.push(code)?;
    }
    Ok(procs)
}

/// The code of an application whose columns are known.
fn code_of_app(
    alloc: Global,
    app: &App,
    tables: &List<TableDef>,
    columns: &Numbering,
) -> Result<AppCode, NoMemory>
    requires declared { tables.now ≡ tables_of app.now }
    requires few { length tables.now < 2 ^ 32 }
    requires columns { columns.now ≡ column_names tables.now }
    ensures { IfOk result (λ code. code ≡ code_of app.now) }
{
    let procs = resolve_procs(alloc, tables, columns, app.procs.as_slice())?;
    Ok(AppCode {
        procs,
        columns: column_places(alloc, tables.as_slice(), columns.names())?,
    })
}

/// The code of an application, whose tables are declared and fewer than 2^32. The only refusal is out of memory.
pub fn resolve(alloc: Global, app: &App, tables: &List<TableDef>) -> Result<AppCode, NoMemory>
    requires declared { tables.now ≡ tables_of app.now }
    requires few { length tables.now < 2 ^ 32 }
    ensures { IfOk result (λ code. code ≡ code_of app.now) }
{
    let columns = column_names(alloc, tables.as_slice())?;
    code_of_app(alloc, app, tables, &columns)
}
