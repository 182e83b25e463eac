//! Checked applications.

ghost use Rattle.std.specs.Prelude.{◌≡◌, ◌≤◌, All, None, IfOk, IfErr, Ok, length};
ghost use Rattle.proc_code.specs.Resolved.{code_of};
ghost use Rattle.proc_syntax.specs.Declaring.{tables_of};
ghost use Rattle.proc_syntax.specs.Call.{call_fault};
ghost use Rattle.proc_check.specs.Apps.{walk_app, first_fault};
ghost use Rattle.proc_check.specs.Gives.{IsFirst};
ghost use Rattle.proc_check.specs.Sizes.{IsSmall};

use crate::fault::CheckFault;
use crate::procedures::check_procedures;
use crate::tables::check_tables;
use proc_code::{AppCode, resolve};
use proc_eval::call::call_fault;
use proc_syntax::{App, CallFault, Tx, tables_of};
use rel_base::{List, TableDef};
use std::alloc::Global;

/// An application that is well typed, the declarations of its tables, and its code, in which the names are resolved.
pub struct Checked {
    app: App,
    tables: List<TableDef>,
    code: AppCode,
    ghost well_typed: { walk_app app ≡ Ok tt },
    ghost declared: { tables ≡ tables_of app },
    ghost resolved: { code ≡ code_of app },
}

impl Drop for Checked {
    fn drop(self) {
        let Checked {
            app: _,
            tables: _,
            code: _,
        } = self;
    }
}

/// Checks an application, up to its first fault, and resolves its names.
#[tactic(auto, using(crate::proofs::Bounds::few_enough))]
pub fn check(alloc: Global, app: App) -> Result<Checked, CheckFault>
    ensures ok { IfOk result (λ checked. checked.app ≡ app) }
    ensures fine { IfOk result (λ checked. first_fault app ≡ None) }
    ensures bad { IfErr result (λ fault. IsFirst fault (first_fault app)) }
{
    check_tables(app.tables.as_slice())?;
    check_procedures(alloc, app.tables.as_slice(), app.procs.as_slice())?;
    let tables = tables_of(alloc, &app)?;
    let code = resolve(alloc, &app, &tables)?;
    Ok(Checked { app, tables, code })
}

impl Checked {
    /// The application, in which the walk meets no fault.
    pub fn app(&self) -> &App
        ensures app { result.now ≡ self.now.app }
        ensures fine { first_fault self.now.app ≡ None }
    {
        &self.app
    }

    /// The declarations of its tables, with the names of key and index as the numbers of columns. There are at most 64, each of at
    /// most 32 columns with at most 8 in its key.
    #[tactic(auto, using(crate::proofs::Bounds::few_tables, crate::proofs::Bounds::small_tables))]
    pub fn tables(&self) -> &List<TableDef>
        ensures tables { result.now ≡ tables_of self.now.app }
        ensures few { length (tables_of self.now.app) ≤ 64 }
        ensures small { All IsSmall (tables_of self.now.app) }
    {
        &self.tables
    }

    /// Its procedures with the numbers of variables, tables and columns for their names. A run of it is a run of the application.
    pub fn code(&self) -> &AppCode
        ensures { result.now ≡ code_of self.now.app }
    {
        &self.code
    }

    /// Why a call cannot begin, where it cannot.
    pub fn call_fault(&self, tx: &Tx) -> Option<CallFault>
        ensures { result ≡ call_fault self.now.app tx.now }
    {
        call_fault(&self.app, tx)
    }
}
