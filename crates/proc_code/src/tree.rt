//! The trees of procedures whose names are resolved.

use proc_syntax::Op;
use rel_base::{Boxed, Kind, List, Name, Str, Value};

/// The procedures of an application, and where the columns of its tables stand.
#[derive(Drop)]
pub struct AppCode {
    pub procs: List<ProcCode>,
    /// For each name of a column, by its number, and each table the number of the table's column of that name.
    pub columns: List<List<Option<usize>>>,
}

/// A parameter: the number of its variable, and the kind of its arguments.
#[derive(Drop)]
pub struct Param {
    pub slot: usize,
    pub kind: Kind,
}

/// A procedure.
#[derive(Drop)]
pub struct ProcCode {
    pub name: Name,
    /// How many variables it has. They are numbered from 0.
    pub slots: usize,
    pub params: List<Param>,
    pub body: List<Action>,
}

/// A statement. A variable is given by its number, its slot. So is a table; where no table has the name, the number is that of no
/// table, the number of all tables. A column is given by its number in the table, where the table has such a column.
#[derive(Drop)]
pub enum Action {
    /// The variable gets the value.
    Set {
        slot: usize,
        value: Term,
    },
    /// One block where the test holds, and another where it does not.
    If {
        test: Term,
        then: List<Action>,
        other: List<Action>,
    },
    /// One block where the key has a row, which the variable then holds, and another where it has none.
    Get {
        slot: usize,
        table: u32,
        key: List<Term>,
        found: List<Action>,
        absent: List<Action>,
    },
    /// A block for each row of a span, which the variable then holds.
    For {
        slot: usize,
        table: u32,
        column: Option<usize>,
        low: Option<Term>,
        high: Option<Term>,
        body: List<Action>,
    },
    Insert {
        table: u32,
        values: List<Term>,
    },
    Update {
        table: u32,
        key: List<Term>,
        settings: List<Setting>,
    },
    Delete {
        table: u32,
        key: List<Term>,
    },
    Fail {
        text: Str,
    },
}

/// A column that an update sets, and its new value.
#[derive(Drop)]
pub struct Setting {
    pub column: Option<usize>,
    pub value: Term,
}

/// An expression.
#[derive(Drop)]
pub enum Term {
    Value(Value),
    /// What the variable stands for. A name that never stands for anything has the number of no variable, the number of all.
    Var(usize),
    /// The value that the row in the variable has in the column of a name, by the name's number.
    Field {
        slot: usize,
        column: usize,
    },
    /// The time of the run.
    Now,
    Not(Boxed<Term>),
    Neg(Boxed<Term>),
    Two {
        op: Op,
        left: Boxed<Term>,
        right: Boxed<Term>,
    },
}
