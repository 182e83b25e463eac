//! The trees of an application, before any name is resolved.

use rel_base::{Boxed, Kind, List, Name, Str, Value};

/// An application: its tables and its procedures, in the order of the text.
#[derive(Drop)]
pub struct App {
    /// Whether a transaction is refused only where its edges close a cycle (`isolation exact;`), or for two edges in a row
    /// that a cycle may have.
    pub exact: bool,
    pub tables: List<TableText>,
    pub procs: List<ProcDef>,
}

/// A name, and the line on which it stands, from 1.
#[derive(Drop)]
pub struct Named {
    pub name: Name,
    pub line: u32,
}

/// A column or a parameter.
#[derive(Drop)]
pub struct ColumnText {
    pub name: Named,
    pub kind: Kind,
}

/// The text of a table's declaration.
#[derive(Drop)]
pub struct TableText {
    pub name: Named,
    pub columns: List<ColumnText>,
    pub key: List<Named>,
    pub index: List<Named>,
}

/// A procedure.
#[derive(Drop)]
pub struct ProcDef {
    pub name: Named,
    pub params: List<ColumnText>,
    pub body: List<Stmt>,
}

/// `span on COLUMN from LOW to HIGH`
#[derive(Clone, Copy)]
pub struct Span<'a> {
    pub column: &'a Named,
    pub low: &'a Option<Expr>,
    pub high: &'a Option<Expr>,
}

/// A statement.
#[derive(Drop)]
pub enum Stmt {
    /// `let NAME = VALUE;`
    Let {
        name: Named,
        value: Expr,
    },
    /// `NAME = VALUE;`
    Assign {
        name: Named,
        value: Expr,
    },
    /// `if TEST { THEN } else { OTHER }`
    If {
        test: Expr,
        then: List<Stmt>,
        other: Option<List<Stmt>>,
    },
    /// `get NAME from TABLE key (KEY) { FOUND } else { ABSENT }`
    Get {
        name: Named,
        table: Named,
        key: List<Expr>,
        found: List<Stmt>,
        absent: List<Stmt>,
    },
    /// `for NAME in TABLE span on COLUMN from LOW to HIGH { BODY }`
    For {
        name: Named,
        table: Named,
        column: Named,
        low: Option<Expr>,
        high: Option<Expr>,
        body: List<Stmt>,
    },
    /// `insert TABLE (VALUES);`
    Insert {
        table: Named,
        values: List<Expr>,
    },
    /// `update TABLE key (KEY) set CHANGES;`
    Update {
        table: Named,
        key: List<Expr>,
        changes: List<Change>,
    },
    /// `delete TABLE key (KEY);`
    Delete {
        table: Named,
        key: List<Expr>,
    },
    /// `fail TEXT;`
    Fail {
        text: Str,
    },
}

/// A column that an update sets, and its new value.
#[derive(Drop)]
pub struct Change {
    pub column: Named,
    pub value: Expr,
}

/// An expression.
#[derive(Drop)]
pub enum Expr {
    /// A literal, and its line.
    Value {
        value: Value,
        line: u32,
    },
    /// A parameter or a variable.
    Var(Named),
    /// `ROW.COLUMN`
    Field {
        row: Named,
        column: Named,
    },
    /// `now`: the time of the run, which is that of the block after which it reads the tables.
    Now {
        line: u32,
    },
    /// `not INNER`
    Not {
        inner: Boxed<Expr>,
        line: u32,
    },
    /// `-INNER`
    Neg {
        inner: Boxed<Expr>,
        line: u32,
    },
    /// `(INNER)`, which has the value of its inner expression.
    Paren {
        inner: Boxed<Expr>,
        line: u32,
    },
    /// `LEFT OP RIGHT`
    Two {
        op: Op,
        left: Boxed<Expr>,
        right: Boxed<Expr>,
    },
}

/// An operator between two expressions.
#[derive(Clone, Copy, Debug, PartialEq, Eq)]
pub enum Op {
    Or,
    And,
    Eq,
    Ne,
    Lt,
    Le,
    Gt,
    Ge,
    Add,
    Sub,
    Join,
    Mul,
    Div,
    Rem,
}
