//! Why an application, what arrives, a schedule, a query, an order, digests or a proof is refused, and the line that says so.

ghost use Rattle.std.specs.Prelude.{◌≡◌, ◌++◌, IfOk, OnOk};
ghost use Rattle.bcdb.specs.Refusals.{arrivals_refusal, digests_refusal, fault_text, kind_text, numbered_refusal, order_refusal, place_text, proof_refusal, query_refusal, refusal_line, schedule_refusal, short_refusal};
ghost use Rattle.bcdb.specs.RowsAnswer.{ask_refusal};

use literals::push_number;
use proc_check::BadKind;
use provenance::QueryFault;
use query_plan::AskFault;
use query_text::fault_name;
use rel_base::{List, NoMemory};
use std::alloc::Global;

/// What is wrong with an application.
#[derive(Clone, Copy, PartialEq, Eq)]
pub enum RefusalKind {
    /// It has more bytes than an application may have.
    TooLong,
    /// It is not in the grammar.
    Syntax,
    /// It is in the grammar, but not well typed.
    Bad(BadKind),
}

/// Why an application is refused: the line on which it is wrong, from 1, and what is wrong there. Of one that is too long the line
/// is 0.
#[derive(Clone, Copy, PartialEq, Eq)]
pub struct Refusal {
    pub line: u32,
    pub kind: RefusalKind,
}

/// Why what arrives is refused, or what a client submits: the number of the node or client, and the first line of its file that has a fault.
#[derive(Clone, Copy, PartialEq, Eq)]
pub struct BadArrivals {
    pub node: u32,
    pub line: u64,
}

/// Why the digests of peers are refused: the peer, and the first bad line of its file, which is 0 where the file is too long.
#[derive(Clone, Copy, PartialEq, Eq)]
pub struct BadDigests {
    pub peer: u32,
    pub line: u64,
}

/// Why an application with too many bytes is refused.
pub const TOO_LONG: Refusal = Refusal {
    line: 0,
    kind: RefusalKind::TooLong,
};

// The word for what is wrong.
fn kind_text(kind: RefusalKind) -> &'static [u8]
    ensures { result.now ≡ kind_text kind }
{
    match kind {
        RefusalKind::TooLong => b"TooLong",
        RefusalKind::Syntax => b"Syntax",
        RefusalKind::Bad(BadKind::UnknownName) => b"UnknownName",
        RefusalKind::Bad(BadKind::NameTwice) => b"NameTwice",
        RefusalKind::Bad(BadKind::WrongKind) => b"WrongKind",
        RefusalKind::Bad(BadKind::WrongCount) => b"WrongCount",
        RefusalKind::Bad(BadKind::KeySet) => b"KeySet",
        RefusalKind::Bad(BadKind::NoIndex) => b"NoIndex",
        RefusalKind::Bad(BadKind::Limit) => b"Limit",
    }
}

// Writes some bytes at the end.
fn push(out: &mut Vec<u8>, bytes: &[u8]) -> Result<(), NoMemory>
    ensures { OnOk result (out.new.items ≡ out.old.items ++ bytes.now) }
{
    out.extend_from_slice(bytes)?;
    Ok(())
}

// Writes what follows the word for an application at the end.
fn push_place(out: &mut Vec<u8>, refusal: Refusal) -> Result<(), NoMemory>
    ensures { OnOk result (out.new.items ≡ out.old.items ++ place_text refusal) }
{
    push(out, b" ")?;
    push_number(out, u64::from(refusal.line))?;
    push(out, b" ")?;
    push(out, kind_text(refusal.kind))?;
    push(out, b"\n")
}

/// The line that says why an application is refused.
pub fn refusal_line(alloc: Global, refusal: Refusal) -> Result<List<u8>, NoMemory>
    ensures { IfOk result (λ bytes. bytes ≡ refusal_line refusal) }
{
    let mut out = b"refused application".to_vec(alloc)?;
    push_place(&mut out, refusal)?;
    Ok(List::from_vec(out))
}

// The word for what is wrong with a query.
fn fault_text(fault: QueryFault) -> &'static [u8]
    ensures { result.now ≡ fault_text fault }
{
    match fault {
        QueryFault::NoMemory => b"NoMemory",
        QueryFault::BadQuery => b"BadQuery",
        QueryFault::UnknownTable => b"UnknownTable",
        QueryFault::BadKey => b"BadKey",
        QueryFault::BadRange => b"BadRange",
    }
}

/// The line that says why a query is refused.
pub fn query_refusal(alloc: Global, fault: QueryFault) -> Result<List<u8>, NoMemory>
    ensures { IfOk result (λ bytes. bytes ≡ query_refusal fault) }
{
    let mut out = b"refused query ".to_vec(alloc)?;
    push(&mut out, fault_text(fault))?;
    push(&mut out, b"\n")?;
    Ok(List::from_vec(out))
}

/// The line that says why a query of the tables is refused.
pub fn ask_refusal(alloc: Global, fault: AskFault) -> Result<List<u8>, NoMemory>
    ensures { IfOk result (λ bytes. bytes ≡ ask_refusal fault) }
{
    let mut out = b"refused query ".to_vec(alloc)?;
    push(&mut out, fault_name(fault).as_bytes())?;
    push(&mut out, b"\n")?;
    Ok(List::from_vec(out))
}

// The line that refuses something with a number.
fn numbered_refusal(alloc: Global, what: &[u8], number: u64) -> Result<List<u8>, NoMemory>
    ensures { IfOk result (λ bytes. bytes ≡ numbered_refusal what.now number) }
{
    let mut out = b"refused ".to_vec(alloc)?;
    push(&mut out, what)?;
    push(&mut out, b" ")?;
    push_number(&mut out, number)?;
    push(&mut out, b"\n")?;
    Ok(List::from_vec(out))
}

/// The line that says at which node what arrives is wrong, and in which line of its file.
pub fn arrivals_refusal(alloc: Global, bad: BadArrivals) -> Result<List<u8>, NoMemory>
    ensures { IfOk result (λ bytes. bytes ≡ arrivals_refusal bad) }
{
    let mut what = b"arrivals ".to_vec(alloc)?;
    push_number(&mut what, u64::from(bad.node))?;
    numbered_refusal(alloc, &what, bad.line)
}

/// The line that says in which line a schedule is wrong.
pub fn schedule_refusal(alloc: Global, line: u64) -> Result<List<u8>, NoMemory>
    ensures { IfOk result (λ bytes. bytes ≡ schedule_refusal line) }
{
    numbered_refusal(alloc, b"schedule line", line)
}

/// The line that says how many blocks a schedule seals that does not seal all.
pub fn short_refusal(alloc: Global, sealed: u64) -> Result<List<u8>, NoMemory>
    ensures { IfOk result (λ bytes. bytes ≡ short_refusal sealed) }
{
    numbered_refusal(alloc, b"schedule short", sealed)
}

/// The line that says how many blocks an order needs that may not have so many.
pub fn order_refusal(alloc: Global, needed: u64) -> Result<List<u8>, NoMemory>
    ensures { IfOk result (λ bytes. bytes ≡ order_refusal needed) }
{
    numbered_refusal(alloc, b"order", needed)
}

/// The line that says the file of which peer is refused, and in which line.
pub fn digests_refusal(alloc: Global, bad: BadDigests) -> Result<List<u8>, NoMemory>
    ensures { IfOk result (λ bytes. bytes ≡ digests_refusal bad) }
{
    let mut what = b"digests ".to_vec(alloc)?;
    push_number(&mut what, u64::from(bad.peer))?;
    numbered_refusal(alloc, &what, bad.line)
}

/// The line that says in which line a proof file is refused.
pub fn proof_refusal(alloc: Global, line: u64) -> Result<List<u8>, NoMemory>
    ensures { IfOk result (λ bytes. bytes ≡ proof_refusal line) }
{
    numbered_refusal(alloc, b"proof", line)
}
