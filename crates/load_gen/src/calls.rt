//! The calls of drawn transactions: a procedure, and its arguments from left to right.

ghost use Rattle.std.specs.Prelude.{IfOk, IsTrue, OnOk, length, ◌<◌, ◌^◌, ◌∷◌, ◌≡◌, ◌≤◌, []};
ghost use Rattle.load_gen.specs.Calling.{account, amount, argument_draws, arguments, kind_of, owner, procedure_of};
ghost use Rattle.load_gen.specs.Drawing.{draw, step, steps};
ghost use Rattle.rel_base.specs.Text.{has_no_control};

use crate::draws::Draws;
use rel_base::{List, NoMemory, Str, StrFault, Value};
use std::alloc::Global;

/// What a drawn transaction calls.
#[derive(Clone, Copy, PartialEq, Eq)]
pub enum CallKind {
    /// Money goes from one account to another.
    Pay,
    /// Money is taken from one account where two hold enough together.
    Both,
    /// An account gets as much as all accounts of an owner hold.
    Sweep,
    /// An account is made.
    Add,
    /// An account is deleted.
    Remove,
}

impl CallKind {
    /// The kind that a draw below ten stands for.
    pub fn of(drawn: u32) -> CallKind
        ensures { result ≡ kind_of drawn }
    {
        match drawn {
            0..=5 => CallKind::Pay,
            6 => CallKind::Both,
            7 => CallKind::Sweep,
            8 => CallKind::Add,
            _ => CallKind::Remove,
        }
    }

    /// The name of the procedure.
    pub fn procedure(self) -> &'static str
        ensures { result.now ≡ procedure_of self }
    {
        match self {
            CallKind::Pay => "pay",
            CallKind::Both => "both",
            CallKind::Sweep => "sweep",
            CallKind::Add => "add",
            CallKind::Remove => "remove",
        }
    }
}

/// An amount of money.
pub fn amount(money: u32) -> Value
    ensures { result ≡ amount money }
{
    Value::Int(i64::from(money))
}

/// The number of an account, by a draw.
pub fn account(drawn: u32) -> Value
    ensures { result ≡ account drawn }
{
    Value::Int(i64::from(drawn) + 1)
}

/// A text that is short and plain.
fn text(alloc: Global, bytes: &str) -> Result<Value, NoMemory>
    requires short { length bytes.now ≤ 255 }
    requires plain { IsTrue (has_no_control bytes.now) }
    ensures { IfOk result (λ made. made ≡ Value.Text bytes.now) }
{
    match Str::new(alloc, bytes) {
        Ok(text) => Ok(Value::Text(text)),
        Err(StrFault::NoMemory) => Err(NoMemory),
        Err(StrFault::TooLong) => unreachable!(),
        Err(StrFault::Control) => unreachable!(),
    }
}

/// The name of an owner, by a draw.
pub fn owner(alloc: Global, drawn: u32) -> Result<Value, NoMemory>
    ensures { IfOk result (λ made. made ≡ owner drawn) }
{
    let name = format!(in alloc; "o{drawn}")?;
    text(alloc, name.as_str())
}

/// Who pays, who is paid, and an amount below a bound.
fn payment(alloc: Global, draws: &mut Draws, bound: u32) -> Result<List<Value>, NoMemory>
    requires { 0 < bound }
    ensures args { IfOk result (λ made. made ≡ account (draw draws.old.state 1 64) ∷ account (draw draws.old.state 2 64) ∷ amount (draw draws.old.state 3 bound) ∷ []) }
    ensures moved { draws.new.state ≡ steps 3 draws.old.state }
{
    let payer = draws.draw(64);
    let payee = draws.draw(64);
    let money = draws.draw(bound);
    let values = vec![in alloc; account(payer), account(payee), amount(money)]?;
    Ok(List::from_vec(values))
}

/// An owner, and the account that gets as much as all of his hold.
fn sweep(alloc: Global, draws: &mut Draws) -> Result<List<Value>, NoMemory>
    ensures args { IfOk result (λ made. made ≡ arguments CallKind.Sweep draws.old.state) }
    ensures moved { draws.new.state ≡ steps 2 draws.old.state }
{
    let name = draws.draw(8);
    let target = draws.draw(64);
    let name = owner(alloc, name)?;
    let values = vec![in alloc; name, account(target)]?;
    Ok(List::from_vec(values))
}

/// A new account, with its owner and what it holds.
fn opening(alloc: Global, draws: &mut Draws) -> Result<List<Value>, NoMemory>
    ensures args { IfOk result (λ made. made ≡ arguments CallKind.Add draws.old.state) }
    ensures moved { draws.new.state ≡ steps 2 draws.old.state }
{
    let number = draws.draw(128);
    let name = draws.draw(8);
    let name = owner(alloc, name)?;
    let values = vec![in alloc; account(number), name, amount(100)]?;
    Ok(List::from_vec(values))
}

/// The account that is deleted.
fn removal(alloc: Global, draws: &mut Draws) -> Result<List<Value>, NoMemory>
    ensures args { IfOk result (λ made. made ≡ arguments CallKind.Remove draws.old.state) }
    ensures moved { draws.new.state ≡ steps 1 draws.old.state }
{
    let number = draws.draw(64);
    let values = vec![in alloc; account(number)]?;
    Ok(List::from_vec(values))
}

/// The arguments of a call, each drawn where it stands.
pub fn arguments(alloc: Global, kind: CallKind, draws: &mut Draws) -> Result<List<Value>, NoMemory>
    ensures args { IfOk result (λ made. made ≡ arguments kind draws.old.state) }
    ensures moved { draws.new.state ≡ steps (argument_draws kind) draws.old.state }
{
    match kind {
        CallKind::Pay => payment(alloc, draws, 40),
        CallKind::Both => payment(alloc, draws, 150),
        CallKind::Sweep => sweep(alloc, draws),
        CallKind::Add => opening(alloc, draws),
        CallKind::Remove => removal(alloc, draws),
    }
}
