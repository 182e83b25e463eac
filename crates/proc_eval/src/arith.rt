//! Operators of numbers and texts.

ghost use Rattle.std.specs.Prelude.{◌≡◌, ℤ, FitsSigned};
ghost use Rattle.std.specs.Int.{w64};
ghost use Rattle.std.specs.Option.{SomeIff, ok_or, option_map};
ghost use Rattle.rel_base.specs.declared.value.Value.TheVariants as value;
ghost use Rattle.proc_syntax.specs.declared.fault.Fault.TheVariants as fault;
ghost use Rattle.proc_syntax.specs.declared.run.Stop.TheVariants as stop;
ghost use Rattle.proc_syntax.specs.declared.tree.Op.TheVariants as op;
ghost use Rattle.proc_syntax.specs.Values.{number, negation_of, two_of};
ghost use Rattle.proc_eval.specs.Gives.{Gives};

use crate::halt::Halt;
use proc_syntax::{Fault, Stop};
use rel_base::{StrFault, Value};
use std::alloc::Global;

/// The number that was computed, where it fits 64 bits.
fn fitting(computed: Option<i64>) -> Result<Value, Stop>
    ensures exact { result ≡ ok_or (option_map value.Int computed) (stop.Fault fault.Overflow) }
    ensures means { (n : ℤ) → SomeIff computed (FitsSigned w64 n) n → result ≡ number n }
{
    match computed {
        Some(number) => Ok(Value::Int(number)),
        None => Err(Stop::Fault(Fault::Overflow)),
    }
}

/// `left + right`.
pub fn sum(left: &Value, right: &Value) -> Result<Value, Stop>
    ensures { result ≡ two_of op.Add left.now right.now }
{
    match (left, right) {
        (Value::Int(left), Value::Int(right)) => fitting(left.checked_add(*right)),
        _ => Err(Stop::IllTyped),
    }
}

/// `left - right`.
pub fn difference(left: &Value, right: &Value) -> Result<Value, Stop>
    ensures { result ≡ two_of op.Sub left.now right.now }
{
    match (left, right) {
        (Value::Int(left), Value::Int(right)) => fitting(left.checked_sub(*right)),
        _ => Err(Stop::IllTyped),
    }
}

/// `left * right`.
pub fn product(left: &Value, right: &Value) -> Result<Value, Stop>
    ensures { result ≡ two_of op.Mul left.now right.now }
{
    match (left, right) {
        (Value::Int(left), Value::Int(right)) => fitting(left.checked_mul(*right)),
        _ => Err(Stop::IllTyped),
    }
}

/// `left / right`, truncated toward 0.
pub fn quotient(left: &Value, right: &Value) -> Result<Value, Stop>
    ensures { result ≡ two_of op.Div left.now right.now }
{
    match (left, right) {
        (Value::Int(_), Value::Int(0)) => Err(Stop::Fault(Fault::ZeroDivide)),
        (Value::Int(left), Value::Int(right)) => fitting(left.checked_div(*right)),
        _ => Err(Stop::IllTyped),
    }
}

/// `left % right`, with the sign of `left`.
pub fn remainder(left: &Value, right: &Value) -> Result<Value, Stop>
    ensures { result ≡ two_of op.Rem left.now right.now }
{
    match (left, right) {
        (Value::Int(_), Value::Int(0)) => Err(Stop::Fault(Fault::ZeroDivide)),
        (Value::Int(left), Value::Int(right)) => fitting(left.checked_rem(*right)),
        _ => Err(Stop::IllTyped),
    }
}

/// `-value`.
pub fn negation(value: &Value) -> Result<Value, Stop>
    ensures { result ≡ negation_of value.now }
{
    match value {
        Value::Int(value) => fitting(value.checked_neg()),
        _ => Err(Stop::IllTyped),
    }
}

/// `left ++ right`.
pub fn join(alloc: Global, left: &Value, right: &Value) -> Result<Value, Halt>
    ensures { Gives result (two_of op.Join left.now right.now) }
{
    match (left, right) {
        (Value::Text(left), Value::Text(right)) => match left.join(alloc, right) {
            Ok(text) => Ok(Value::Text(text)),
            Err(StrFault::TooLong) => Err(Halt::Stop(Stop::Fault(Fault::TextTooLong))),
            Err(StrFault::NoMemory) => Err(Halt::NoMemory),
            Err(StrFault::Control) => unreachable!(),
        },
        _ => Err(Halt::Stop(Stop::IllTyped)),
    }
}
