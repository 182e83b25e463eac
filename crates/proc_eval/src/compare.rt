//! Operators that give a test, and the operators between two values.

ghost use Rattle.std.specs.Prelude.{◌≡◌, cond, Ok, Err};
ghost use Rattle.proc_syntax.specs.Values.{flag_of, not_of, and_of, or_of, two_of, has_kind};
ghost use Rattle.rel_base.specs.Value.{value_cmp, kind_of};
ghost use Rattle.proc_syntax.specs.declared.run.Stop.TheVariants as stop;
ghost use Rattle.proc_eval.specs.Gives.{Gives};

use crate::arith::{difference, join, product, quotient, remainder, sum};
use crate::fit::has_kind;
use crate::halt::Halt;
use proc_syntax::{Op, Stop};
use rel_base::Value;
use std::alloc::Global;
use std::cmp::Ordering;

/// The truth value that a value is.
pub fn flag(value: &Value) -> Result<bool, Stop>
    ensures { result ≡ flag_of value.now }
{
    match value {
        Value::Bool(flag) => Ok(*flag),
        _ => Err(Stop::IllTyped),
    }
}

/// `not value`.
pub fn negated(value: &Value) -> Result<Value, Stop>
    ensures { result ≡ not_of value.now }
{
    let holds = flag(value)?;
    Ok(Value::Bool(!holds))
}

/// How two values of one kind stand to each other.
pub fn compare(left: &Value, right: &Value) -> Result<Ordering, Stop>
    ensures { result ≡ cond (has_kind (kind_of left.now) right.now) (Ok (value_cmp left.now right.now)) (Err stop.IllTyped) }
{
    if has_kind(left.kind(), right) {
        Ok(left.cmp(right))
    } else {
        Err(Stop::IllTyped)
    }
}

/// Both of two truth values.
pub fn both(left: &Value, right: &Value) -> Result<Value, Stop>
    ensures { result ≡ and_of left.now (Ok right.now) }
{
    if flag(left)? {
        let holds = flag(right)?;
        Ok(Value::Bool(holds))
    } else {
        Ok(Value::Bool(false))
    }
}

/// One of two truth values.
pub fn either(left: &Value, right: &Value) -> Result<Value, Stop>
    ensures { result ≡ or_of left.now (Ok right.now) }
{
    if flag(left)? {
        Ok(Value::Bool(true))
    } else {
        let holds = flag(right)?;
        Ok(Value::Bool(holds))
    }
}

/// What an operator gives of two values.
pub fn two(alloc: Global, op: Op, left: &Value, right: &Value) -> Result<Value, Halt>
    ensures { Gives result (two_of op left.now right.now) }
{
    match op {
        Op::Or => Ok(either(left, right)?),
        Op::And => Ok(both(left, right)?),
        Op::Eq => Ok(Value::Bool(compare(left, right)?.is_eq())),
        Op::Ne => Ok(Value::Bool(compare(left, right)?.is_ne())),
        Op::Lt => Ok(Value::Bool(compare(left, right)?.is_lt())),
        Op::Le => Ok(Value::Bool(compare(left, right)?.is_le())),
        Op::Gt => Ok(Value::Bool(compare(left, right)?.is_gt())),
        Op::Ge => Ok(Value::Bool(compare(left, right)?.is_ge())),
        Op::Add => Ok(sum(left, right)?),
        Op::Sub => Ok(difference(left, right)?),
        Op::Join => join(alloc, left, right),
        Op::Mul => Ok(product(left, right)?),
        Op::Div => Ok(quotient(left, right)?),
        Op::Rem => Ok(remainder(left, right)?),
    }
}
