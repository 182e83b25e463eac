//! Texts that grow at their end.

ghost use Rattle.std.specs.Prelude.{◌≡◌, ◌++◌, ℕ, List, OnOk, flat_map, codes};
ghost use Rattle.rel_base.specs.declared.value.Value.TheVariants as kinds;
ghost use Rattle.proc_print.specs.Printed.{in_parens, listed, value_text};

use literals::{push_bytes, push_int, push_text};
use rel_base::{NoMemory, Value};

/// What has a text of its own.
pub trait Printed: Sized {
    ghost text: { Self → List ℕ };

    /// Writes the text at the end.
    fn push_to(&self, out: &mut Vec<u8>) -> Result<(), NoMemory>
        ensures { OnOk result (out.new.items ≡ out.old.items ++ text self.now) };
}

/// Writes some bytes at the end.
pub fn push(out: &mut Vec<u8>, bytes: &[u8]) -> Result<(), NoMemory>
    ensures { OnOk result (out.new.items ≡ out.old.items ++ bytes.now) }
{
    out.extend_from_slice(bytes)?;
    Ok(())
}

/// Writes texts at the end, a comma before each.
fn push_more<T: Printed>(out: &mut Vec<u8>, items: &[T]) -> Result<(), NoMemory>
    ensures { OnOk result (out.new.items ≡ out.old.items ++ flat_map (λ y. codes ", " ++ T.text y) items.now) }
{
    for item in items {
        push(out, b", ")?;
        item.push_to(out)?;
    }
    Ok(())
}

/// Writes texts at the end, a comma after each but the last.
pub fn push_listed<T: Printed>(out: &mut Vec<u8>, items: &[T]) -> Result<(), NoMemory>
    ensures { OnOk result (out.new.items ≡ out.old.items ++ listed T.text items.now) }
{
    match items {
        [] => Ok(()),
        [first, rest @ ..] => {
            first.push_to(out)?;
            push_more(out, rest)
        }
    }
}

/// Writes texts in parentheses at the end, a comma after each but the last.
pub fn push_in_parens<T: Printed>(out: &mut Vec<u8>, items: &[T]) -> Result<(), NoMemory>
    ensures { OnOk result (out.new.items ≡ out.old.items ++ in_parens T.text items.now) }
{
    push(out, b"(")?;
    push_listed(out, items)?;
    push(out, b")")
}

/// Writes `true` or `false` at the end.
fn push_bool(out: &mut Vec<u8>, flag: bool) -> Result<(), NoMemory>
    ensures { OnOk result (out.new.items ≡ out.old.items ++ value_text (kinds.Bool flag)) }
{
    if flag {
        push(out, b"true")
    } else {
        push(out, b"false")
    }
}

/// Writes a literal at the end.
pub fn push_value(out: &mut Vec<u8>, value: &Value) -> Result<(), NoMemory>
    ensures { OnOk result (out.new.items ≡ out.old.items ++ value_text value.now) }
{
    match value {
        Value::Int(number) => push_int(out, *number),
        Value::Text(text) => push_text(out, text.as_str()),
        Value::Bool(flag) => push_bool(out, *flag),
        Value::Bytes(bytes) => push_bytes(out, bytes.as_slice()),
    }
}
