//! Values of rows and keys.

ghost use Rattle.std.specs.Prelude.{◌≡◌, ◌++◌, flat_map, OnOk};
ghost use Rattle.report_text.specs.Outcome.{values_text};

use crate::text::Text;
use rel_base::{NoMemory, Value};

/// Values, each after a space.
pub fn push_values(out: &mut Text, values: &[Value]) -> Result<(), NoMemory>
    ensures { OnOk result (out.new ≡ out.old ++ values_text values.now) }
{
    for value in values {
        out.push(" ")?;
        out.push_value(value)?;
    }
    Ok(())
}
