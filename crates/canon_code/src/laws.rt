//! The laws of the codes, each the contract of a function that does nothing.

ghost use Rattle.canon_code.specs.Laws.{IsOneToOne, IsPrefixFree, ComesBack, WasWritten};
ghost use Rattle.canon_code.specs.Values.{value_code, HasValueCode, value_at};
ghost use Rattle.canon_code.specs.Rows.{row_code, HasRowCode, row_at};
ghost use Rattle.canon_code.specs.Writes.{write_code, HasWriteCode, write_at};

/// The codes of values.
pub fn values_have_codes()
    ensures one_to_one { IsOneToOne value_code HasValueCode }
    ensures prefix_free { IsPrefixFree value_code HasValueCode }
    ensures comes_back { ComesBack value_code HasValueCode value_at }
    ensures was_written { WasWritten value_code HasValueCode value_at }
{}

/// The codes of rows and keys.
pub fn rows_have_codes()
    ensures one_to_one { IsOneToOne row_code HasRowCode }
    ensures prefix_free { IsPrefixFree row_code HasRowCode }
    ensures comes_back { ComesBack row_code HasRowCode row_at }
    ensures was_written { WasWritten row_code HasRowCode row_at }
{}

/// The codes of writes.
pub fn writes_have_codes()
    ensures one_to_one { IsOneToOne write_code HasWriteCode }
    ensures prefix_free { IsPrefixFree write_code HasWriteCode }
    ensures comes_back { ComesBack write_code HasWriteCode write_at }
    ensures was_written { WasWritten write_code HasWriteCode write_at }
{}
