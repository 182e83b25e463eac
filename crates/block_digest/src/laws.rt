//! The laws of the codes, each the contract of a function that does nothing.

ghost use Rattle.canon_code.specs.Laws.{IsOneToOne, IsPrefixFree, ComesBack, WasWritten};
ghost use Rattle.node_model.specs.BlockCode.{outcome_code, block_code};
ghost use Rattle.block_digest.specs.Grammar.{HasOutcomeCode, HasBlockCode};
ghost use Rattle.block_digest.specs.Laws.{IsOfBare, CodesTell, CanBeWritten, IsReadBack};
ghost use Rattle.block_digest.specs.Readings.{block_at};

/// The codes of outcomes.
pub fn outcomes_have_codes()
    ensures one_to_one { IsOneToOne outcome_code HasOutcomeCode }
    ensures prefix_free { IsPrefixFree outcome_code HasOutcomeCode }
{}

/// The codes of blocks: what is written of a block of the grammar is read back, whatever follows it.
pub fn blocks_have_codes()
    ensures one_to_one { IsOneToOne block_code HasBlockCode }
    ensures prefix_free { IsPrefixFree block_code HasBlockCode }
    ensures comes_back { ComesBack block_code HasBlockCode block_at }
    ensures was_written { WasWritten block_code HasBlockCode block_at }
{}

/// What has no part in a code, and what a code tells.
pub fn codes_tell_results()
    ensures of_bare { IsOfBare }
    ensures tells { CodesTell }
    ensures written { CanBeWritten }
    ensures read_back { IsReadBack }
{}
