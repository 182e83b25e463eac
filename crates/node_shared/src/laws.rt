//! Laws, each the contract of a function that does nothing.

ghost use Rattle.node_shared.specs.Laws.{TurnsFindOwn};

/// What others do between two turns leaves a pass its own.
pub fn turns_find_own()
    ensures { TurnsFindOwn }
{}
