//! What makes results of blocks fit to be asked, and that those of a fold are so: each the contract of a function that does nothing.

ghost use Rattle.provenance.specs.Laws.{FoldsAreTold, HistoriesAreTold, PlacesAreTold};

/// Where the numbers of blocks run from 1, and the position of each write lies between 1 and the number of its block's transactions, each
/// write stands at the place of a transaction.
pub fn places_are_told()
    ensures { PlacesAreTold }
{}

/// So it is in the results of the fold of blocks whose numbers run from 1.
pub fn folds_are_told()
    ensures { FoldsAreTold }
{}

/// The writes that the results of a chain tell are the history of the chain.
pub fn histories_are_told()
    ensures { HistoriesAreTold }
{}
