//! What a run has on its way.

use crate::scope::Scope;
use rel_base::Made;
use row_sets::Overlay;

/// What a run has on its way: what its expressions are evaluated in, what it wrote, the reads that it made, and the count of its steps.
#[derive(Drop)]
pub struct Run<'a> {
    pub scope: Scope<'a>,
    pub own: Overlay,
    pub made: Vec<Made>,
    pub steps: u32,
}
