//! Laws of the definition, each the contract of a function that does nothing.

ghost use Rattle.load_gen.specs.Laws.{AppIsSound, EachInItsBlock, FirstDraws, HeightsLieBefore};

/// The first draw of load 0 is 335,903,614, so its first drawn transaction pays; that of load 1 is 1,817,669,548, so its first adds.
pub fn first_draws()
    ensures { FirstDraws }
{}

/// Each drawn transaction stands in the block that its height is reckoned from.
pub fn each_in_its_block()
    ensures { EachInItsBlock }
{}

/// And it reads the tables after a block before that one, so none is refused for its height.
pub fn heights_lie_before()
    ensures { HeightsLieBefore }
{}

/// The application of a load is accepted: its text is in the grammar, and the check meets no fault in it.
pub fn app_is_sound()
    ensures { AppIsSound }
{}
