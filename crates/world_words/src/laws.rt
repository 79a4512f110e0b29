//! Laws of what is told: each function does nothing, and its contract is the law.
ghost use Rattle.world_words.specs.Agreeing.{FirstIsBest};

/// Of the routes of a world that agree with an address, that which is told first is its best route.
pub fn first_is_best()
    ensures { FirstIsBest }
{}
