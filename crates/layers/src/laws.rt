//! Laws of the first entry that decides and of layers that grow, each the contract of a function that does nothing.
ghost use Rattle.layers.specs.Halving.{GrowthIsDetermined};
ghost use Rattle.layers.specs.Layers.{LaterFirstsAreFirst};

/// Where none of the first n entries decides a key, the first from n on is the first of all.
pub fn later_firsts_are_first()
    ensures { LaterFirstsAreFirst }
{}

/// Which layers become one with an added entry is determined, and so are the layers after it.
pub fn growth_is_determined()
    ensures { GrowthIsDetermined }
{}
