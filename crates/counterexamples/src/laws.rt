// The model, seen as one of these stores, breaks no promise: each function carries a theorem, and does nothing else.
ghost use Rattle.counterexamples.specs.Variants.{Fits, ModelUseful};

/// It tells the same, does not leak, and changes nothing where it refuses.
pub fn frame_stands()
    ensures { Fits }
{}

/// It is useful.
pub fn model_useful_stands()
    ensures { ModelUseful }
{}
