// The calls follow the model: each function carries theorems, and does nothing else.
ghost use Rattle.store.specs.Simulation.{OpenHolds, ServeFollows, RefusalLeaves};

/// Opened memory holds the empty state.
pub fn open_stands()
    ensures { OpenHolds }
{}

/// Any request follows the model.
pub fn serve_stands()
    ensures follows { ServeFollows }
    ensures refusals { RefusalLeaves }
{}
