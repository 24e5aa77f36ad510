// What it is to ask: each function carries theorems, and does nothing else.
ghost use Rattle.memory_query.specs.Alike.{RestDoesNotShow};
ghost use Rattle.memory_query.specs.Stay.{CompartmentsStay};
ghost use Rattle.memory_query.specs.Tie.{QueriesAsModel, RefusalsLeave};

/// A query does as the model.
pub fn asks_as_model_stands()
    ensures { QueriesAsModel }
{}

/// A refusal leaves memory and the answer row as they were.
pub fn refusals_leave_stands()
    ensures { RefusalsLeave }
{}

/// What a user does not see does not show.
pub fn rest_does_not_show_stands()
    ensures { RestDoesNotShow }
{}

/// A query changes no compartment.
pub fn compartments_stay_stands()
    ensures { CompartmentsStay }
{}
