// The laws of policies: each function carries a theorem, and does nothing else.
ghost use Rattle.policy.specs.Laws.{PoliciesRefusedLowest, PoliciesValid, ReadsRules, FlowsBothWays, FlowsDown, CompartmentsApart};

/// A policy is refused at the lowest place at fault, else for the lowest user with a bad view.
pub fn judged_lowest_stands()
    ensures { PoliciesRefusedLowest }
{}

/// Every policy is valid.
pub fn policies_valid_stands()
    ensures { PoliciesValid }
{}

/// A policy has the rules of the numbers from which it was read.
pub fn reads_rules_stands()
    ensures { ReadsRules }
{}

/// Rows may flow from a to b exactly if everybody who sees b sees a.
pub fn flows_both_ways_stands()
    ensures { FlowsBothWays }
{}

/// Rows may flow from a compartment to itself, and on to where they may flow from there.
pub fn flows_down_stands()
    ensures { FlowsDown }
{}

/// Compartments lie apart in memory, before the caches.
pub fn compartments_apart_stands()
    ensures { CompartmentsApart }
{}
