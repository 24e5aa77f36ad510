// What is shown of flows.
ghost use Rattle.policy_text.specs.Laws.{FlowsShown};

/// A compartment is listed after another exactly if everybody who sees it sees that one too.
pub fn flows_shown_stands()
    ensures { FlowsShown }
{}
