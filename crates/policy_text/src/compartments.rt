// What is shown of the compartments.
ghost use Rattle.std.specs.Prelude.{◌<◌};
ghost use Rattle.output.specs.Output.{Writes};
ghost use Rattle.policy.specs.Access.{compartments_of, rules_of};
ghost use Rattle.policy_text.specs.Shown.{compartment_bytes, compartments_bytes, flow_bytes, flow_choice};

use super::form::Form;
use output::Output;
use policy::Policy;
use std::io::{self, Write};

#[tactic(auto, using(crate::proofs::There::compartments_counted))]
pub(crate) fn write_compartments<F: Form, W: Write>(
    out: &mut Output<W>,
    policy: &Policy,
) -> io::Result<()>
    ensures { Writes out.old out.new result
        (compartments_bytes F.shape (rules_of policy.now) (compartments_of policy.now)) }
{
    for (compartment, place) in policy.places().iter().enumerate() {
        write_compartment::<F, W>(out, policy, compartment, place.capacity)?;
    }
    Ok(())
}

// A compartment, and those to which its rows may flow.
fn write_compartment<F: Form, W: Write>(
    out: &mut Output<W>,
    policy: &Policy,
    from: usize,
    capacity: usize,
) -> io::Result<()>
    requires { from < compartments_of policy.now }
    ensures { Writes out.old out.new result
        (compartment_bytes F.shape (rules_of policy.now) (compartments_of policy.now) from capacity) }
{
    F::write_compartment(out, from, capacity)?;
    write_flows::<F, W>(out, policy, from)?;
    F::end_compartment(out)
}

// The compartments to which the rows of one may flow.
#[tactic(auto, using(crate::proofs::There::compartments_counted))]
fn write_flows<F: Form, W: Write>(
    out: &mut Output<W>,
    policy: &Policy,
    from: usize,
) -> io::Result<()>
    requires { from < compartments_of policy.now }
    ensures { Writes out.old out.new result
        (flow_bytes F.shape (rules_of policy.now) (compartments_of policy.now) from) }
{
    for to in 0..policy.places().len() {
        write_flow::<F, W>(out, policy, from, to)?;
    }
    Ok(())
}

// One of them, where the form shows it and the policy lets rows flow there.
fn write_flow<F: Form, W: Write>(
    out: &mut Output<W>,
    policy: &Policy,
    from: usize,
    to: usize,
) -> io::Result<()>
    requires from { from < compartments_of policy.now }
    requires to { to < compartments_of policy.now }
    ensures { Writes out.old out.new result (flow_choice F.shape (rules_of policy.now) from to) }
{
    if F::shows(from, to) && policy.may_flow(from as u64, to as u64) {
        return F::write_flow(out, from, to);
    }
    Ok(())
}
