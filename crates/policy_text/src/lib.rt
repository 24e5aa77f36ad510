//! A policy for people: who sees what, who writes where, and where rows may flow, written to an output.
#![tactic(auto)]

ghost use Rattle.std.specs.Prelude.{◌≡◌, IfOk};
ghost use Rattle.std.specs.String.{string_bytes};
ghost use Rattle.output.specs.Output.{Writes};
ghost use Rattle.policy.specs.Access.{compartments_of, rules_of};
ghost use Rattle.policy_text.specs.Shown.{policy_bytes, table_bytes, graph_bytes};

mod compartments;
mod form;
pub mod laws;
#[cfg(test)]
mod tests;
mod users;

use compartments::write_compartments;
use form::{Form, Graph, Table};
use output::Output;
use policy::Policy;
use std::alloc::{AllocError, Global};
use std::io::{self, Write};
use users::write_users;

/// The table as a text of its own. Only memory can fail, since all that is written is text.
pub fn table(heap: Global, policy: &Policy) -> Result<String, AllocError>
    ensures { IfOk result (λ text.
        string_bytes text ≡ table_bytes (rules_of policy.now) (compartments_of policy.now)) }
{
    let mut out = Output::new(Vec::new(heap));
    write_table(&mut out, policy).or(Err(AllocError))?;
    String::from_utf8(out.into_inner()).or(Err(AllocError))
}

/// The graph as a text of its own. Only memory can fail, since all that is written is text.
pub fn graph(heap: Global, policy: &Policy) -> Result<String, AllocError>
    ensures { IfOk result (λ text.
        string_bytes text ≡ graph_bytes (rules_of policy.now) (compartments_of policy.now)) }
{
    let mut out = Output::new(Vec::new(heap));
    write_graph(&mut out, policy).or(Err(AllocError))?;
    String::from_utf8(out.into_inner()).or(Err(AllocError))
}

/// Writes a line for each user, then one for each compartment.
pub fn write_table<W: Write>(out: &mut Output<W>, policy: &Policy) -> io::Result<()>
    ensures { Writes out.old out.new result (table_bytes (rules_of policy.now) (compartments_of policy.now)) }
{
    write_policy::<Table, W>(out, policy)
}

/// Writes a graph for Graphviz: a node for each user and each compartment, and edges for who writes where, who sees
/// what, and where rows may flow.
pub fn write_graph<W: Write>(out: &mut Output<W>, policy: &Policy) -> io::Result<()>
    ensures { Writes out.old out.new result (graph_bytes (rules_of policy.now) (compartments_of policy.now)) }
{
    write_policy::<Graph, W>(out, policy)
}

#[tactic(auto, using(output::proofs::Chains::all_then, output::proofs::Chains::part_then))]
fn write_policy<F: Form, W: Write>(out: &mut Output<W>, policy: &Policy) -> io::Result<()>
    ensures { Writes out.old out.new result (policy_bytes F.shape (rules_of policy.now) (compartments_of policy.now)) }
{
    F::begin(out)?;
    write_users::<F, W>(out, policy)?;
    write_compartments::<F, W>(out, policy)?;
    F::end(out)
}
