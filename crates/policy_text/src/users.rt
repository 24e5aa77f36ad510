// What is shown of the users.
ghost use Rattle.output.specs.Output.{Writes};
ghost use Rattle.policy.specs.Access.{rules_of};
ghost use Rattle.policy.specs.Views.{view_of, writes_of};
ghost use Rattle.policy_text.specs.Shown.{seen_bytes, user_bytes, users_bytes};

use super::form::Form;
use output::Output;
use policy::{Contract, Policy};
use std::io::{self, Write};

#[tactic(auto, using(crate::proofs::There::users_counted))]
pub(crate) fn write_users<F: Form, W: Write>(out: &mut Output<W>, policy: &Policy) -> io::Result<()>
    ensures { Writes out.old out.new result (users_bytes F.shape (rules_of policy.now)) }
{
    for (user, contract) in policy.contracts().iter().enumerate() {
        write_user::<F, W>(out, user, contract)?;
    }
    Ok(())
}

// A user, and the compartments of their view.
fn write_user<F: Form, W: Write>(
    out: &mut Output<W>,
    user: usize,
    contract: &Contract,
) -> io::Result<()>
    ensures { Writes out.old out.new result (user_bytes F.shape user (view_of contract.now) (writes_of contract.now)) }
{
    let writes = contract.writes();
    F::write_user(out, user, writes)?;
    write_view::<F, W>(out, user, contract.view())?;
    F::end_user(out, writes)
}

fn write_view<F: Form, W: Write>(out: &mut Output<W>, user: usize, view: &[u64]) -> io::Result<()>
    ensures { Writes out.old out.new result (seen_bytes F.shape user view.now) }
{
    for seen in view {
        F::write_seen(out, user, *seen)?;
    }
    Ok(())
}
