//! A market: a program that makes a policy, lends memory to a store, and uses it.
#![tactic(auto)]

use anyhow::Result;
use store::{KeyRange, Policy, Query, Row, View};

const GOODS: KeyRange = KeyRange { from: 0, to: 99 };

fn main(rt: HostRuntime) -> Result<()> {
    // User 0 writes the prices, compartment 0, which all see. Users 1 and 2 have a stall each, which nobody else sees.
    let views = [view(&[0], 0), view(&[0, 1], 1), view(&[0, 2], 2)];
    let policy = Policy::from_views(&views, &[8, 8, 8])?;
    let mut memory = vec![in rt.alloc(); 0; policy.memory_length()]?;
    let mut row = [0; 64];
    store::open(&policy, &mut memory)?;
    store::write(&policy, &mut memory, 0, Row { key: 1, amount: 80 })?;
    store::write(&policy, &mut memory, 0, Row { key: 2, amount: 95 })?;
    let total = Query::Total { range: GOODS };
    let before = store::ask(&policy, &mut memory, &mut row, 2, total)?;
    // User 1 copies the prices to their stall, and adds one of their own. Asked again, user 2 is told nothing of it:
    // their answer is known, and no row is examined.
    store::copy(&policy, &mut memory, 1, 0, GOODS)?;
    store::write(&policy, &mut memory, 1, Row { key: 3, amount: 70 })?;
    let again = store::ask(&policy, &mut memory, &mut row, 2, total)?;
    let own = store::ask(&policy, &mut memory, &mut row, 1, total)?;
    let refused = store::copy(&policy, &mut memory, 2, 1, GOODS);
    println!(rt; "{before:?}\n{again:?}\n{own:?}\n{refused:?}")?;
    Ok(())
}

fn view(sees: &[u64], writes: u64) -> View<'_> {
    View { sees, writes }
}
