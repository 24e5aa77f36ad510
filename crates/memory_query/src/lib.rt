//! A query answered over the store's lent memory: from the user's cache, or worked out of what the user sees.
#![tactic(auto)]

ghost use Rattle.std.specs.Prelude.{◌≡◌, ◌+◌, ◌≤◌, length};
ghost use Rattle.policy.specs.Access.{memory_length};
ghost use Rattle.memory_query.specs.AskResult.{inquiry_of, check_told, inquiry_result, ask_result};

use base::{COMPARTMENTS, Refusal};
use inquiry::CheckedQuery;
use policy::Policy;
use query::{Outcome, Query, Scope};
use storage::Storage;

mod answers;
mod inquiry;
pub mod laws;
mod places;
mod storage;
mod views;

/// Answers a user's query. Refused are, in this order: memory that is too short, an unknown user, an answer row that is
/// too short, and what is out of bounds in the user's view. A refusal leaves memory and the answer row as they were.
pub fn ask(
    policy: &Policy,
    memory: &mut [u64],
    row: &mut [u64],
    user: usize,
    query: Query,
) -> Result<Outcome, Refusal>
    ensures told { result ≡ (ask_result policy.now memory.old row.old user query).told }
    ensures after { memory.new ≡ (ask_result policy.now memory.old row.old user query).memory }
    ensures lent { row.new ≡ (ask_result policy.now memory.old row.old user query).row }
{
    policy.check_length(memory)?;
    let Some((contract, at)) = policy.contract(user).zip(policy.cache(user)) else {
        return Err(Refusal::NoUser { user });
    };
    let scope = Scope::of(contract, query);
    let mut versions = [0; COMPARTMENTS];
    let fault = Storage { policy, memory }.survey(contract, &mut versions);
    check(scope.needed(policy), row.len(), fault)?;
    let versions = &versions[..contract.view().len()];
    let inquiry = CheckedQuery {
        query,
        scope,
        versions,
        at,
    };
    find_or_work_out(policy, memory, row, &inquiry)
}

// Refused are a row shorter than is needed, then what is out of bounds; neither matters where no row is needed.
fn check(needed: Option<usize>, length: usize, fault: Option<usize>) -> Result<(), Refusal>
    ensures { result ≡ check_told length needed fault }
{
    let Some(needed) = needed else {
        return Ok(());
    };
    if length < needed {
        return Err(Refusal::ShortRow { length });
    }
    let Some(place) = fault else {
        return Ok(());
    };
    Err(Refusal::OutOfBounds { place })
}

// Answers from the cache, with no row examined and memory as it was; or works it out and keeps it.
fn find_or_work_out(
    policy: &Policy,
    memory: &mut [u64],
    row: &mut [u64],
    inquiry: &CheckedQuery,
) -> Result<Outcome, Refusal>
    requires long { memory_length policy.now ≤ length memory.old }
    requires cache { inquiry.now.at + 192 ≤ length memory.old }
    ensures told { result ≡ (inquiry_result policy.now memory.old row.old (inquiry_of inquiry.now)).told }
    ensures after { memory.new ≡ (inquiry_result policy.now memory.old row.old (inquiry_of inquiry.now)).memory }
    ensures lent { row.new ≡ (inquiry_result policy.now memory.old row.old (inquiry_of inquiry.now)).row }
{
    let storage = Storage { policy, memory };
    if let Some(kept) = inquiry.look_up(memory) {
        return storage.recall(inquiry, kept, row);
    }
    let outcome = storage.work_out(inquiry, row)?;
    inquiry.keep(memory, outcome.answered.into());
    Ok(outcome)
}

#[cfg(test)]
mod tests {
    use super::*;
    use query::AnswerSummary;
    use rows::KeyRange;

    // One user, who sees compartments 2 and 0 of three, of 30 and 10 rows: they begin at 64 and 0, the cache at 126.
    fn policy() -> Result<Policy, Refusal> {
        let mut numbers = [0; 23];
        numbers[0] = 1;
        numbers[1] = 3;
        numbers[2] = 2;
        numbers[3] = 2;
        numbers[19] = 2;
        numbers[20] = 10;
        numbers[21] = 20;
        numbers[22] = 30;
        Policy::read(&numbers, 4096)
    }

    const ALL: KeyRange = KeyRange {
        from: 0,
        to: u32::MAX,
    };

    const TOTAL: Query = Query::Total { range: ALL };

    const UNSEEN: Query = Query::Shared {
        a: 0,
        b: 1,
        range: ALL,
    };

    // A row in each of the two.
    fn fill(memory: &mut [u64; 318]) {
        memory[1] = 1;
        memory[2] = 5;
        memory[3] = 10;
        memory[65] = 1;
        memory[66] = 5;
        memory[67] = 70;
    }

    fn told(
        memory: &mut [u64],
        row: &mut [u64],
        user: usize,
        query: Query,
    ) -> Result<Outcome, Refusal> {
        // With `?` the check could not build a proof.
        match policy() {
            Ok(policy) => ask(&policy, memory, row, user, query),
            Err(refusal) => Err(refusal),
        }
    }

    // Two rows, 80 in all.
    fn total(examined: usize) -> Result<Outcome, Refusal> {
        Ok(Outcome {
            answered: AnswerSummary::Total {
                rows: 2,
                amount: 80,
            },
            examined,
        })
    }

    #[test]
    fn keeps_what_it_works_out(rt: HostRuntime) {
        let mut memory = [0; 318];
        let mut row = [7; 112];
        fill(&mut memory);
        assert_eq!(rt; told(&mut memory, &mut row, 0, TOTAL), total(2));
        assert_eq!(rt; told(&mut memory, &mut row, 0, TOTAL), total(0));
        memory[64] = 1;
        assert_eq!(rt; told(&mut memory, &mut row, 0, TOTAL), total(2));
        assert!(rt; row == [7; 112]);
    }

    // Compartments 0 and 2 are out of bounds, and so is 1, which the user does not see.
    fn damage(memory: &mut [u64; 318]) {
        memory[1] = 11;
        memory[22] = 1 << 40;
        memory[64] = 1 << 40;
    }

    #[test]
    fn refuses_before_it_looks(rt: HostRuntime) {
        let mut memory = [0; 318];
        damage(&mut memory);
        let short = told(&mut [0; 317], &mut [], 1, TOTAL);
        assert_eq!(rt; short, Err(Refusal::OutOfBounds { place: 317 }));
        let nobody = told(&mut memory, &mut [], 1, TOTAL);
        assert_eq!(rt; nobody, Err(Refusal::NoUser { user: 1 }));
        let little = told(&mut memory, &mut [0; 111], 0, TOTAL);
        assert_eq!(rt; little, Err(Refusal::ShortRow { length: 111 }));
    }

    #[test]
    fn finds_the_lowest_damage(rt: HostRuntime) {
        let mut memory = [0; 318];
        damage(&mut memory);
        let damaged = told(&mut memory, &mut [0; 112], 0, TOTAL);
        assert_eq!(rt; damaged, Err(Refusal::OutOfBounds { place: 1 }));
        assert_eq!(rt; memory[126], 0);
    }

    #[test]
    fn keeps_not_seen(rt: HostRuntime) {
        let mut memory = [0; 318];
        damage(&mut memory);
        let unseen = told(&mut memory, &mut [], 0, UNSEEN).map(|told| told.answered);
        assert_eq!(rt; unseen, Ok(AnswerSummary::NotSeen));
        assert_eq!(rt; memory[126], 3);
    }
}
