// Answers that are worked out, or told again from the cache.
ghost use Rattle.std.specs.Prelude.{◌≡◌};
ghost use Rattle.memory_query.specs.AskResult.{cached_outcome, cached_told, storage_work, recall_result};

use crate::inquiry::CheckedQuery;
use crate::storage::Storage;
use base::{ArrayList, Refusal};
use cache::CachedAnswer;
use query::{AnswerSummary, Outcome};

impl Storage<'_> {
    // Works an answer out of the compartments that the query looks at: only their rows are lent.
    pub(crate) fn work_out(
        &self,
        inquiry: &CheckedQuery,
        row: &mut [u64],
    ) -> Result<Outcome, Refusal>
        ensures told { result ≡ (storage_work self.now row.old inquiry.now).told }
        ensures after { row.new ≡ (storage_work self.now row.old inquiry.now).row }
    {
        let length = row.len();
        let mut parts = ArrayList::new(&[][..]);
        self.lend(&inquiry.scope, &mut parts);
        let Some(outcome) = query::answer(inquiry.query, parts.as_slice(), row) else {
            return Err(Refusal::ShortRow { length });
        };
        Ok(outcome)
    }

    // What a kept answer tells: rows are worked out again, numbers are as they were.
    pub(crate) fn recall(
        &self,
        inquiry: &CheckedQuery,
        kept: CachedAnswer,
        row: &mut [u64],
    ) -> Result<Outcome, Refusal>
        ensures told { result ≡ (recall_result row.old (storage_work self.now row.old inquiry.now) kept).told }
        ensures after { row.new ≡ (recall_result row.old (storage_work self.now row.old inquiry.now) kept).row }
    {
        match kept {
            CachedAnswer::Rows | CachedAnswer::Shared => self.work_out_again(inquiry, row),
            CachedAnswer::Total { rows, amount } => {
                // What is kept are numbers of memory, of 64 bits each.
                let rows = rows as usize;
                Ok(cached_outcome(AnswerSummary::Total { rows, amount }))
            }
            CachedAnswer::NotSeen => Ok(cached_outcome(AnswerSummary::NotSeen)),
        }
    }

    // Works rows out again, which examines none anew.
    fn work_out_again(&self, inquiry: &CheckedQuery, row: &mut [u64]) -> Result<Outcome, Refusal>
        ensures told { result ≡ cached_told (storage_work self.now row.old inquiry.now).told }
        ensures after { row.new ≡ (storage_work self.now row.old inquiry.now).row }
    {
        let outcome = self.work_out(inquiry, row)?;
        Ok(cached_outcome(outcome.answered))
    }
}

// An answer for which no row was examined.
fn cached_outcome(answered: AnswerSummary) -> Outcome
    ensures { result ≡ cached_outcome answered }
{
    Outcome {
        answered,
        examined: 0,
    }
}
