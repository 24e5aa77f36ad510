//! The store: requests on lent memory, as a policy allows them.
#![tactic(auto)]

ghost use Rattle.std.specs.Prelude.{◌≡◌, ◌≢◌, ◌≤◌, length, IfOk};
ghost use Rattle.store.specs.Calls.{Apart, open_result, writer_told, write_result, delete_result, copying_told, copy_result};
ghost use Rattle.store.specs.Memory.{end};
ghost use Rattle.store.specs.Served.{serve_result};

mod copying;
pub mod laws;
mod part;
mod reply;

pub use base::Refusal;
use compartment::Copying;
pub use memory_query::ask;
use part::part_of;
use policy::Written;
pub use policy::{Contract, Policy, View};
pub use query::{AnswerSummary, Outcome, Query};
pub use reply::Reply;
pub use request::Request;
pub use rows::{KeyRange, Row};

// Each call is passed policy and memory, and itself refuses memory that is too short.

/// Memory of the length that the policy asks for becomes empty; what lies behind is not touched.
pub fn open(policy: &Policy, memory: &mut [u64]) -> Result<(), Refusal>
    ensures told { result ≡ (open_result policy.now memory.old).told }
    ensures after { memory.new ≡ (open_result policy.now memory.old).memory }
{
    policy.check_length(memory)?;
    memory[0..policy.memory_length()].fill(0);
    Ok(())
}

/// The row comes into the compartment in which the user writes, in place of the one with its key.
pub fn write(policy: &Policy, memory: &mut [u64], user: usize, row: Row) -> Result<(), Refusal>
    ensures told { result ≡ (write_result policy.now memory.old user row).told }
    ensures after { memory.new ≡ (write_result policy.now memory.old user row).memory }
{
    let written = written_in(policy, memory, user)?;
    compartment::write(&mut memory[part_of(written.place)], written, row)
}

/// The row with the key goes from there.
pub fn delete(policy: &Policy, memory: &mut [u64], user: usize, key: u32) -> Result<(), Refusal>
    ensures told { result ≡ (delete_result policy.now memory.old user key).told }
    ensures after { memory.new ≡ (delete_result policy.now memory.old user key).memory }
{
    let written = written_in(policy, memory, user)?;
    compartment::delete(&mut memory[part_of(written.place)], written, key)
}

/// The rows of a range of a compartment that the user sees come to where the user writes: all of them, or none.
pub fn copy(
    policy: &Policy,
    memory: &mut [u64],
    user: usize,
    compartment: u64,
    range: KeyRange,
) -> Result<(), Refusal>
    ensures told { result ≡ (copy_result policy.now memory.old user compartment range).told }
    ensures after { memory.new ≡ (copy_result policy.now memory.old user compartment range).memory }
{
    let copying = allowed_copy(policy, memory, user, compartment, range)?;
    let written = copying.written;
    if written.compartment == compartment {
        return compartment::raise(&mut memory[part_of(written.place)], written);
    }
    copying::between(memory, copying)
}

/// Any request.
pub fn serve(
    policy: &Policy,
    memory: &mut [u64],
    row: &mut [u64],
    request: Request,
) -> Result<Reply, Refusal>
    ensures told { result ≡ (serve_result policy.now memory.old row.old request).told }
    ensures after { memory.new ≡ (serve_result policy.now memory.old row.old request).memory }
    ensures lent { row.new ≡ (serve_result policy.now memory.old row.old request).row }
{
    match request {
        Request::Write { user, row } => write(policy, memory, user, row)?,
        Request::Delete { user, key } => delete(policy, memory, user, key)?,
        Request::Copy {
            user,
            compartment,
            range,
        } => copy(policy, memory, user, compartment, range)?,
        Request::Query { user, query } => {
            let outcome = ask(policy, memory, row, user, query)?;
            return Ok(Reply::Answered { outcome });
        }
    }
    Ok(Reply::Done)
}

// The compartment in which the user writes, within memory.
fn written_in(policy: &Policy, memory: &[u64], user: usize) -> Result<Written, Refusal>
    ensures told { result ≡ writer_told policy.now memory.now user }
    ensures within { IfOk result (λ w. end w.place ≤ length memory.now) }
{
    policy.check_length(memory)?;
    let Some(written) = policy.written(user) else {
        return Err(Refusal::NoUser { user });
    };
    Ok(written)
}

// What is copied, if the user may: two compartments within memory, apart from each other if they are two.
#[tactic(auto, using(crate::proofs::Places::written_apart))]
fn allowed_copy(
    policy: &Policy,
    memory: &[u64],
    user: usize,
    compartment: u64,
    range: KeyRange,
) -> Result<Copying, Refusal>
    ensures told { result ≡ copying_told policy.now memory.now user compartment range }
    ensures within { IfOk result (λ c. (end c.from ≤ length memory.now) × (end c.written.place ≤ length memory.now)) }
    ensures apart { IfOk result (λ c. c.written.compartment ≢ compartment → Apart c.from c.written.place) }
{
    policy.check_length(memory)?;
    let refusal = Refusal::NoFlow { compartment };
    if !policy.may_copy(user, compartment) {
        return Err(refusal);
    }
    let Some(written) = policy.written(user) else {
        return Err(refusal);
    };
    let Some(from) = policy.place(compartment) else {
        return Err(refusal);
    };
    Ok(Copying {
        from,
        written,
        range,
    })
}
