// The items of a trace, one after the other: what each tells and leaves, for whoever is played for.
ghost use Rattle.std.specs.Prelude.{◌≡◌, IfOk, OnOk, OnErr};
ghost use Rattle.output.specs.Output.{WritesAll, Writes};
ghost use Rattle.trace_items.specs.Items.{left, items_in, end_in};
ghost use Rattle.trace_player.specs.Turns.{item_result, turn_result, play_from_zeros, Stops};

use super::concerns::concerns;
use base::{COMPARTMENTS, Refusal};
use output::Output;
use policy::Policy;
use query::HEADER;
use response_text::write_line;
use std::io::{self, Write};
use store::Reply;
use trace_bytes::CAPACITY;
use trace_items::{Item, Items};

// An answer row that is long enough for the largest policy of a trace: two numbers for each row, behind a header.
const ROW: usize = HEADER + 2 * COMPARTMENTS * CAPACITY as usize;

// Plays the items up to where the trace is broken off, for one viewer or for everyone.
pub(crate) fn play_items<W: Write>(
    out: &mut Output<W>,
    policy: &Policy,
    memory: &mut [u64],
    viewer: Option<usize>,
    items: Items,
) -> io::Result<Option<Refusal>>
    ensures end { IfOk result (λ end. end ≡ end_in (left items.entry)) }
    ensures text { OnOk result
        (WritesAll out.old out.new (play_from_zeros policy.now viewer memory.old (items_in (left items.entry))).text) }
    ensures after { OnOk result
        (memory.new ≡ (play_from_zeros policy.now viewer memory.old (items_in (left items.entry))).memory) }
    ensures broken { OnErr result
        (Stops (play_from_zeros policy.now viewer memory.old) (items_in (left items.entry))
        out.old out.new memory.new) }
{
    let mut row = [0; ROW];
    for item in items {
        match item {
            Ok(item) => play_item(out, policy, memory, &mut row, viewer, item)?,
            Err(refusal) => return Ok(Some(refusal)),
        }
    }
    Ok(None)
}

// An item that does not concern the viewer is left out.
fn play_item<W: Write>(
    out: &mut Output<W>,
    policy: &Policy,
    memory: &mut [u64],
    row: &mut [u64],
    viewer: Option<usize>,
    item: Item,
) -> io::Result<()>
    ensures text { Writes out.old out.new result (turn_result policy.now viewer memory.old row.old item).text }
    ensures after { memory.new ≡ (turn_result policy.now viewer memory.old row.old item).memory }
    ensures row { row.new ≡ (turn_result policy.now viewer memory.old row.old item).row }
{
    if !viewer.is_none_or(|viewer| concerns(policy, viewer, item)) {
        return Ok(());
    }
    let response = serve_item(policy, memory, row, item);
    let user = item.user();
    if !viewer.is_none_or(|viewer| user == viewer) {
        return Ok(());
    }
    write_line(out, user, response, row)
}

fn serve_item(
    policy: &Policy,
    memory: &mut [u64],
    row: &mut [u64],
    item: Item,
) -> Result<Reply, Refusal>
    ensures told { result ≡ (item_result policy.now memory.old row.old item).told }
    ensures after { memory.new ≡ (item_result policy.now memory.old row.old item).memory }
    ensures row { row.new ≡ (item_result policy.now memory.old row.old item).row }
{
    match item {
        Item::Request { request } => store::serve(policy, memory, row, request),
        Item::NoRequest { place, .. } => Err(Refusal::NoRequest { place }),
    }
}
