// What a trace prints, and how it ends.
use output::Output;
use std::alloc::Global;
use std::io;
use store::Refusal;
use trace_player::MEMORY;

#[derive(Drop)]
pub(crate) struct Played {
    pub(crate) text: Vec<u8>,
    pub(crate) refused: Option<Refusal>,
}

// Played for everyone, in memory long enough for every trace.
pub(crate) fn play(heap: Global, bytes: &[u8]) -> io::Result<Played> {
    let mut memory = [7; MEMORY];
    let mut text = Vec::new(heap);
    let refused = trace_player::play(&mut Output::new(&mut text), &mut memory, bytes)?;
    Ok(Played { text, refused })
}

// Played for one user.
pub(crate) fn play_for(
    heap: Global,
    memory: &mut [u64],
    user: usize,
    bytes: &[u8],
) -> io::Result<Played> {
    let mut text = Vec::new(heap);
    let refused = trace_player::play_for(&mut Output::new(&mut text), memory, user, bytes)?;
    Ok(Played { text, refused })
}
