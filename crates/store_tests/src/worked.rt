// The worked example: whole, for one user, and truncated at each of its bytes.
use super::played::{play, play_for};
use output::Output;
use std::test::Fail;
use store::Refusal;
use trace_player::MEMORY;

// The bytes of examples/worked.trace.
const WORKED: [u8; 259] = [
    3, 3, 2, 0, 1, 0, 0, 0, 0, 0, 0, 0, 0, 0, 0, 0, 0, 0, 0, 0, 1, 1, 0, 0, 0, 0, 0, 0, 0, 0, 0, 0,
    0, 0, 0, 0, 0, 1, 2, 1, 2, 0, 0, 0, 0, 0, 0, 0, 0, 0, 0, 0, 0, 0, 0, 2, 3, 0, 3, 0, 2, 0, 0, 1,
    5, 0, 0, 0, 10, 0, 0, 0, 0, 0, 5, 0, 0, 0, 70, 0, 0, 0, 0, 0, 6, 0, 0, 0, 80, 0, 0, 0, 3, 1, 1,
    0, 0, 0, 0, 9, 0, 0, 0, 3, 0, 1, 0, 0, 0, 0, 9, 0, 0, 0, 3, 0, 1, 0, 0, 0, 0, 9, 0, 0, 0, 0, 1,
    7, 0, 0, 0, 1, 0, 0, 0, 3, 0, 1, 0, 0, 0, 0, 9, 0, 0, 0, 2, 0, 1, 0, 0, 0, 0, 0, 0, 0, 9, 0, 0,
    0, 2, 1, 0, 0, 0, 0, 0, 0, 0, 0, 9, 0, 0, 0, 3, 2, 2, 1, 0, 0, 0, 0, 0, 0, 0, 0, 0, 0, 0, 9, 0,
    0, 0, 0, 2, 1, 0, 0, 0, 1, 0, 0, 0, 0, 2, 2, 0, 0, 0, 1, 0, 0, 0, 0, 2, 3, 0, 0, 0, 1, 0, 0, 0,
    3, 1, 1, 0, 0, 0, 0, 9, 0, 0, 0, 3, 0, 2, 0, 0, 0, 0, 1, 0, 0, 0, 0, 0, 0, 0, 9, 0, 0, 0, 1, 1,
    9, 0, 0, 0,
];

// Of each of its requests how many numbers take a byte, and how many take four.
const REQUESTS: [(usize, usize); 17] = [
    (2, 2),
    (2, 2),
    (2, 2),
    (3, 2),
    (3, 2),
    (3, 2),
    (2, 2),
    (3, 2),
    (2, 3),
    (2, 3),
    (3, 4),
    (2, 2),
    (2, 2),
    (2, 2),
    (3, 2),
    (3, 4),
    (2, 1),
];

// What everyone is told, worked out by hand.
const TOLD: &str = "\
1: done\n\
0: done\n\
0: done\n\
1: 1 row 10 looked at 1\n\
0: 3 rows 160 looked at 3\n\
0: 3 rows 160 looked at 0\n\
1: done\n\
0: 4 rows 161 looked at 4\n\
0: done\n\
1: not allowed\n\
2: not seen looked at 0\n\
2: done\n\
2: done\n\
2: no room\n\
1: 2 rows 11 looked at 2\n\
0: [5:10 7:1] looked at 5\n\
1: no row\n\
";

// Where the policy ends: 56 numbers of a byte, three of two.
const POLICY: usize = 62;

// What a truncated trace comes to: how many requests are told, and the first missing number as the reason why it ends
// there.
fn expected(cut: usize) -> (usize, Option<Refusal>) {
    if cut < 56 {
        return (0, Some(Refusal::OutOfBounds { place: cut }));
    }
    if cut < POLICY {
        let place = 56 + (cut - 56) / 2;
        return (0, Some(Refusal::OutOfBounds { place }));
    }
    let mut left = cut - POLICY;
    for (told, (single, wide)) in REQUESTS.into_iter().enumerate() {
        let size = wide.saturating_mul(4).saturating_add(single);
        if left == 0 {
            return (told, None);
        }
        if left < single {
            return (told, Some(Refusal::NoRequest { place: left }));
        }
        if left < size {
            let place = single.saturating_add((left - single) / 4);
            return (told, Some(Refusal::NoRequest { place }));
        }
        left = left.saturating_sub(size);
    }
    (REQUESTS.len(), None)
}

#[test]
fn truncated_at_each_byte(rt: HostRuntime) -> Result<(), Fail> {
    for cut in 0..=WORKED.len() {
        let played = play(rt.alloc(), &WORKED[0..cut])?;
        let (told, refused) = expected(cut);
        let ends = played.text.iter().filter(|byte| **byte == b'\n');
        assert_eq!(rt; ends.count(), told);
        assert!(rt; played.refused == refused);
    }
    Ok(())
}

#[test]
fn plays_the_worked_example(rt: HostRuntime) -> Result<(), Fail> {
    let played = play(rt.alloc(), &WORKED)?;
    assert!(rt; played.text.as_slice() == TOLD.as_bytes());
    assert!(rt; played.refused == None);
    Ok(())
}

// User 1 is told their six lines, and of user 0's compartment, the first in memory, nothing was changed.
#[test]
fn plays_for_one(rt: HostRuntime) -> Result<(), Fail> {
    let mut memory = [7; 600];
    let played = play_for(rt.alloc(), &mut memory, 1, &WORKED)?;
    assert!(rt;
        played.text.as_slice()
            == b"1: done\n1: 1 row 10 looked at 1\n1: done\n1: not allowed\n1: 2 rows 11 looked at 2\n1: no row\n".as_slice()
    );
    assert!(rt; played.refused == None);
    assert!(rt; memory[0..8] == [0, 0, 0, 0, 0, 0, 0, 0]);
    assert!(rt; memory[8..14] == [2, 2, 5, 10, 7, 1]);
    assert!(rt; memory[16..22] == [0, 0, 0, 0, 0, 0]);
    assert!(rt; memory[598..600] == [7, 7]);
    Ok(())
}

#[test]
fn needs_memory(rt: HostRuntime) -> Result<(), Fail> {
    let mut memory = [7; 597];
    let played = play_for(rt.alloc(), &mut memory, 1, &WORKED)?;
    assert!(rt; played.text.as_slice() == b"".as_slice());
    assert!(rt; played.refused == Some(Refusal::OutOfBounds { place: 597 }));
    assert!(rt; memory == [7; 597]);
    Ok(())
}

// A writer that takes no more than some bytes gets the beginning of the text.
#[test]
fn written_to_a_full_disk(rt: HostRuntime) -> Result<(), Fail> {
    for room in 0..TOLD.len() {
        let mut memory = [7; MEMORY];
        let mut disk = [0; 512];
        let Some(free) = disk.get_mut(..room) else {
            return Err(Fail::from("a text as long as the disk"));
        };
        let mut out = Output::new(free);
        assert!(rt; trace_player::play(&mut out, &mut memory, &WORKED).is_err());
        assert!(rt; disk.get(..room) == TOLD.as_bytes().get(..room));
        assert!(rt; disk.get(room) == Some(&0));
    }
    Ok(())
}
