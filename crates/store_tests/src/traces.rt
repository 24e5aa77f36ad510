// Traces of one user: what is printed, and how they end.
use super::played::play;
use std::test::Fail;
use store::Refusal;

// One user who sees and writes in compartment 0, of capacity 1.
const POLICY: [u8; 22] = [
    1, 1, 1, 0, 0, 0, 0, 0, 0, 0, 0, 0, 0, 0, 0, 0, 0, 0, 0, 0, 1, 0,
];

#[test]
fn plays_to_the_end(rt: HostRuntime) -> Result<(), Fail> {
    let mut bytes = POLICY.to_vec(rt.alloc())?;
    bytes.extend_from_slice(&[1, 1, 5, 0, 0, 0, 1, 77, 5, 0, 0, 0])?;
    let played = play(rt.alloc(), bytes.as_slice())?;
    assert!(rt; played.text.as_slice() == b"1: not allowed\n77: no deed at 1\n".as_slice());
    assert!(rt; played.refused == None);
    Ok(())
}

#[test]
fn ends_early(rt: HostRuntime) -> Result<(), Fail> {
    let mut bytes = POLICY.to_vec(rt.alloc())?;
    bytes.extend_from_slice(&[1, 1, 5, 0, 0, 0, 1, 0, 5, 0, 0])?;
    let played = play(rt.alloc(), bytes.as_slice())?;
    assert!(rt; played.text.as_slice() == b"1: not allowed\n".as_slice());
    assert!(rt; played.refused == Some(Refusal::NoRequest { place: 2 }));
    Ok(())
}

#[test]
fn refuses_a_policy(rt: HostRuntime) -> Result<(), Fail> {
    let played = play(rt.alloc(), &POLICY[0..21])?;
    assert!(rt; played.text.as_slice() == b"".as_slice());
    assert!(rt; played.refused == Some(Refusal::OutOfBounds { place: 20 }));
    Ok(())
}

// A byte of the policy in place of another, and why it is refused then.
struct Case {
    place: usize,
    byte: u8,
    refused: Refusal,
}

const CASES: [Case; 9] = [
    Case {
        place: 0,
        byte: 0,
        refused: Refusal::OutOfBounds { place: 0 },
    },
    Case {
        place: 0,
        byte: 33,
        refused: Refusal::OutOfBounds { place: 0 },
    },
    Case {
        place: 1,
        byte: 0,
        refused: Refusal::OutOfBounds { place: 1 },
    },
    Case {
        place: 1,
        byte: 17,
        refused: Refusal::OutOfBounds { place: 1 },
    },
    Case {
        place: 2,
        byte: 17,
        refused: Refusal::OutOfBounds { place: 2 },
    },
    Case {
        place: 2,
        byte: 2,
        refused: Refusal::BadView { user: 0 },
    },
    Case {
        place: 3,
        byte: 1,
        refused: Refusal::BadView { user: 0 },
    },
    Case {
        place: 19,
        byte: 1,
        refused: Refusal::BadView { user: 0 },
    },
    Case {
        place: 20,
        byte: 65,
        refused: Refusal::OutOfBounds { place: 20 },
    },
];

#[test]
fn refuses_each_fault(rt: HostRuntime) -> Result<(), Fail> {
    for case in &CASES {
        let mut bytes = POLICY;
        if let Some(byte) = bytes.get_mut(case.place) {
            *byte = case.byte;
        }
        let played = play(rt.alloc(), &bytes)?;
        assert!(rt; played.text.as_slice() == b"".as_slice());
        assert!(rt; played.refused == Some(case.refused));
    }
    Ok(())
}
