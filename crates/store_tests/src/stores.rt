// The store's calls on the memory of three users: refusals in their order, and both sides of every bound.
use super::THREE;
use store::{KeyRange, Policy, Refusal, Request, Row};

// Compartments begin at 0, 8 and 16, with capacities 3, 3 and 2; memory has 598 numbers.
const DIGITS: KeyRange = KeyRange { from: 0, to: 9 };

// No version reaches this. It is said here once more, as every number below is: a check is independent of what it
// checks.
const LIMIT: u64 = 1 << 40;

fn write(user: usize, key: u32) -> Request {
    let row = Row { key, amount: 1 };
    Request::Write { user, row }
}

fn delete(user: usize, key: u32) -> Request {
    Request::Delete { user, key }
}

fn copy(user: usize, compartment: u64) -> Request {
    Request::Copy {
        user,
        compartment,
        range: DIGITS,
    }
}

// Why the call is refused, if it is. A refusal is what is asked for here, and no failure of a test.
fn refusal_of<T, F>(call: F) -> Option<Refusal>
where
    T: Drop,
    F: FnOnce(&Policy) -> Result<T, Refusal>,
    requires { F.IsAlwaysCallable call }
{
    match Policy::read(&THREE, 64) {
        Ok(policy) => call(&policy).err(),
        Err(refusal) => Some(refusal),
    }
}

fn refused(memory: &mut [u64], request: Request) -> Option<Refusal> {
    refusal_of(|policy| store::serve(policy, memory, &mut [0; 48], request))
}

fn refused_opening(memory: &mut [u64]) -> Option<Refusal> {
    refusal_of(|policy| store::open(policy, memory))
}

#[test]
fn opens_memory(rt: HostRuntime) {
    assert!(rt; refused_opening(&mut [7; 597]) == Some(Refusal::OutOfBounds { place: 597 }));
    assert!(rt; refused_opening(&mut [7; 598]) == None);
}

#[test]
fn refuses_in_words(rt: HostRuntime) {
    let mut memory = [0; 598];
    assert!(rt; refused(&mut memory, write(2, 1)) == None);
    assert!(rt; refused(&mut memory, write(2, 2)) == None);
    assert!(rt; refused(&mut memory, write(2, 3)) == Some(Refusal::NoRoom { capacity: 2 }));
    assert!(rt; refused(&mut memory, write(2, 2)) == None);
    assert!(rt; refused(&mut memory, delete(2, 9)) == Some(Refusal::NoRow { key: 9 }));
    assert!(rt; refused(&mut memory, copy(2, 0)) == Some(Refusal::NoFlow { compartment: 0 }));
    assert!(rt; refused(&mut memory, copy(3, 1)) == Some(Refusal::NoFlow { compartment: 1 }));
    assert!(rt; refused(&mut memory, write(3, 1)) == Some(Refusal::NoUser { user: 3 }));
    assert!(rt; memory[16] == 3);
    assert!(rt; memory[17] == 2);
}

#[test]
fn stops_at_the_last_version(rt: HostRuntime) {
    let mut memory = [0; 598];
    memory[8] = LIMIT - 2;
    assert!(rt; refused(&mut memory, write(1, 5)) == None);
    assert!(rt; memory[8] == LIMIT - 1);
    assert!(rt; refused(&mut memory, write(1, 6)) == Some(Refusal::LastVersion { compartment: 1 }));
    assert!(rt; refused(&mut memory, copy(1, 1)) == Some(Refusal::LastVersion { compartment: 1 }));
    assert!(rt; refused(&mut memory, delete(1, 6)) == Some(Refusal::NoRow { key: 6 }));
    assert!(rt; memory[8] == LIMIT - 1);
    assert!(rt; memory[9] == 1);
    memory[8] = LIMIT;
    assert!(rt; refused(&mut memory, write(1, 6)) == Some(Refusal::OutOfBounds { place: 8 }));
}

#[test]
fn finds_damage_where_it_looks(rt: HostRuntime) {
    let mut memory = [0; 598];
    memory[1] = 4;
    assert!(rt; refused(&mut memory, write(1, 5)) == None);
    assert!(rt; refused(&mut memory, write(0, 5)) == Some(Refusal::OutOfBounds { place: 1 }));
    memory[9] = 4;
    assert!(rt; refused(&mut memory, copy(0, 1)) == Some(Refusal::OutOfBounds { place: 1 }));
    assert!(rt; refused(&mut memory, copy(2, 1)) == Some(Refusal::OutOfBounds { place: 9 }));
    memory[9] = 3;
    memory[12] = 6;
    memory[14] = 7;
    assert!(rt; refused(&mut memory, write(1, 5)) == None);
    assert!(rt; refused(&mut memory, write(1, 8)) == Some(Refusal::NoRoom { capacity: 3 }));
}
