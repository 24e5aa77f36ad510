// A policy of three users: what it says, and how it is refused.
use super::THREE;
use policy::{Place, Policy};
use std::test::Fail;
use store::Refusal;

// A refusal is what is asked for here, and no failure of a test.
fn refused(numbers: &[u64], most: u64) -> Option<Refusal> {
    match Policy::read(numbers, most) {
        Ok(_) => None,
        Err(refusal) => Some(refusal),
    }
}

// The refusal with one number changed.
fn refused_with(place: usize, number: u64) -> Option<Refusal> {
    let mut numbers = THREE;
    if let Some(changed) = numbers.get_mut(place) {
        *changed = number;
    }
    refused(&numbers, 4096)
}

#[test]
fn says_who_sees_what(rt: HostRuntime) -> Result<(), Fail> {
    let Ok(policy) = Policy::read(&THREE, 64) else {
        return Err(Fail::from("refused"));
    };
    assert!(rt; policy.has_user(2) && !policy.has_user(3));
    assert!(rt;
        policy.sees(0, 1)
            && policy.sees(2, 2)
            && !policy.sees(1, 0)
            && !policy.sees(3, 1)
            && !policy.sees(0, 9)
    );
    assert!(rt; policy.may_flow(1, 0) && policy.may_flow(1, 2) && policy.may_flow(2, 2));
    assert!(rt; !policy.may_flow(0, 1) && !policy.may_flow(2, 0) && !policy.may_flow(3, 3));
    assert!(rt; policy.may_copy(0, 1) && policy.may_copy(2, 1) && policy.may_copy(1, 1));
    assert!(rt; !policy.may_copy(1, 0) && !policy.may_copy(2, 0) && !policy.may_copy(3, 1));
    Ok(())
}

#[test]
fn says_where_things_lie(rt: HostRuntime) -> Result<(), Fail> {
    let Ok(policy) = Policy::read(&THREE, 3) else {
        return Err(Fail::from("refused"));
    };
    let place = Place {
        start: 16,
        capacity: 2,
    };
    assert!(rt; policy.place(2) == Some(place));
    assert!(rt; policy.place(3).is_none());
    assert!(rt;
        policy.cache(0) == Some(22) && policy.cache(2) == Some(406) && policy.cache(3).is_none()
    );
    assert!(rt; policy.memory_length() == 598);
    Ok(())
}

#[test]
fn gives_contracts(rt: HostRuntime) -> Result<(), Fail> {
    let policy = Policy::read(&THREE, 3)?;
    let contract = policy.contract(2).ok_or("no contract")?;
    assert!(rt; contract.view() == [1, 2].as_slice());
    assert!(rt; contract.writes() == 2 && contract.sees(1) && !contract.sees(9));
    assert!(rt; policy.contract(3).is_none());
    Ok(())
}

#[test]
fn refuses_counts(rt: HostRuntime) {
    assert!(rt; refused(&THREE, 2) == Some(Refusal::OutOfBounds { place: 56 }));
    assert!(rt; refused(&THREE[0..58], 64) == Some(Refusal::OutOfBounds { place: 58 }));
    assert!(rt; refused(&THREE[0..0], 64) == Some(Refusal::OutOfBounds { place: 0 }));
    assert!(rt; refused_with(0, 33) == Some(Refusal::OutOfBounds { place: 0 }));
    assert!(rt; refused_with(1, 0) == Some(Refusal::OutOfBounds { place: 1 }));
    assert!(rt; refused_with(38, 17) == Some(Refusal::OutOfBounds { place: 38 }));
    assert!(rt; refused_with(58, 4097) == Some(Refusal::OutOfBounds { place: 58 }));
    assert!(rt; refused_with(58, 4096).is_none());
    assert!(rt; refused_with(5, 77).is_none());
}

#[test]
fn refuses_views(rt: HostRuntime) {
    assert!(rt; refused_with(4, 0) == Some(Refusal::BadView { user: 0 }));
    assert!(rt; refused_with(21, 3) == Some(Refusal::BadView { user: 1 }));
    assert!(rt; refused_with(55, 0) == Some(Refusal::BadView { user: 2 }));
}

#[test]
fn numbers_refusals(rt: HostRuntime) {
    let no_flow = Refusal::NoFlow { compartment: 2 };
    let no_row = Refusal::NoRow { key: 9 };
    assert!(rt; no_flow.number() == 4 && no_flow.place() == 34);
    assert!(rt; no_row.number() == 6 && no_row.place() == 9);
}
