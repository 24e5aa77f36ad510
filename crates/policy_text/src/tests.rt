// A policy of three users, and one with room for one row, in both forms.
use super::*;
use base::Refusal;
use policy::View;
use std::test::Fail;

// User 2 sees 2 before 1, so that the order of a view is seen.
fn three() -> Result<Policy, Refusal> {
    let views = [
        View {
            sees: &[0, 1],
            writes: 0,
        },
        View {
            sees: &[1],
            writes: 1,
        },
        View {
            sees: &[2, 1],
            writes: 2,
        },
    ];
    Policy::from_views(&views, &[3, 3, 2])
}

fn one() -> Result<Policy, Refusal> {
    let view = View {
        sees: &[0],
        writes: 0,
    };
    Policy::from_views(&[view], &[1])
}

#[test]
fn shows_a_table(rt: HostRuntime) -> Result<(), Fail> {
    let policy = three()?;
    let mut text = Vec::new(rt.alloc());
    write_table(&mut Output::new(&mut text), &policy)?;
    assert!(rt;
        text.as_slice()
            == concat!(
                "user 0 sees 0 1, writes in 0\n",
                "user 1 sees 1, writes in 1\n",
                "user 2 sees 2 1, writes in 2\n",
                "compartment 0 has room for 3 rows, which may flow to 0\n",
                "compartment 1 has room for 3 rows, which may flow to 0 1 2\n",
                "compartment 2 has room for 2 rows, which may flow to 2\n"
            )
            .as_bytes()
    );
    Ok(())
}

#[test]
fn shows_a_graph(rt: HostRuntime) -> Result<(), Fail> {
    let policy = three()?;
    let mut text = Vec::new(rt.alloc());
    write_graph(&mut Output::new(&mut text), &policy)?;
    assert!(rt;
        text.as_slice()
            == concat!(
                "digraph policy {\n",
                "    \"user 0\";\n",
                "    \"user 0\" -> \"compartment 0\";\n",
                "    \"compartment 0\" -> \"user 0\" [style=dashed];\n",
                "    \"compartment 1\" -> \"user 0\" [style=dashed];\n",
                "    \"user 1\";\n",
                "    \"user 1\" -> \"compartment 1\";\n",
                "    \"compartment 1\" -> \"user 1\" [style=dashed];\n",
                "    \"user 2\";\n",
                "    \"user 2\" -> \"compartment 2\";\n",
                "    \"compartment 2\" -> \"user 2\" [style=dashed];\n",
                "    \"compartment 1\" -> \"user 2\" [style=dashed];\n",
                "    \"compartment 0\" [shape=box];\n",
                "    \"compartment 1\" [shape=box];\n",
                "    \"compartment 1\" -> \"compartment 0\" [color=blue];\n",
                "    \"compartment 1\" -> \"compartment 2\" [color=blue];\n",
                "    \"compartment 2\" [shape=box];\n",
                "}\n"
            )
            .as_bytes()
    );
    Ok(())
}

#[test]
fn shows_room_for_one(rt: HostRuntime) -> Result<(), Fail> {
    let policy = one()?;
    let mut text = Vec::new(rt.alloc());
    write_table(&mut Output::new(&mut text), &policy)?;
    assert!(rt;
        text.as_slice()
            == concat!(
                "user 0 sees 0, writes in 0\n",
                "compartment 0 has room for 1 row, which may flow to 0\n"
            )
            .as_bytes()
    );
    Ok(())
}

#[test]
fn gives_texts(rt: HostRuntime) -> Result<(), Fail> {
    let policy = one()?;
    let table = table(rt.alloc(), &policy)?;
    assert!(rt;
        table.as_str()
            == concat!(
                "user 0 sees 0, writes in 0\n",
                "compartment 0 has room for 1 row, which may flow to 0\n"
            )
    );
    let graph = graph(rt.alloc(), &policy)?;
    assert!(rt;
        graph.as_str()
            == concat!(
                "digraph policy {\n",
                "    \"user 0\";\n",
                "    \"user 0\" -> \"compartment 0\";\n",
                "    \"compartment 0\" -> \"user 0\" [style=dashed];\n",
                "    \"compartment 0\" [shape=box];\n",
                "}\n"
            )
    );
    Ok(())
}

#[test]
fn writes_a_beginning(rt: HostRuntime) -> Result<(), Fail> {
    let policy = one()?;
    let mut room = [b'.'; 20];
    assert!(rt; write_table(&mut Output::new(&mut room[..16]), &policy).is_err());
    assert!(rt; room.as_slice() == b"user 0 sees 0, w....".as_slice());
    Ok(())
}
