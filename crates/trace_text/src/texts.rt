// Texts that are traces, and texts that are none.
use crate::{looks_like_text, read};
use std::alloc::{AllocError, Global};
use std::test::Fail;

// Two users and two compartments: six lines.
const POLICY: &str =
    "users 2\ncompartments 2\nuser 0 sees 1 0 writes 0\nuser 1 sees 1 writes 1\ncapacity 0 3\ncapacity 1 64\n";

// What is told of a text.
fn told(heap: Global, text: &str) -> Result<String, AllocError> {
    match read(heap, text.as_bytes()) {
        Ok(_) => String::from_str(heap, "read"),
        Err(error) => format!(in heap; "{error}"),
    }
}

fn tells(heap: Global, text: &str, words: &str) -> Result<bool, AllocError> {
    let told = told(heap, text)?;
    Ok(told.as_str() == words)
}

// Of the third line, behind the counts.
fn tells_user(heap: Global, line: &str, words: &str) -> Result<bool, AllocError> {
    let text = format!(in heap; "users 2\ncompartments 2\n{line}")?;
    tells(heap, text.as_str(), words)
}

// Of the seventh line, behind the policy.
fn tells_request(heap: Global, line: &str, words: &str) -> Result<bool, AllocError> {
    let text = format!(in heap; "{POLICY}{line}")?;
    tells(heap, text.as_str(), words)
}

#[test]
fn writes_bytes(rt: HostRuntime) -> Result<(), Fail> {
    let text = "# one user\n\nusers 1\n compartments\t1\r\nuser 0 sees 0 writes 0\ncapacity 0 3\n\
        31 delete 258\n0 total 1 4294967295";
    let trace = read(rt.alloc(), text.as_bytes())?;
    let bytes = trace_bytes::write(
        rt.alloc(),
        trace.numbers.as_slice(),
        trace.requests.as_slice(),
    )?;
    assert!(rt; bytes.len() == 39);
    let bytes = bytes.as_slice();
    assert!(rt; bytes[0..3] == [1, 1, 1]);
    assert!(rt; bytes[3..20] == [0; 17]);
    assert!(rt; bytes[20..28] == [3, 0, 1, 31, 2, 1, 0, 0]);
    assert!(rt; bytes[28..39] == [3, 0, 1, 1, 0, 0, 0, 255, 255, 255, 255]);
    Ok(())
}

#[test]
fn refuses_counts(rt: HostRuntime) -> Result<(), Fail> {
    let heap = rt.alloc();
    assert!(rt; tells(heap, "users 3\n", "line 2: the policy is truncated")?);
    assert!(rt; tells(heap, "user 3", "line 1: expected users")?);
    assert!(rt; tells(heap, "users 1x", "line 1: word 2 is not a number")?);
    assert!(rt; tells(heap, "\n# none\nusers 0", "line 3: word 2 is out of bounds")?);
    assert!(rt; tells(heap, "users 33", "line 1: word 2 is out of bounds")?);
    assert!(rt; tells(heap, "users 2 3", "line 1: word 3 is too many")?);
    assert!(rt;
        tells(
            heap,
            "users 2\ncompartments 17",
            "line 2: word 2 is out of bounds"
        )?
    );
    Ok(())
}

#[test]
fn refuses_views(rt: HostRuntime) -> Result<(), Fail> {
    let heap = rt.alloc();
    assert!(rt; tells_user(heap, "user 1 sees 0 writes 0", "line 3: expected number 0")?);
    assert!(rt; tells_user(heap, "user 0 looks 0 writes 0", "line 3: expected sees")?);
    assert!(rt;
        tells_user(
            heap,
            "user 0 sees 0 0 writes 0",
            "line 3: user 0 sees compartment 0 twice"
        )?
    );
    assert!(rt;
        tells_user(
            heap,
            "user 0 sees 2 writes 2",
            "line 3: compartment 2 is not there"
        )?
    );
    assert!(rt;
        tells_user(
            heap,
            "user 0 sees 0 writes 1",
            "line 3: user 0 does not see compartment 1, where they write"
        )?
    );
    assert!(rt; tells_user(heap, "user 0 sees writes 0", "line 3: user 0 sees nothing")?);
    assert!(rt; tells_user(heap, "user 0 sees 0 1", "line 3: word 6 is missing")?);
    Ok(())
}

#[test]
fn refuses_requests(rt: HostRuntime) -> Result<(), Fail> {
    let heap = rt.alloc();
    assert!(rt; tells_request(heap, "31 shared 15 0 9 4294967295", "read")?);
    assert!(rt; tells_request(heap, "32 write 1 1", "line 7: word 1 is out of bounds")?);
    assert!(rt; tells_request(heap, "0 sell 1 1", "line 7: word 2 is not a request")?);
    assert!(rt; tells_request(heap, "0 write 1", "line 7: word 4 is missing")?);
    assert!(rt; tells_request(heap, "0 write 1 2 3", "line 7: word 5 is too many")?);
    assert!(rt;
        tells_request(
            heap,
            "0 write 4294967296 1",
            "line 7: word 3 is out of bounds"
        )?
    );
    assert!(rt; tells_request(heap, "0 copy 16 0 9", "line 7: word 3 is out of bounds")?);
    Ok(())
}

#[test]
fn passes_over_marks_and_comments(rt: HostRuntime) -> Result<(), Fail> {
    let heap = rt.alloc();
    assert!(rt;
        tells(
            heap,
            "\u{feff}# a trace\nusers 0 # none",
            "line 2: word 2 is out of bounds"
        )?
    );
    assert!(rt; tells_request(heap, "0 write 1 2 # 3 4", "read")?);
    assert!(rt; tells_request(heap, "0 write 1 #2", "line 7: word 4 is missing")?);
    assert!(rt; tells_request(heap, "0 write 1 2#3", "line 7: word 4 is not a number")?);
    assert!(rt; tells_request(heap, "0 # write 1 2", "line 7: word 2 is missing")?);
    assert!(rt;
        tells_user(
            heap,
            "user 0 sees 16 writes 0",
            "line 3: word 4 is out of bounds"
        )?
    );
    Ok(())
}

#[test]
fn knows_a_text(rt: HostRuntime) {
    assert!(rt; looks_like_text(b"\xef\xbb\xbf# a trace\n\n\tusers # and how many"));
    assert!(rt; looks_like_text(b"users"));
    assert!(rt; !looks_like_text(b"user 1"));
    assert!(rt; !looks_like_text(b"# users\n"));
    assert!(rt; !looks_like_text(&[3, 3, 2, 0, 1]));
    assert!(rt; !looks_like_text(b""));
}
