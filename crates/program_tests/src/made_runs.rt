//! Made runs: what `make` writes, and the words that it refuses.

use program_runs::outcome;
use replay_cli::Status;
use std::test::Fail;

// Each reference of a made trace is answered, and none is refused; the options stand in any order and in
// both forms, and a number may begin with zeros. Nothing is read: a source that would fail at its first read isn't asked.
#[test]
fn makes_and_runs_a_trace(rt: HostRuntime) -> Result<(), Fail> {
    let table: [(&[&str], &str); 3] = [
        (
            &["make", "--seed", "7", "--procs", "6", "--refs", "20000"],
            "MADE 7 6 20000\nDONE 20000 DENIED 0\n",
        ),
        (
            &["make", "--refs", "1", "--seed=0", "--procs=1"],
            "MADE 0 1 1\nDONE 1 DENIED 0\n",
        ),
        (
            &[
                "make",
                "--refs=0000000500",
                "--procs",
                "16",
                "--seed",
                "4294967295",
            ],
            "MADE 4294967295 16 500\nDONE 500 DENIED 0\n",
        ),
    ];
    for (words, first) in table {
        let told = outcome(rt.alloc(), words, b"", &[1], &[], &[], &[])?;
        assert_eq!(rt; told.0, Status(0));
        assert!(rt; told.1.starts_with(first.as_bytes()));
        assert!(rt; told.1.ends_with(b"STATUS 0\n"));
    }
    Ok(())
}

// A block that can't be made, and a second write that fails.
#[test]
fn ends_a_made_run_at_a_failure(rt: HostRuntime) -> Result<(), Fail> {
    let words = ["make", "--seed", "0", "--procs", "1", "--refs", "1"];
    let unmade = outcome(rt.alloc(), &words, b"", &[], &[], &[], &[1])?;
    assert_eq!(rt; unmade.0, Status(6));
    assert_eq!(rt; unmade.1.as_slice(), b"STATUS 6\n".as_slice());
    let failed = outcome(rt.alloc(), &words, b"", &[], &[2], &[], &[])?;
    assert_eq!(rt; failed.0, Status(4));
    assert_eq!(rt; failed.1.as_slice(), b"MADE 0 1 1\n".as_slice());
    Ok(())
}

// Options that are missing, twice there, empty, out of their range or unknown.
#[test]
fn refuses_other_options(rt: HostRuntime) -> Result<(), Fail> {
    let table: [&[&str]; 18] = [
        &["make"],
        &["make", "--seed", "7"],
        &["make", "--seed", "7", "--procs", "6"],
        &["make", "--seed", "7", "--procs", "6", "--refs"],
        &["make", "--seed", "7", "--procs", "6", "--refs", "1", "x"],
        &[
            "make", "--seed", "7", "--procs", "6", "--refs", "1", "--refs", "1",
        ],
        &[
            "make",
            "--seed",
            "4294967296",
            "--procs",
            "6",
            "--refs",
            "1",
        ],
        &["make", "--seed", "7", "--procs", "0", "--refs", "1"],
        &["make", "--seed", "7", "--procs", "17", "--refs", "1"],
        &["make", "--seed", "7", "--procs", "6", "--refs", "0"],
        &["make", "--seed", "7", "--procs", "6", "--refs", "100001"],
        &["make", "--seed=", "--procs", "6", "--refs", "1"],
        &[
            "make",
            "--seed",
            "00000000007",
            "--procs",
            "6",
            "--refs",
            "1",
        ],
        &["make", "--seed", "+7", "--procs", "6", "--refs", "1"],
        &["make", "--seed", "7", "--procs", "6", "--ref", "1"],
        &["make", "--seed", "7", "--procs", "6", "--refs", "1", "--"],
        &["make", "--", "--seed", "7", "--procs", "6", "--refs", "1"],
        &["make", "--help"],
    ];
    for words in table {
        let told = outcome(rt.alloc(), words, b"", &[], &[], &[], &[])?;
        assert_eq!(rt; told.0, Status(1));
        assert_eq!(rt; told.1.as_slice(), b"STATUS 1\n".as_slice());
    }
    Ok(())
}
