use arrayvec::ArrayVec;
use command_calls::CallEnds;
use command_ends::Status;
use disk_trait::MemoryDepot;
use outside_io::{MemorySink, MemorySource};
use std::test::Fail;
use study_command::{Study, study_of, study_trace};
use vm_types::Proc;

#[test]
fn reads_the_words(rt: HostRuntime) -> Result<(), Fail> {
    let study = Study {
        process: Proc(15),
        frames: 12,
    };
    let accepted: [&[&str]; 4] = [
        &["--frames", "0000000012", "--process=P"],
        &["--process", "P", "--frames=12"],
        &["--frames=12", "--process", "P"],
        &["--process", "P", "--frames", "12"],
    ];
    for words in accepted {
        assert_eq!(rt; study_of(rt.alloc(), words), Ok(Some(study)));
    }
    let refused: [&[&str]; 22] = [
        &[],
        &["--frames=12"],
        &["--frames=12", "--process"],
        &["--process=P", "--frames="],
        &["--process=P", "--frames", ""],
        &["--process=P", "--frames", "-12"],
        &["--process=P", "--frames=-12"],
        &["--process=P", "--frames=--frames"],
        &["--process=P", "--frames==12"],
        &["--process", "--frames", "--frames=12"],
        &["--process", "--frames", "12"],
        &["--process", "-", "--frames=12"],
        &["--process=P", "--process=P", "--frames=12"],
        &["--process=P", "--frames=12", "--frames=12"],
        &["--process=P", "--frames=12", ""],
        &["--process=P", "--frames=12", "12"],
        &["--process=P", "--frames=12", "--"],
        &["--", "--process=P", "--frames=12"],
        &["--process=P", "--frames=12", "--help"],
        &["--process=P", "--frames=12", "--version"],
        &["--proc=P", "--frames=12"],
        &["-process=P", "--frames=12"],
    ];
    for words in refused {
        assert_eq!(rt; study_of(rt.alloc(), words), Ok(None));
    }
    Ok(())
}

// The most frames that a study may have.
#[test]
fn studies_a_trace(rt: HostRuntime) -> Result<(), Fail> {
    let alloc = rt.alloc();
    let text = b"VMTRACE 1\nFRAMES 8\nPAGEFILE 4\nPROCESS A 4 4 4 0\nBODY\nA R4 00000200\nEND\n";
    let mut ends = CallEnds {
        source: MemorySource::new(Vec::from_slice(alloc, text)?, Vec::new(alloc)),
        output: MemorySink::new(alloc, 20_000, Vec::new(alloc), Vec::new(alloc))?,
        depot: MemoryDepot::new(alloc, Vec::new(alloc)),
    };
    let study = Study {
        process: Proc(0),
        frames: 1024,
    };
    assert_eq!(rt;
        study_trace(alloc, study, &mut ends, &mut ArrayVec::new()).0,
        Status(0)
    );
    let front = b"PAGES 1 DISTINCT 1\nRING 1024 1\nLRU 1 1\nLRU 2 1\n";
    assert!(rt; ends.output.taken().starts_with(front));
    let back = b"LRU 1024 1\nLEAST 1024 1\nSTATUS 0\n";
    assert!(rt; ends.output.taken().ends_with(back));
    Ok(())
}
