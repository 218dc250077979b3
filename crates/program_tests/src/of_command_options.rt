use command_options::first_word;
use std::test::Fail;

#[test]
fn takes_the_first_word(rt: HostRuntime) -> Result<(), Fail> {
    let words = ["--frames", "12"];
    assert!(rt; matches!(first_word(&words), Some((b"--frames", _))));
    Ok(())
}
