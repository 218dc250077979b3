use trace_spelling::the_plain_spelling_is_read;

#[test]
fn the_law_can_be_called(_rt: HostRuntime) {
    the_plain_spelling_is_read();
}
