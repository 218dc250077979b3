ghost use Rattle.trace_spelling.specs.Laws.{SpellingIsRead};

/// The law that the plain spelling of each configuration is read as that configuration, if it is well
/// formed and its spelling has no more lines than its version may have. It does nothing.
pub fn the_plain_spelling_is_read()
    ensures { SpellingIsRead }
{}
