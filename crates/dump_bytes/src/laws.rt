ghost use Rattle.dump_bytes.specs.Laws.{EachHasOneAnswer};

/// The law that any bytes are one dump's, or are bad after one number of bytes, and never both: so
/// `read_dump` has one answer to them, if memory and the reads serve. It does nothing.
pub fn each_input_has_one_answer()
    ensures { EachHasOneAnswer }
{}
