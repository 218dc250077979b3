ghost use Rattle.std.specs.Prelude.{◌≡◌};
ghost use Rattle.trace_lines.specs.Places.{rank};

/// Where in a trace the next line stands.
#[derive(Clone, Copy, Debug, PartialEq, Eq)]
pub enum Place {
    /// Before VMTRACE or LONGTRACE.
    Version,
    /// Before FRAMES.
    Frames,
    /// Before PAGEFILE.
    PageFile,
    /// Among the declarations, before BODY.
    Declarations,
    /// Among the requests, before END.
    Requests,
    /// After END.
    Ended,
}

impl Place {
    /// How many of the lines VMTRACE or LONGTRACE, FRAMES, PAGEFILE, BODY and END come before: 0 to 5.
    pub fn rank(self) -> u8
        ensures { result ≡ rank self }
    {
        match self {
            Place::Version => 0,
            Place::Frames => 1,
            Place::PageFile => 2,
            Place::Declarations => 3,
            Place::Requests => 4,
            Place::Ended => 5,
        }
    }
}
