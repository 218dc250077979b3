use vm_types::{NoMemory, Proc};

/// Where the serial policy is between two moves, up to the report's place.
#[derive(Clone, Copy, Debug, PartialEq, Eq)]
pub enum Doing {
    /// At the next request.
    Asking,
    /// After an answer, in the modified page writer's part, which may have begun; and the process that
    /// was answered.
    Saving { begun: bool, process: Proc },
    /// After an answer, in the swapper's part, which may have begun; and the process that was answered.
    Freeing { begun: bool, process: Proc },
}

/// Where the serial policy is between two moves, and the process that is being left until it is gone.
#[derive(Clone, Copy, Debug, PartialEq, Eq)]
pub struct Control {
    pub doing: Doing,
    pub leaving: Option<Proc>,
}

/// The next step: where the policy goes on; none if it rests.
pub type Step = Result<Option<Control>, NoMemory>;

/// What the work after an answer comes to.
#[derive(Clone, Copy, Debug, PartialEq, Eq)]
pub enum AfterAnswer {
    /// A move was made, and the policy goes on there; if there is no place, it rests.
    Made(Option<Control>),
    /// Nothing is left of it: the next request follows, before which this process is left.
    Over(Option<Proc>),
}
