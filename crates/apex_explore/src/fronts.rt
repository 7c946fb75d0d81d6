//! How far a search has come.
ghost use Rattle.std.specs.Prelude.{◌≡◌, ◌<◌};
ghost use Rattle.apex_explore.specs.Levels.{first_front, turned};

/// The place of the state that is next, how many choices it is away from the first one, and the
/// first place after the states that are as far away.
#[derive(Clone, Copy)]
pub(crate) struct Front {
    pub(crate) at: usize,
    pub(crate) depth: usize,
    pub(crate) level_end: usize,
}

impl Front {
    /// The front of a search that has found its first state alone.
    pub(crate) fn first() -> Front
        ensures { result ≡ first_front }
    {
        Front {
            at: 0,
            depth: 0,
            level_end: 1,
        }
    }

    /// At the end of a level the next one begins, which has all states that were found so far.
    pub(crate) fn turned(self, states: usize) -> Front
        requires { self.depth < self.level_end }
        ensures { result ≡ turned self states }
    {
        if self.at == self.level_end {
            Front {
                at: self.at,
                depth: self.depth + 1,
                level_end: states,
            }
        } else {
            self
        }
    }
}
