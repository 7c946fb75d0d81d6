//! States that are to be kept.
ghost use Rattle.std.specs.Prelude.{◌≡◌, length, IfOk};
ghost use Rattle.apex_states.specs.Finds.{no_finds, IsPut};
ghost use Rattle.apex_states.specs.Halves.{width_on, IsHalf};
ghost use Rattle.apex_states.specs.Keeping.{AreNumbered};

use crate::halves::{Half, Side};
use crate::states::{Origin, States};
use std::alloc::{AllocError, Global};
use std::marker::Model;

/// For this many states room is taken at first.
const FIRST_ROOM: u32 = 4096;

/// States in the order in which they were found, each once, and the origin of each.
#[derive(Drop)]
pub struct Finds {
    states: States,
}

impl Model for Finds {
    ghost use Rattle.apex_states.specs.Finds.{Found};

    ghost Value = { Found };

    ghost view = { λ f. record {
      width = f.states.width;
      states = f.states.states;
      origins = f.states.origins;
    } };
}

impl Finds {
    /// No states, of `width` words each. Room for some is taken now, and more as it is needed. Fails only
    /// for want of memory.
    pub fn new(alloc: Global, width: usize) -> Result<Finds, AllocError>
        ensures { IfOk result (λ finds. finds ≡ no_finds width) }
    {
        Ok(Finds {
            states: States::new(alloc, width, FIRST_ROOM)?,
        })
    }

    /// The origin of each state.
    pub(crate) fn origins(&self) -> &[Origin]
        ensures origins { result.now ≡ self.now.origins }
        ensures paired { length self.now.origins ≡ length self.now.states }
    {
        let _ = self.states.len();
        self.states.origins()
    }

    /// States that are put next are nearly this one. Fails only for want of memory.
    pub fn begin(&mut self, alloc: Global, state: &[u64]) -> Result<(), AllocError>
        requires { length state.now ≡ self.old.width }
        ensures { self.new ≡ self.old }
    {
        self.states.begin(alloc, state)
    }

    /// Puts the state behind the others, unless it is there. Fails only for want of memory.
    pub fn put(&mut self, alloc: Global, state: &[u64], origin: Origin) -> Result<(), AllocError>
        requires { length state.now ≡ self.old.width }
        ensures { IfOk result (λ _. IsPut self.old state.now origin self.new) }
    {
        self.states.make_room(alloc)?;
        let kept = self.states.keep(alloc, state, origin)?;
        prove!(kept);
        Ok(())
    }

    /// The halves on this side, and the number of that of each state, in order. Fails only for want of
    /// memory.
    pub(crate) fn numbered(
        &self,
        alloc: Global,
        side: Side,
    ) -> Result<(&Half, Vec<u32>), AllocError>
        ensures half { IfOk result (λ r. IsHalf r.0.now) }
        ensures width { IfOk result (λ r. r.0.now.width ≡ width_on side self.now.width) }
        ensures numbers { IfOk result (λ r. r.0.now.side ≡ side
            × AreNumbered r.0.now self.now r.1.items) }
    {
        self.states.numbered(alloc, side)
    }
}
