//! What a search goes over.
ghost use Rattle.std.specs.Prelude.{◌≡◌, ℕ, ◌<◌, List, length, IfOk};
ghost use Rattle.apex_explore.specs.Systems.{GoesTo, Step, step_of};

use std::alloc::{AllocError, Global};

/// What a choice does in a state.
#[derive(Clone, Copy, PartialEq, Eq)]
pub enum Taken {
    /// The choice is not possible there.
    Refused,
    /// It goes on to a state.
    Next,
    /// It is what the search looks for.
    Hit,
}

/// A transition system: a first state, and what each choice does in a state.
///
/// A state is a number of words, the same number for each. Two states with the same words are one
/// state, so the words have to hold all that decides what the choices do. `step` is the meaning of
/// the system, and `is_state` is what is known of each state that is reached: nothing, unless an
/// implementation says it.
pub trait System {
    /// What the steps are made in. It is taken before the first one, so that no step takes memory.
    type Workspace: Drop;

    ghost word_count: { Self → ℕ };

    ghost choice_count: { Self → ℕ };

    ghost start: { Self → List ℕ };

    ghost step: { Self → List ℕ → ℕ → Step (List ℕ) };

    ghost is_state: { Self → List ℕ → Type 0 } = { λ _ _. Unit {0} };

    ghost is_workspace: { Self → Self.Workspace → Type 0 } = { λ _ _. Unit {0} };

    ghost is_in: { Self → Self.Workspace → List ℕ → Type 0 } = { λ _ _ _. Unit {0} };

    /// The number of words of a state.
    fn width(&self) -> usize
        ensures { result ≡ word_count self.now };

    /// The number of choices, the same in each state. One that is not possible there is refused.
    fn choices(&self) -> u32
        ensures { result ≡ choice_count self.now };

    /// Takes a workspace. Fails only for want of memory.
    fn workspace(&self, alloc: Global) -> Result<Self::Workspace, AllocError>
        ensures { IfOk result (is_workspace self.now) };

    /// Puts the first state into these words.
    fn first(&self, state: &mut [u64])
        requires { length state.old ≡ word_count self.now }
        ensures start { state.new ≡ start self.now }
        ensures state { is_state self.now state.new };

    /// Enters the state: the next choices are made in it.
    fn enter(&self, workspace: &mut Self::Workspace, state: &[u64])
        requires state { is_state self.now state.now }
        requires words { length state.now ≡ word_count self.now }
        requires workspace { is_workspace self.now workspace.old }
        ensures workspace { is_workspace self.now workspace.new }
        ensures inside { is_in self.now workspace.new state.now };

    /// Makes the choice in the state, which was entered, and puts the state that it goes on to into
    /// `next`.
    fn next(
        &self,
        workspace: &mut Self::Workspace,
        state: &[u64],
        choice: u32,
        next: &mut [u64],
    ) -> Taken
        requires choice { choice < choice_count self.now }
        requires state { is_state self.now state.now }
        requires words { length state.now ≡ word_count self.now }
        requires room { length next.old ≡ word_count self.now }
        requires workspace { is_workspace self.now workspace.old }
        requires inside { is_in self.now workspace.old state.now }
        ensures step { step_of result next.new ≡ step self.now state.now choice }
        ensures state { GoesTo (is_state self.now) (step_of result next.new) }
        ensures workspace { is_workspace self.now workspace.new }
        ensures inside { is_in self.now workspace.new state.now };
}
