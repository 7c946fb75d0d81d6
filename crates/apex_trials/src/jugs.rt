//! A search of a system whose answers are known: two jugs are filled, emptied and poured into each
//! other until one holds what is wanted.
ghost use Rattle.std.specs.Prelude.{◌≡◌, ◌≤◌};
ghost use Rattle.apex_trials.specs.Jugs.{poured};

use apex_explore::{Answer, NoWatch, System, Taken, explore};
use std::alloc::{AllocError, Global};
use std::process::Abort;

/// How much each jug can hold, and what is wanted in one of them.
#[derive(Drop)]
struct Puzzle {
    small: u64,
    large: u64,
    wanted: u64,
}

impl Puzzle {
    /// What the jugs hold after a choice.
    fn poured(&self, small: u64, large: u64, choice: u32) -> (u64, u64)
        requires small { small ≤ self.now.small }
        requires large { large ≤ self.now.large }
        ensures { result ≡ poured self.now.small self.now.large small large choice }
    {
        let on = small.min(self.large - large);
        let back = large.min(self.small - small);
        match choice {
            0 => (self.small, large),
            1 => (small, self.large),
            2 => (0, large),
            3 => (small, 0),
            4 => (small - on, large + on),
            _ => (small + back, large - back),
        }
    }
}

impl System for Puzzle {
    ghost use Rattle.std.specs.Prelude.{◌≤◌, [], ◌∷◌, slice_index};
    ghost use Rattle.apex_trials.specs.Jugs.{pour};

    type Workspace = ();

    ghost word_count = { λ _. 2 };

    ghost choice_count = { λ _. 6 };

    ghost start = { λ _. 0 ∷ 0 ∷ [] };

    ghost step = { λ p. pour p.small p.large p.wanted };

    ghost is_state = { λ p words. (slice_index words 0 ≤ p.small) × (slice_index words 1 ≤ p.large) };

    fn width(&self) -> usize {
        2
    }

    fn choices(&self) -> u32 {
        6
    }

    fn workspace(&self, _alloc: Global) -> Result<(), AllocError> {
        Ok(())
    }

    fn first(&self, state: &mut [u64]) {
        state.copy_from_slice(&[0, 0]);
    }

    fn enter(&self, _workspace: &mut (), _state: &[u64]) {}

    fn next(&self, _workspace: &mut (), state: &[u64], choice: u32, next: &mut [u64]) -> Taken {
        let (small, large) = self.poured(state[0], state[1], choice);
        if small == state[0] && large == state[1] {
            return Taken::Refused;
        }
        if small == self.wanted || large == self.wanted {
            return Taken::Hit;
        }
        next.copy_from_slice(&[small, large]);
        Taken::Next
    }
}

/// The answer for jugs that can hold this much each, if this much is wanted in one of them.
fn answer_to<R: Abort>(
    rt: &R,
    alloc: Global,
    (small, large, wanted): (u64, u64, u64),
    room: u32,
) -> Answer {
    let puzzle = Puzzle {
        small,
        large,
        wanted,
    };
    explore(alloc, &puzzle, room, &mut NoWatch).expect(rt, "memory")
}

/// The answer is a path of these choices.
fn has_path(answer: &Answer, choices: &[u32]) -> bool {
    matches!(answer, Answer::Found(path) if path.as_slice() == choices)
}

/// With jugs of 3 and 5 it takes six choices to have 4. Jugs of 2 and 6 never hold an odd amount, and
/// come to eight states. With room for five states the search of the first puzzle ends early.
#[test]
fn jugs_are_poured(rt: HostRuntime) {
    let found = answer_to(&rt, rt.alloc(), (3, 5, 4), 1000);
    assert!(&rt; has_path(&found, &[1, 5, 2, 5, 1, 5]));
    assert!(&rt; answer_to(&rt, rt.alloc(), (2, 6, 3), 8) == Answer::Closed { states: 8 });
    assert!(&rt; answer_to(&rt, rt.alloc(), (3, 5, 4), 5) == Answer::Full { depth: 1 });
}
