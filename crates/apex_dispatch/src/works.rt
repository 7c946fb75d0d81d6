//! The work that each core has begun and not ended.
ghost use Rattle.std.specs.Prelude.{◌≡◌, ℕ, ◌==◌, ◌<◌, None, length, option_map, if◌then◌else◌};
ghost use Rattle.apex_types.specs.declared.limits.TheConstants.{MOST_CORES};
ghost use Rattle.apex_machine.specs.Works.{fresh, watched};
ghost use Rattle.apex_dispatch.specs.Works.{broken, work_at};

use apex_machine::{OpenWork, Work};
use apex_store::Store;
use apex_types::{CoreId, MOST_CORE_PLACES, MOST_CORES};
use std::marker::Model;

/// The work that each core has begun and not ended.
#[derive(Drop)]
pub struct Works {
    of_core: [Option<OpenWork>; MOST_CORE_PLACES],
    /// Whether any core has begun work so far. If none has, no event looks at the cores' work.
    has_begun: bool,
}

impl Model for Works {
    ghost use Rattle.std.specs.Prelude.{◌≡◌, ℕ, List, Option, None, false, length};
    ghost use Rattle.apex_machine.specs.declared.works.OpenWork.{OpenWork};
    ghost use Rattle.apex_types.specs.declared.limits.TheConstants.{MOST_CORES};
    ghost use Rattle.apex_dispatch.specs.Works.{work_at};

    ghost Value = { List (Option OpenWork) };

    ghost view = { λ w. w.of_core };

    ghost invariant = { λ w. (length w.of_core ≡ MOST_CORES)
        × (w.has_begun ≡ false → (core : ℕ) → work_at w.of_core core ≡ None) };
}

impl Works {
    /// No core has begun any.
    pub fn new() -> Works
        ensures { (core : ℕ) → work_at result core ≡ None }
    {
        Works {
            of_core: [None; MOST_CORE_PLACES],
            has_begun: false,
        }
    }

    /// The work of each core, by its number.
    pub fn of(of_core: [Option<OpenWork>; MOST_CORE_PLACES]) -> Works
        ensures { result ≡ of_core }
    {
        let has_begun = of_core.iter().any(|begun| begun.is_some());
        Works { of_core, has_begun }
    }

    /// The work that the core has begun and not ended.
    pub fn at(&self, core: CoreId) -> Option<OpenWork>
        ensures { result ≡ work_at self.now core }
    {
        if !self.has_begun {
            return None;
        }
        self.of_core[usize::from(core.number())]
    }

    /// A turn of the core ended the work that was open there, and began this work or none.
    pub(crate) fn begin(&mut self, core: CoreId, work: Option<Work>)
        ensures { (c : ℕ) → work_at self.new c
            ≡ (if c == core then option_map fresh work else work_at self.old c) }
    {
        if work.is_none() && !self.has_begun {
            return;
        }
        self.has_begun = true;
        self.of_core[usize::from(core.number())] = work.map(|work| OpenWork {
            work,
            unbroken: true,
        });
    }

    /// There is a place for each core that may be.
    fn places(&self)
        ensures { length self.now ≡ MOST_CORES }
    {
        let _first = self.of_core[0];
    }

    /// An event has gone by: a core whose chosen process is another one now has lost its work.
    #[inline(always)]
    pub(crate) fn watch<S: Store>(&mut self, store: &S)
        ensures { (c : ℕ) → work_at self.new c
            ≡ option_map (watched (S.roster store.now) c) (work_at self.old c) }
    {
        if self.has_begun {
            self.watch_cores(store);
        }
    }

    /// The same, core by core.
    #[inline(never)]
    fn watch_cores<S: Store>(&mut self, store: &S)
        ensures { (c : ℕ) → work_at self.new c
            ≡ option_map (watched (S.roster store.now) c) (work_at self.old c) }
    {
        self.places();
        for core in 0..MOST_CORES as u8 {
            self.watch_core(store, CoreId::new(core));
        }
    }

    /// The core's work is unbroken so far, and its chosen process is another one.
    fn is_lost<S: Store>(&self, store: &S, core: CoreId) -> bool
        ensures { option_map (watched (S.roster store.now) core) (work_at self.now core)
            ≡ (if result then option_map broken (work_at self.now core)
            else work_at self.now core) }
    {
        match self.at(core) {
            Some(begun) => begun.unbroken && store.chosen(core) != Some(begun.work.process),
            None => false,
        }
    }

    /// The same of one core.
    fn watch_core<S: Store>(&mut self, store: &S, core: CoreId)
        ensures { (c : ℕ) → work_at self.new c
            ≡ (if c == core
            then option_map (watched (S.roster store.now) core) (work_at self.old c)
            else work_at self.old c) }
    {
        if self.is_lost(store, core) {
            self.of_core[usize::from(core.number())] = self.at(core).map(broken);
        }
    }
}

/// The work, whose process has lost the core.
fn broken(begun: OpenWork) -> OpenWork
    ensures { result ≡ broken begun }
{
    OpenWork {
        work: begun.work,
        unbroken: false,
    }
}
