//! The situation of a partition: all on which its future depends, and what each event does to it. It
//! knows no history.
ghost use Rattle.std.specs.Prelude.{◌≡◌, ℕ, ◌+◌, ◌<◌, ◌≤◌, [], None, IfNone, IfOk, IfSome, if◌then◌else◌};
ghost use Rattle.apex_types.specs.declared.entries.Caller.TheVariants.{Nobody};
ghost use Rattle.apex_types.specs.declared.entries.Event.TheVariants.{Turn, Tick};
ghost use Rattle.apex_types.specs.declared.entries.Reply.TheVariants.{Idle};
ghost use Rattle.apex_types.specs.declared.limits.TheConstants.{MOST_ENTRIES, MOST_TICKS};
ghost use Rattle.apex_machine.specs.Machine.{opening, situation_of};
ghost use Rattle.apex_machine.specs.Situations.{deed, due_call, step};
ghost use Rattle.apex_machine.specs.processes.Roster.{opening_roster};
ghost use Rattle.apex_machine.specs.services.Callers.{is_by_init};
ghost use Rattle.apex_dispatch.specs.Deeds.{Does};
ghost use Rattle.apex_laws.specs.GoesOn.{CanGoOn};
ghost use Rattle.apex_dispatch.specs.Situations.{situation_in, situation_with};

use crate::deeds::{Deed, carry_out};
use crate::ticks::pass_time;
use crate::works::Works;
use apex_configs::Table;
use apex_machine::OpenWork;
use apex_services::Objects;
use apex_store::Store;
use apex_types::{Call, Caller, CoreId, Mode, Notices, Reply};
use std::alloc::{AllocError, Global};
use std::marker::Model;

/// The situation of a partition, over any store of its processes: all on which its future depends.
///
/// It has no history. A [`Kernel`](crate::Kernel) is a situation with a log.
pub struct Situation<S: Store> {
    store: S,
    objects: Objects,
    works: Works,
    /// The number of init steps that were carried out.
    made: usize,
}

// Whoever owns a situation lets it go in one step, and not in one for each field.
impl<S: Store> Drop for Situation<S> {
    fn drop(self) {
        let Situation {
            store: _store,
            objects: _objects,
            works: _works,
            made: _made,
        } = self;
    }
}

impl<S: Store> Model for Situation<S> {
    ghost use Rattle.apex_dispatch.specs.Situations.{StoredSituation};

    ghost Value = { StoredSituation S };

    ghost view = { λ s. record {
      roster = S.roster s.store;
      objects = s.objects;
      works = s.works;
      made = s.made;
      store = s.store;
    } };
}

/// The number of init steps that a turn with this caller carries out.
fn steps_by(caller: &Caller) -> usize
    ensures { result ≡ (if is_by_init caller.now then 1 else 0) }
{
    match caller {
        Caller::Init => 1,
        Caller::Process(_) | Caller::Nobody => 0,
    }
}

impl<S: Store> Situation<S> {
    /// The situation before any event, which takes all the memory that events will fill but a log's.
    /// It fails only for want of memory.
    pub fn opening(alloc: Global, table: &Table, store: S) -> Result<Situation<S>, AllocError>
        requires { S.roster store ≡ opening_roster table.now }
        ensures situation { IfOk result (λ s. situation_in s
            ≡ situation_of table.now (opening table.now)) }
        ensures goes_on { IfOk result (λ s. (left : ℕ) → left ≤ MOST_ENTRIES
            → CanGoOn table.now left (situation_in s)) }
    {
        table.lawful();
        Ok(Situation {
            store,
            objects: Objects::new(alloc, table)?,
            works: Works::new(),
            made: 0,
        })
    }

    /// The situation of these parts: `made` is the number of init steps that were carried out.
    pub fn new(store: S, objects: Objects, works: Works, made: usize) -> Situation<S>
        ensures situation { situation_in result
            ≡ situation_with (S.roster store) objects works made }
        ensures store { result.store ≡ store }
    {
        Situation {
            store,
            objects,
            works,
            made,
        }
    }

    /// Its parts, of which [`Situation::new`] makes it again.
    pub fn into_parts(self) -> (S, Objects, Works, usize)
        ensures situation { situation_in self
            ≡ situation_with (S.roster result.0) result.1 result.2 result.3 }
        ensures store { result.0 ≡ self.store }
    {
        let Situation {
            store,
            objects,
            works,
            made,
        } = self;
        (store, objects, works, made)
    }

    /// The store of its processes.
    pub fn store(&self) -> &S
        ensures value { result.now ≡ self.now.store }
        ensures roster { S.roster result.now ≡ self.now.roster }
    {
        &self.store
    }

    /// The objects, with their running values.
    pub fn objects(&self) -> &Objects
        ensures { result.now ≡ self.now.objects }
    {
        &self.objects
    }

    /// The work that is open on the core.
    pub fn work(&self, core: CoreId) -> Option<OpenWork>
        ensures { result ≡ (situation_in self.now).works core }
    {
        self.works.at(core)
    }

    /// The number of init steps that were carried out.
    pub fn init_steps_made(&self) -> usize
        ensures { result ≡ self.now.made }
    {
        self.made
    }

    /// The time in ticks.
    pub fn now(&self) -> u64
        ensures { result ≡ self.now.roster.now }
    {
        self.store.now()
    }

    /// The init step that is due in a turn of the core: in COLD_START core 0 carries out the next one.
    pub fn due_call(&self, table: &Table, core: CoreId) -> Option<Call>
        ensures { result ≡ due_call table.now (situation_in self.now) core }
    {
        if self.store.mode() == Mode::ColdStart && core.number() == 0 {
            table.init_call(self.made)
        } else {
            None
        }
    }

    /// One turn of the core, whole. Answers its deed, or None if the turn is idle, and leaves its
    /// notices alone in `notices`.
    // Inlined, so that no deed is copied on its way to a log. An idle turn answers None, so that its
    // entry is written from constants.
    #[inline(always)]
    pub(crate) fn turn_unless_idle(
        &mut self,
        table: &Table,
        core: CoreId,
        notices: &mut Notices,
    ) -> Option<Deed>
        requires { CanGoOn table.now 1 (situation_in self.old) }
        ensures situation { situation_in self.new
            ≡ step table.now (situation_in self.old) (Turn core) }
        ensures done { IfSome result (λ done. Does
            (deed table.now (situation_in self.old) (Turn core)) done.caller done.call done.reply
            self.new.roster self.new.objects [] notices.new) }
        ensures idle { IfNone result (Does
            (deed table.now (situation_in self.old) (Turn core)) Nobody None Idle
            self.new.roster self.new.objects [] notices.new) }
        ensures goes_on { (left : ℕ) → CanGoOn table.now (left + 1) (situation_in self.old)
            → CanGoOn table.now left (situation_in self.new) }
    {
        table.lawful();
        notices.clear();
        let due = self.due_call(table, core);
        match carry_out(
            table,
            &mut self.store,
            &mut self.objects,
            core,
            self.works.at(core),
            due,
            notices,
        ) {
            Some(deed) => {
                self.made += steps_by(&deed.caller);
                self.works.begin(core, deed.begun());
                self.works.watch(&self.store);
                Some(deed)
            }
            None => {
                self.works.begin(core, None);
                self.works.watch(&self.store);
                None
            }
        }
    }

    /// One turn of the core, whole. Answers its deed, and leaves its notices alone in `notices`.
    pub fn turn(&mut self, table: &Table, core: CoreId, notices: &mut Notices) -> Deed
        requires { CanGoOn table.now 1 (situation_in self.old) }
        ensures situation { situation_in self.new
            ≡ step table.now (situation_in self.old) (Turn core) }
        ensures answer { Does (deed table.now (situation_in self.old) (Turn core))
            result.caller result.call result.reply
            self.new.roster self.new.objects [] notices.new }
        ensures goes_on { (left : ℕ) → CanGoOn table.now (left + 1) (situation_in self.old)
            → CanGoOn table.now left (situation_in self.new) }
    {
        match self.turn_unless_idle(table, core, notices) {
            Some(deed) => deed,
            None => Deed::idle(),
        }
    }

    /// One tick, whole: time goes on by `n` ticks, but not past the next instant at which a wait
    /// ends by itself or a deadline passes. Answers its deed, and leaves its notices alone in
    /// `notices`.
    #[inline(always)]
    pub fn tick(&mut self, table: &Table, n: u32, notices: &mut Notices) -> Deed
        requires range { (1 ≤ n) × (n ≤ MOST_TICKS) }
        requires can { CanGoOn table.now 1 (situation_in self.old) }
        ensures situation { situation_in self.new
            ≡ step table.now (situation_in self.old) (Tick n) }
        ensures answer { Does (deed table.now (situation_in self.old) (Tick n))
            result.caller result.call result.reply
            self.new.roster self.new.objects [] notices.new }
        ensures goes_on { (left : ℕ) → CanGoOn table.now (left + 1) (situation_in self.old)
            → CanGoOn table.now left (situation_in self.new) }
    {
        table.lawful();
        notices.clear();
        let went = pass_time(&mut self.store, n, notices);
        self.works.watch(&self.store);
        Deed {
            caller: Caller::Nobody,
            call: None,
            reply: Reply::Advanced(n, went),
        }
    }
}
