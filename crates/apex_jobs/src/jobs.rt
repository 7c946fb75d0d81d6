//! A search by several threads.
ghost use Rattle.std.specs.Prelude.{◌≡◌, ◌+◌, ◌*◌, ◌<◌, ◌≤◌, length, IfOk, IfSome, None};
ghost use Rattle.apex_explore.specs.Answers.{Says};
ghost use Rattle.apex_explore.specs.Desks.{IsDesk};
ghost use Rattle.apex_explore.specs.Levels.{Stops};
ghost use Rattle.apex_explore.specs.Searches.{AreLeft, IsOver, IsSearched, IsSearchedBefore, IsUnderWay, room_of};
ghost use Rattle.apex_explore.specs.Systems.{step_within};
ghost use Rattle.apex_states.specs.Lists.{AllAre};

use crate::beginning::begin_all;
use crate::laying::lay_out_all;
use crate::taking::take_and_expand;
use apex_explore::{Answer, Desk, Places, Search, Stop, System, Watch};
use std::alloc::{AllocError, Global};
use std::marker::{Send, Sync};
use std::mem::drop;
use std::thread::Threads;

/// A desk has at most this many states at once. More take more memory until what is found in them is kept,
/// and with fewer the threads wait for each other more often.
const MOST_AT_DESK: usize = 4096;

/// To expand fewer states than this takes less time than to begin a thread.
const LEAST_AT_DESK: usize = 32;

/// Of `states` states, the number of those from the place `end` on that can be laid out while those before
/// are kept. They are those of the level, which ends at `limit`. At its end they are those of the next one
/// that are there, unless there are too few for this many desks.
fn states_ahead(states: usize, end: usize, limit: usize, desks: usize) -> usize
    requires in_order { end ≤ limit }
    requires within { limit ≤ states }
    requires some { 0 < desks }
    ensures within { end + result ≤ states }
    ensures level { end < limit → end + result ≤ limit }
{
    if end < limit {
        return limit - end;
    }
    let left = states - end;
    if left / LEAST_AT_DESK < desks {
        0
    } else {
        left
    }
}

/// The jobs among which the states of a level are split.
#[derive(Clone, Copy)]
pub struct Jobs<'r, R> {
    rt: &'r R,
    jobs: u32,
}

impl<'r, R: Threads + Sync> Jobs<'r, R> {
    /// `jobs` jobs, each with a desk and a thread that expands states there, beside a thread that keeps
    /// those that they find. The caller does all if `jobs` is 0 or 1.
    pub fn new(rt: &'r R, jobs: u32) -> Jobs<'r, R> {
        Jobs { rt, jobs }
    }

    /// Searches the system's states, nearest first, for a choice that hits, as
    /// `apex_explore::explore` does. Each desk has a workspace, too, and what is found there takes memory
    /// until it is kept.
    pub fn explore<W: Drop + Send, S: System<Workspace = W> + Sync, V: Watch>(
        &self,
        alloc: Global,
        system: &S,
        room: u32,
        watch: &mut V,
    ) -> Result<Answer, AllocError>
        ensures { let step = step_within (S.choice_count system.now) (S.step system.now) in
            IfOk result (Says step (S.start system.now) room) }
    {
        let mut search = Search::new(alloc, system, room)?;
        let answer = self.go_on(alloc, &mut search, system, watch);
        drop(search);
        answer
    }

    /// Searches on, nearest states first, for a choice of the system that hits, as `Search::go_on`
    /// does. Fails only for want of memory: nothing is known of the search then.
    pub fn go_on<W: Drop + Send, S: System<Workspace = W> + Sync, V: Watch>(
        &self,
        alloc: Global,
        search: &mut Search<W>,
        system: &S,
        watch: &mut V,
    ) -> Result<Answer, AllocError>
        requires over { IsOver (S.word_count system.now) (S.is_state system.now)
            (S.is_workspace system.now) search.old }
        requires searched { let step = step_within (S.choice_count system.now) (S.step system.now)
            in IsSearchedBefore step (S.start system.now) search.old }
        ensures says { let step = step_within (S.choice_count system.now) (S.step system.now) in
            IfOk result (Says step (S.start system.now) (room_of search.old)) }
        ensures over { IfOk result (λ _. IsOver (S.word_count system.now) (S.is_state system.now)
            (S.is_workspace system.now) search.new) }
        ensures searched { let step = step_within (S.choice_count system.now) (S.step system.now) in
            IfOk result (λ _. IsSearched step (S.start system.now) search.new) }
        ensures room { IfOk result (λ _. room_of search.new ≡ room_of search.old) }
    {
        if self.jobs < 2 || search.len() == 0 {
            return search.go_on(alloc, system, watch);
        }
        let mut desks = self.desks(alloc, system)?;
        let desks = desks.as_mut_slice();
        loop {
            search.show(watch);
            let stopped = self.go_on_level(alloc, search, system, desks, watch)?;
            match stopped {
                Some(stop) => return search.answer(alloc, system, stop),
                None => {}
            }
        }
    }

    /// The desks of the jobs. Fails only for want of memory.
    fn desks<W: Drop, S: System<Workspace = W>>(
        &self,
        alloc: Global,
        system: &S,
    ) -> Result<Vec<Desk<W>>, AllocError>
        ensures count { IfOk result (λ desks.
            length desks.items ≡ self.now.jobs) }
        ensures desks { IfOk result (λ desks.
            AllAre (IsDesk (S.word_count system.now) (S.is_workspace system.now)) desks.items) }
    {
        let mut desks = Vec::new(alloc);
        for _ in 0..self.jobs {
            desks.push(Desk::new(alloc, system)?)?;
        }
        Ok(desks)
    }

    /// Of the states of a level that are left, the number that are laid out on the desks at once.
    fn states_at_once(&self, left: usize) -> usize
        requires { 0 < left }
        ensures some { 0 < result }
        ensures within { result ≤ left }
    {
        let desks = self.jobs.max(1) as usize;
        left.min(MOST_AT_DESK.saturating_mul(desks))
    }

    /// Goes on for the states of a level that are left, or until there is an answer: why it stops then.
    /// Fails only for want of memory.
    fn go_on_level<W: Drop + Send, S: System<Workspace = W> + Sync, V: Watch>(
        &self,
        alloc: Global,
        search: &mut Search<W>,
        system: &S,
        desks: &mut [Desk<W>],
        watch: &mut V,
    ) -> Result<Option<Stop>, AllocError>
        requires some { 0 < length desks.old }
        requires desks { AllAre (IsDesk (S.word_count system.now) (S.is_workspace system.now))
            desks.old }
        requires over { IsOver (S.word_count system.now) (S.is_state system.now)
            (S.is_workspace system.now) search.old }
        requires searched { let step = step_within (S.choice_count system.now)
            (S.step system.now) in
            IsUnderWay step (S.start system.now) search.old }
        ensures over { IfOk result (λ _. IsOver (S.word_count system.now) (S.is_state system.now)
            (S.is_workspace system.now) search.new) }
        ensures searched { let step = step_within (S.choice_count system.now) (S.step system.now) in
            IfOk result (λ _. IsUnderWay step (S.start system.now) search.new) }
        ensures stop { let step = step_within (S.choice_count system.now) (S.step system.now) in
            IfOk result (λ stop. IfSome stop (Stops step search.new.states search.new.front)) }
        ensures further { IfOk result (λ stop. stop ≡ None
            → search.old.front.at < search.new.front.at) }
        ensures room { IfOk result (λ _. room_of search.new ≡ room_of search.old) }
        ensures desks { IfOk result (λ stop. stop ≡ None
            → AllAre (IsDesk (S.word_count system.now) (S.is_workspace system.now)) desks.new) }
    {
        let Some(places) = search.turn(system) else {
            return Ok(Some(Stop::Done));
        };
        let Places { from, limit } = places;
        if (limit - from) / LEAST_AT_DESK < desks.len() {
            return search.go_on_for(alloc, system, limit - from);
        }
        self.go_on_at_once(alloc, search, system, desks, places, watch)
    }

    /// Goes on for these states of a level, some at a time: while threads expand some, others keep what was
    /// found before. At the end of the level it goes on with the next one, as long as there are enough
    /// states for the desks. It stops before that if there is an answer: why it stops then. Fails only for
    /// want of memory.
    fn go_on_at_once<W: Drop + Send, S: System<Workspace = W> + Sync, V: Watch>(
        &self,
        alloc: Global,
        search: &mut Search<W>,
        system: &S,
        desks: &mut [Desk<W>],
        places: Places,
        watch: &mut V,
    ) -> Result<Option<Stop>, AllocError>
        requires some { 0 < length desks.old }
        requires desks { AllAre (IsDesk (S.word_count system.now) (S.is_workspace system.now))
            desks.old }
        requires over { IsOver (S.word_count system.now) (S.is_state system.now)
            (S.is_workspace system.now) search.old }
        requires searched { let step = step_within (S.choice_count system.now)
            (S.step system.now) in
            IsUnderWay step (S.start system.now) search.old }
        requires left { AreLeft search.old.front places }
        ensures over { IfOk result (λ _. IsOver (S.word_count system.now) (S.is_state system.now)
            (S.is_workspace system.now) search.new) }
        ensures searched { let step = step_within (S.choice_count system.now) (S.step system.now) in
            IfOk result (λ _. IsUnderWay step (S.start system.now) search.new) }
        ensures stop { let step = step_within (S.choice_count system.now) (S.step system.now) in
            IfOk result (λ stop. IfSome stop (Stops step search.new.states search.new.front)) }
        ensures further { IfOk result (λ stop. stop ≡ None
            → search.old.front.at < search.new.front.at) }
        ensures room { IfOk result (λ _. room_of search.new ≡ room_of search.old) }
        ensures desks { IfOk result (λ stop. stop ≡ None
            → AllAre (IsDesk (S.word_count system.now) (S.is_workspace system.now)) desks.new) }
    {
        let Places { from, mut limit } = places;
        let mut end = from + self.states_at_once(limit - from);
        let states = search.states();
        let mut expansions = begin_all(self.rt, alloc, system, states, desks, from, end)?;
        loop {
            search.show(watch);
            let left = states_ahead(search.len(), end, limit, desks.len());
            if left == 0 {
                return search.take(alloc, system, end, expansions.as_slice());
            }
            let next = end + self.states_at_once(left);
            lay_out_all(self.rt, alloc, system, search.states(), desks, end, next)?;
            let found = expansions.as_slice();
            let (stop, more) = take_and_expand(self.rt, alloc, system, search, end, found, desks)?;
            match stop {
                Some(stop) => return Ok(Some(stop)),
                None => {}
            }
            expansions = more;
            let Some(places) = search.turn(system) else {
                return Ok(Some(Stop::Done));
            };
            limit = places.limit;
            end = next;
        }
    }
}
