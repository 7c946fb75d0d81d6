//! One search for all facts of a question: which of them can happen, and how soon.
ghost use Rattle.std.specs.Prelude.{◌≡◌, IfOk};
ghost use Rattle.apex_explore.specs.Paths.{IsHit};
ghost use Rattle.apex_explore.specs.Searches.{room_of};
ghost use Rattle.apex_search.specs.Answers.{IsShortestSchedule, SaysOfSchedules};
ghost use Rattle.apex_search.specs.Census.{FoundHits, IsCensus, IsOneOf, IsSearchOf, alone, asking, without};
ghost use Rattle.apex_search.specs.Steps.{makes, search_start};

use crate::laws::forms_stand_for_situations;
use crate::systems::{TableSystem, Workplace};
use apex_explore::{Answer, Search, Watch, is_hit};
use apex_jobs::Jobs;
use apex_questions::{Fact, Facts};
use apex_recall::{same_forms_have_the_same_words, words_are_exact};
use std::alloc::{AllocError, Global};
use std::marker::Sync;
use std::mem::drop;
use std::thread::Threads;

/// A fact that can happen: the path is that of a shortest schedule that leads to it, and its entry
/// has the number of the path's choices.
#[derive(Drop)]
pub struct Finding {
    /// The fact of that entry.
    pub fact: Fact,
    /// The choices of that schedule by their numbers, in order.
    pub path: Vec<u32>,
}

/// How a search for all facts ended.
#[derive(Clone, Copy, PartialEq, Eq)]
pub enum End {
    /// No schedule leads to one of the others, and this many states are reached in all.
    Closed { states: usize },
    /// No schedule of at most `depth` events leads to one of the others: the room is used up.
    Full { depth: usize },
}

/// What one search says of all facts of a question.
#[derive(Drop)]
pub struct Census {
    /// The facts that were found, those of the least entries first.
    pub found: Vec<Finding>,
    /// The facts that were not.
    pub others: Facts,
    /// Why none of the others was found.
    pub end: End,
}

impl TableSystem {
    /// Searches on for one of the facts. Fails only for want of memory: nothing is known of the
    /// search then.
    pub(crate) fn go_on<R: Threads + Sync, V: Watch>(
        &self,
        alloc: Global,
        search: &mut Search<Workplace>,
        jobs: &Jobs<'_, R>,
        watch: &mut V,
    ) -> Result<Answer, AllocError>
        requires { IsSearchOf self.now search.old }
        ensures says { IfOk result (SaysOfSchedules self.now (room_of search.old)) }
        ensures hits { IfOk result (FoundHits self.now) }
        ensures search { IfOk result (λ _. IsSearchOf self.now search.new) }
        ensures room { IfOk result (λ _. room_of search.new ≡ room_of search.old) }
    {
        self.lawful();
        words_are_exact();
        same_forms_have_the_same_words();
        forms_stand_for_situations();
        jobs.go_on(alloc, search, self, watch)
    }

    /// One of the facts to which the path leads. Afterwards the question is for the others. Fails
    /// only for want of memory.
    fn strike(&mut self, alloc: Global, path: &[u32]) -> Result<Fact, AllocError>
        requires shortest { IsShortestSchedule self.old path.now }
        requires hits { IsHit (makes self.old) (search_start self.old) path.now }
        ensures asked { IfOk result (λ fact. IsOneOf fact self.old.question.facts) }
        ensures shortest { IfOk result (λ fact. IsShortestSchedule (alone self.old fact) path.now) }
        ensures others { IfOk result (λ fact. self.new
            ≡ asking self.old (without fact self.old.question.facts)) }
    {
        self.lawful();
        words_are_exact();
        same_forms_have_the_same_words();
        forms_stand_for_situations();
        let facts = self.facts();
        for fact in facts.as_slice() {
            self.ask(Facts::one(*fact));
            if is_hit(alloc, &*self, path)? {
                self.ask(facts.without(*fact));
                return Ok(*fact);
            }
        }
        unreachable!()
    }

    /// Searches on for each of the facts. Fails only for want of memory.
    fn find_all<R: Threads + Sync, V: Watch>(
        &mut self,
        alloc: Global,
        search: &mut Search<Workplace>,
        jobs: &Jobs<'_, R>,
        watch: &mut V,
    ) -> Result<Census, AllocError>
        requires { IsSearchOf self.old search.old }
        ensures { IfOk result (IsCensus self.old (room_of search.old)) }
    {
        let mut found = Vec::new(alloc);
        loop {
            match self.go_on(alloc, search, jobs, watch)? {
                Answer::Found(path) => {
                    let fact = self.strike(alloc, path.as_slice())?;
                    found.push(Finding { fact, path })?;
                }
                Answer::Closed { states } => return Ok(self.ended(found, End::Closed { states })),
                Answer::Full { depth } => return Ok(self.ended(found, End::Full { depth })),
            }
        }
    }

    /// Searches the schedules of the pace, the shortest first, for each of the facts at once. The jobs
    /// share the search. The room for `room` states is taken before the first event. Fails only for want
    /// of memory.
    pub fn census<R: Threads + Sync, V: Watch>(
        mut self,
        alloc: Global,
        room: u32,
        jobs: &Jobs<'_, R>,
        watch: &mut V,
    ) -> Result<Census, AllocError>
        ensures { IfOk result (IsCensus self room) }
    {
        let mut search = Search::new(alloc, &self, room)?;
        let census = self.find_all(alloc, &mut search, jobs, watch);
        drop(search);
        census
    }

    /// The census of what was found; the question is for the others.
    fn ended(&self, found: Vec<Finding>, end: End) -> Census
        ensures { result ≡ record { found = found; others = self.now.question.facts; end = end } }
    {
        Census {
            found,
            others: self.facts(),
            end,
        }
    }
}
