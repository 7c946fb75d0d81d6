//! A table under a pace, and a question, as a system to search.
ghost use Rattle.std.specs.Prelude.{◌≡◌, All, IfOk, IfSome, length};
ghost use Rattle.apex_machine.specs.Events.{IsWithin};
ghost use Rattle.apex_machine.specs.table.Table.{IsLawful};
ghost use Rattle.apex_pace.specs.Laws.{IsPace};
ghost use Rattle.apex_pace.specs.Pace.{paced_opening};
ghost use Rattle.apex_search.specs.Answers.{SaysOfSchedules, schedule_of};
ghost use Rattle.apex_search.specs.Census.{asking};
ghost use Rattle.apex_choices.specs.Counts.{IsSamePaced, paced_in};
ghost use Rattle.apex_recall.specs.Laws.{FormsReach};
ghost use Rattle.apex_recall.specs.Restored.{IsStored, paced_from};
ghost use Rattle.apex_search.specs.Steps.{IsCopied, IsHereInTime, IsIn, IsWorkplace};
ghost use Rattle.apex_choices.specs.Choices.{event_of};
ghost use Rattle.apex_recall.specs.Formed.{form_words};
ghost use Rattle.apex_forms.specs.Stored.{word_count};
ghost use Rattle.apex_search.specs.Worst.{IsFormAfter, responding};

use crate::laws::forms_stand_for_situations;
use crate::questions::Question;
use crate::steps::{make, step};
use apex_choices::PacedSituation;
use apex_configs::Table;
use apex_explore::{Answer, System, Taken, Watch};
use apex_forms::{canonical_form, put_words, word_count};
use apex_jobs::Jobs;
use apex_pace::Pace;
use apex_questions::{Fact, Facts};
use apex_recall::{
    forms_are_ready, forms_reach, parts_are_kept, restore, restore_known,
    same_forms_have_the_same_words, turns_are_few, words_are_exact,
};
use apex_types::{Event, Notices, ProcessId};
use std::alloc::{AllocError, Global};
use std::marker::{Model, Sync};
use std::thread::Threads;

/// A table under a pace, and the facts that are looked for in the entries of its runs.
///
/// A choice below the number of cores is a turn of that core, and the last choice is the tick that
/// may come. A state is a situation in canonical form with what the pace counts, as words.
#[derive(Drop)]
pub struct TableSystem {
    table: Table,
    pace: Pace,
    question: Question,
    /// The words of the situation before any event.
    start: Vec<u64>,
}

/// What an event of a search is made in.
#[derive(Drop)]
pub struct Workplace {
    /// The situation in which the choices are made.
    here: Option<PacedSituation>,
    /// The one that the last choice made of it.
    made: Option<PacedSituation>,
    notices: Notices,
}

impl Model for TableSystem {
    ghost use Rattle.std.specs.Prelude.{◌≡◌};
    ghost use Rattle.apex_pace.specs.Laws.{IsPace};
    ghost use Rattle.apex_recall.specs.Laws.{FormsReach};
    ghost use Rattle.apex_search.specs.Steps.{Searched, search_start};

    ghost Value = { Searched };

    ghost view = { λ s. record { table = s.table; pace = s.pace; question = s.question } };

    ghost invariant = { λ s. IsPace s.pace × FormsReach s.table × (s.start.items
        ≡ search_start (record { table = s.table; pace = s.pace; question = s.question })) };
}

impl Workplace {
    /// Takes the memory for the table's situations. Fails only for want of it.
    fn new(alloc: Global, table: &Table) -> Result<Workplace, AllocError>
        requires { FormsReach table.now }
        ensures { IfOk result (IsWorkplace table.now) }
    {
        table.lawful();
        parts_are_kept();
        let here = PacedSituation::opening(alloc, table)?;
        let made = PacedSituation::opening(alloc, table)?;
        Ok(Workplace {
            here: Some(here),
            made: Some(made),
            notices: Notices::new(),
        })
    }

    /// From now on the choices are made in the situation of these words.
    fn enter(&mut self, table: &Table, words: &[u64])
        requires workplace { IsWorkplace table.now self.old }
        requires words { IsStored table.now words.now }
        ensures inside { IsIn table.now self.new words.now }
        ensures made { self.new.made ≡ self.old.made }
    {
        match self.here.take() {
            Some(here) => self.here = Some(restore(here, table, words)),
            None => unreachable!(),
        }
    }

    /// The event of a choice, if it is allowed.
    fn event(&self, pace: Pace, table: &Table, choice: u32) -> Option<Event>
        requires { IsHereInTime self.now }
        ensures event { IfSome self.now.here
            (λ here. result ≡ event_of pace table.now (paced_in here) choice) }
        ensures range { IfSome result (IsWithin table.now.cores) }
    {
        match &self.here {
            Some(here) => here.event(pace, table, choice),
            None => unreachable!(),
        }
    }

    /// The situation of these words, in which the choices are made, is in the memory of what the
    /// last choice made of it, too, so that the next one can be made there.
    fn copy(&mut self, table: &Table, words: &[u64])
        requires workplace { IsWorkplace table.now self.old }
        requires words { IsStored table.now words.now }
        requires inside { IsIn table.now self.old words.now }
        ensures copied { IsCopied table.now self.new words.now }
        ensures here { self.new.here ≡ self.old.here }
    {
        match (self.made.take(), &self.here) {
            (Some(made), Some(here)) => {
                self.made = Some(restore_known(made, table, here, words));
            }
            _ => unreachable!(),
        }
    }
}

/// Puts the words of the canonical form of this situation, which is that before any event.
fn put_start(paced: &PacedSituation, table: &Table, pace: Pace, words: &mut [u64])
    requires pace { IsPace pace }
    requires reach { FormsReach table.now }
    requires start { IsSamePaced (paced_in paced.now) (paced_opening table.now) }
    requires room { length words.old ≡ word_count table.now }
    ensures { words.new ≡ form_words pace table.now (paced_opening table.now) }
{
    table.lawful();
    turns_are_few(pace);
    forms_are_ready();
    put_words(paced, pace, table, words);
}

/// The words of the canonical form of the situation before any event. Fails only for want of
/// memory.
fn start_words(alloc: Global, table: &Table, pace: Pace) -> Result<Vec<u64>, AllocError>
    requires pace { IsPace pace }
    requires reach { FormsReach table.now }
    ensures { IfOk result (λ words. words.items
        ≡ form_words pace table.now (paced_opening table.now)) }
{
    let paced = PacedSituation::opening(alloc, table)?;
    let mut words = vec![in alloc; 0; word_count(table)]?;
    put_start(&paced, table, pace, words.as_mut_slice());
    Ok(words)
}

impl TableSystem {
    /// The table under this pace, with this question. Fails only for want of memory.
    pub fn new(
        alloc: Global,
        table: Table,
        pace: Pace,
        question: Question,
    ) -> Result<TableSystem, AllocError>
        requires pace { IsPace pace }
        ensures table { IfOk result (λ system. system.table ≡ table) }
        ensures pace { IfOk result (λ system. system.pace ≡ pace) }
        ensures question { IfOk result (λ system. system.question ≡ question) }
    {
        forms_reach(&table);
        let start = start_words(alloc, &table, pace)?;
        Ok(TableSystem {
            table,
            pace,
            question,
            start,
        })
    }

    /// Searches the schedules of the pace, the shortest first, for one that leads to one of the facts.
    /// The jobs share the search. The room for `room` states is taken before the first event. Fails only
    /// for want of memory.
    ///
    /// [`TableSystem::schedule`] gives the events of a path that is found.
    pub fn search<R: Threads + Sync, V: Watch>(
        &self,
        alloc: Global,
        room: u32,
        jobs: &Jobs<'_, R>,
        watch: &mut V,
    ) -> Result<Answer, AllocError>
        ensures { IfOk result (SaysOfSchedules self.now room) }
    {
        self.table.lawful();
        words_are_exact();
        same_forms_have_the_same_words();
        forms_stand_for_situations();
        jobs.explore(alloc, self, room, watch)
    }

    /// The events of the choices of a path, up to one that is not allowed. Fails only for want of
    /// memory.
    pub fn schedule(&self, alloc: Global, path: &[u32]) -> Result<Vec<Event>, AllocError>
        ensures events { IfOk result (λ events. events.items ≡ schedule_of self.now path.now) }
        ensures within { IfOk result (λ events. All (IsWithin self.now.table.cores) events.items) }
    {
        let (events, _) = self.follow(alloc, path)?;
        Ok(events)
    }

    /// The events of the choices of a path, up to one that is not allowed, and the canonical form of
    /// the situation to which they lead. Fails only for want of memory.
    pub(crate) fn follow(
        &self,
        alloc: Global,
        path: &[u32],
    ) -> Result<(Vec<Event>, PacedSituation), AllocError>
        ensures events { IfOk result (λ led. led.0.items ≡ schedule_of self.now path.now) }
        ensures within { IfOk result (λ led. All (IsWithin self.now.table.cores) led.0.items) }
        ensures form { IfOk result (λ led. IsFormAfter self.now (paced_in led.1) led.0.items) }
    {
        self.table.lawful();
        turns_are_few(self.pace);
        forms_are_ready();
        forms_stand_for_situations();
        let mut events = Vec::with_capacity(alloc, path.len())?;
        let opening = PacedSituation::opening(alloc, &self.table)?;
        let mut paced = canonical_form(opening, self.pace);
        let mut notices = Notices::new();
        for choice in path {
            let Some(event) = paced.event(self.pace, &self.table, *choice) else {
                return Ok((events, paced));
            };
            let _ = make(
                &mut paced,
                &self.table,
                &self.question,
                &event,
                &mut notices,
            );
            events.push(event)?;
            paced = canonical_form(paced, self.pace);
        }
        Ok((events, paced))
    }

    /// What the answers of a search rest on.
    pub(crate) fn lawful(&self)
        ensures pace { IsPace self.now.pace }
        ensures reach { FormsReach self.now.table }
        ensures table { IsLawful self.now.table }
    {
        self.table.lawful();
    }

    /// The facts of the question.
    pub(crate) fn facts(&self) -> Facts
        ensures { result ≡ self.now.question.facts }
    {
        Facts::of(self.question.facts.as_slice())
    }

    /// From now on the question is for these facts.
    pub(crate) fn ask(&mut self, facts: Facts)
        ensures { self.new ≡ asking self.old facts }
    {
        self.question.facts = facts;
    }

    /// From now on the question is for a response of this process of at least this many ticks.
    pub(crate) fn ask_for_response(&mut self, process: ProcessId, ticks: u64)
        ensures { self.new ≡ responding self.old process ticks }
    {
        self.question = Question {
            facts: Facts::one(Fact::Response(ticks)),
            process: Some(process),
            service: None,
        };
    }

    /// The table.
    pub fn table(&self) -> &Table
        ensures { result.now ≡ self.now.table }
    {
        &self.table
    }
}

impl System for TableSystem {
    ghost use Rattle.apex_recall.specs.Formed.{IsForm};
    ghost use Rattle.apex_search.specs.Steps.{IsIn, IsWorkplace, choices_of, search_start, search_step};
    ghost use Rattle.apex_forms.specs.Stored.{word_count};

    type Workspace = Workplace;

    ghost word_count = { λ s. word_count s.table };

    ghost choice_count = { choices_of };

    ghost start = { search_start };

    ghost step = { search_step };

    ghost is_state = { λ s. IsForm s.pace s.table };

    ghost is_workspace = { λ s. IsWorkplace s.table };

    ghost is_in = { λ s. IsIn s.table };

    fn width(&self) -> usize {
        word_count(&self.table)
    }

    fn choices(&self) -> u32 {
        u32::from(self.table.cores()) + 1
    }

    fn workspace(&self, alloc: Global) -> Result<Workplace, AllocError> {
        Workplace::new(alloc, &self.table)
    }

    fn first(&self, state: &mut [u64]) {
        self.table.lawful();
        turns_are_few(self.pace);
        forms_are_ready();
        state.copy_from_slice(self.start.as_slice());
    }

    fn enter(&self, workplace: &mut Workplace, state: &[u64]) {
        self.table.lawful();
        turns_are_few(self.pace);
        words_are_exact();
        forms_are_ready();
        parts_are_kept();
        workplace.enter(&self.table, state);
    }

    fn next(
        &self,
        workplace: &mut Workplace,
        state: &[u64],
        choice: u32,
        next: &mut [u64],
    ) -> Taken {
        self.table.lawful();
        turns_are_few(self.pace);
        words_are_exact();
        forms_are_ready();
        let Some(event) = workplace.event(self.pace, &self.table, choice) else {
            return Taken::Refused;
        };
        workplace.copy(&self.table, state);
        let Some(paced) = &mut workplace.made else {
            unreachable!()
        };
        step(
            paced,
            self.pace,
            &self.table,
            &self.question,
            event,
            &mut workplace.notices,
            next,
        )
    }
}
