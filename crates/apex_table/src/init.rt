//! The init list that a table gives.
ghost use Rattle.std.specs.Prelude.{◌≡◌, ◌<◌, ◌≤◌, map, length, option_map, IfOk, IfSome};
ghost use Rattle.apex_types.specs.declared.limits.TheConstants.{MOST_INIT_STEPS, MOST_PROCESSES};
ghost use Rattle.toml.specs.View.{view};
ghost use Rattle.apex_words.specs.Outcome.{Gives};
ghost use Rattle.apex_table.specs.Init.{next_text, texts, given_texts, init_texts, is_init_call, init_step, next_init_step, init_steps, init_list};

use crate::default_init::default_init;
use crate::keys;
use crate::names::Names;
use crate::steps::{of_word, step};
use apex_calls::{parts_of, row_of};
use apex_configs::{Objects, ProcessConfig};
use apex_machine::Step;
use apex_types::{Call, MOST_INIT_STEPS, Origin};
use apex_words::{Place, Section, TableFault};
use std::alloc::Global;
use toml::Value;

fn next_text<'a>(before: &[&'a str], value: &'a Value) -> Result<&'a str, TableFault>
    requires { length before.now < MOST_INIT_STEPS }
    ensures { Gives (λ t. t.now) result (next_text (map (λ t. t.now) before.now) (view value.now)) }
{
    let at = Place::next(Section::Init, before.len());
    keys::text(at.step(before.len()), value)
}

fn texts<'a>(alloc: Global, items: &'a [Value]) -> Result<Vec<&'a str>, TableFault>
    requires { length items.now ≤ MOST_INIT_STEPS }
    ensures gives { Gives (λ v. map (λ t. t.now) v.items) result (texts (map view items.now)) }
    ensures count { IfOk result (λ v. length v.items ≡ length items.now) }
{
    let mut texts = Vec::new(alloc);
    for item in items {
        texts.push(next_text(&texts, item)?)?;
    }
    Ok(texts)
}

#[tactic(auto, unfolding(crate::specs::Init::given_texts))]
fn given_texts<'a>(alloc: Global, value: &'a Value) -> Result<Vec<&'a str>, TableFault>
    ensures gives { Gives (λ v. map (λ t. t.now) v.items) result (given_texts (view value.now)) }
    ensures count { IfOk result (λ v. length v.items ≤ MOST_INIT_STEPS) }
{
    let here = Place::of(Section::Init).whole();
    let items = keys::array(here, value)?;
    keys::at_most(here, MOST_INIT_STEPS, items)?;
    texts(alloc, items)
}

/// The texts of the init list, if the table gives one.
pub fn init_texts<'a>(
    alloc: Global,
    value: Option<&'a Value>,
) -> Result<Option<Vec<&'a str>>, TableFault>
    ensures gives { Gives (option_map (λ v. map (λ t. t.now) v.items)) result
        (init_texts (option_map (λ v. view v.now) value.entry)) }
    ensures few_steps { IfOk result (λ o. IfSome o (λ v. length v.items ≤ MOST_INIT_STEPS)) }
{
    match value {
        Some(value) => Ok(Some(given_texts(alloc, value)?)),
        None => Ok(None),
    }
}

/// Whether an init list may have the call.
fn is_init_call(call: &Call) -> bool
    ensures { result ≡ is_init_call call.now }
{
    let (service, _arguments) = parts_of(call);
    row_of(service).may_init
}

/// The step of this origin, by its text; last it is tested whether an init list may have its
/// service.
#[tactic(auto, unfolding(crate::specs::Init::init_step))]
fn init_step(
    alloc: Global,
    at: Place,
    origin: Origin,
    names: &Names,
    text: &str,
) -> Result<Step, TableFault>
    ensures { Gives (λ s. s) result (init_step at origin names.now text.now) }
{
    let step = step(alloc, at, origin, names, text)?;
    if is_init_call(&step.call()) {
        Ok(step)
    } else {
        Err(TableFault::BadInitStep(of_word(at, &origin, 0)))
    }
}

fn next_init_step(
    alloc: Global,
    names: &Names,
    before: &[Step],
    text: &str,
) -> Result<Step, TableFault>
    requires { length before.now < MOST_INIT_STEPS }
    ensures { Gives (λ s. s) result (next_init_step names.now before.now text.now) }
{
    let at = Place::next(Section::Init, before.len());
    let origin = Origin::Init(before.len() as u16);
    init_step(alloc, at, origin, names, text)
}

fn init_steps(alloc: Global, names: &Names, texts: &[&str]) -> Result<Vec<Step>, TableFault>
    requires { length texts.now ≤ MOST_INIT_STEPS }
    ensures { Gives (λ v. v.items) result (init_steps names.now (map (λ t. t.now) texts.now)) }
{
    let mut steps = Vec::new(alloc);
    for text in texts {
        steps.push(next_init_step(alloc, names, &steps, text)?)?;
    }
    Ok(steps)
}

/// The init list that the table gives by these texts, or else the default one.
pub fn init_list(
    alloc: Global,
    names: &Names,
    processes: &[ProcessConfig],
    objects: &Objects,
    texts: Option<Vec<&str>>,
) -> Result<Vec<Step>, TableFault>
    requires processes { length processes.now ≤ MOST_PROCESSES }
    requires texts { IfSome texts (λ v. length v.items ≤ MOST_INIT_STEPS) }
    ensures { Gives (λ v. v.items) result
        (init_list names.now processes.now objects.now
        (option_map (λ v. map (λ t. t.now) v.items) texts.entry)) }
{
    match texts {
        Some(texts) => init_steps(alloc, names, &texts),
        None => Ok(default_init(alloc, processes, objects)?),
    }
}
