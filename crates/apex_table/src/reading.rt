//! The reading of a whole table.
ghost use Rattle.std.specs.Prelude.{◌≤◌, length, IfOk, IfSome};
ghost use Rattle.apex_types.specs.declared.limits.TheConstants.{MOST_CORES, MOST_INIT_STEPS, MOST_PROCESSES};
ghost use Rattle.toml.specs.View.{table_view};
ghost use Rattle.apex_words.specs.Outcome.{Gives};
ghost use Rattle.apex_table.specs.Reading.{IsRead, head, draft, with_steps, document, table_of};
ghost use Rattle.apex_table.specs.StepTexts.{HaveTexts};

use crate::init::{init_list, init_texts};
use crate::keys;
use crate::names::Names;
use crate::objects::read_objects;
use crate::processes::{Draft, Processes, some_process};
use crate::scripts::with_scripts;
use crate::sections::read_section;
use crate::texts::script_texts;
use apex_configs::{Objects, Table};
use apex_machine::Profile;
use apex_types::{MOST_CORES, MOST_ENTRIES, MOST_PROFILE, USUAL_ENTRIES};
use apex_words::{Key, Place, Section, TableFault};
use std::alloc::Global;
use std::marker::Model;

const TOP_KEYS: &[Key] = &[
    Key::Profile,
    Key::Cores,
    Key::History,
    Key::Entries(Section::Process),
    Key::Entries(Section::Semaphore),
    Key::Entries(Section::Buffer),
    Key::Entries(Section::Blackboard),
    Key::Entries(Section::EventFlag),
    Key::Entries(Section::Mutex),
    Key::Entries(Section::Init),
];

/// What the top of a table says beside its entries.
#[derive(Clone, Copy)]
struct Head {
    profile: Profile,
    cores: u8,
    limit: u32,
}

/// A table whose steps are still texts.
#[derive(Drop)]
struct TableDraft<'a> {
    head: Head,
    processes: Vec<Draft<'a>>,
    objects: Objects,
    init: Option<Vec<&'a str>>,
}

impl<'a> Model for TableDraft<'a> {
    ghost use Rattle.std.specs.Prelude.{map, option_map};
    ghost use Rattle.apex_table.specs.Reading.{TableDraft};

    ghost Value = { TableDraft };

    ghost view = { λ d. record {
      head = d.head;
      processes = d.processes.items;
      objects = d.objects;
      init = option_map (λ v. map (λ t. t.now) v.items) d.init;
    } };
}

/// The head of the table of TOML's tree; the tree has no other keys.
#[tactic(auto, unfolding(crate::specs::Reading::head))]
fn read_head(tree: &toml::Table) -> Result<Head, TableFault>
    ensures gives { Gives (λ h. h) result (head (table_view tree.now)) }
    ensures cores { IfOk result (λ h. (1 ≤ h.cores) × (h.cores ≤ MOST_CORES)) }
{
    let at = Place::of(Section::Top);
    keys::only(at, TOP_KEYS, tree)?;
    let profile = Profile::of(keys::number_or(at, 1, 1, MOST_PROFILE, tree, Key::Profile)?);
    let cores = keys::number_at(at, 1, MOST_CORES, tree, Key::Cores)?;
    let limit = keys::number_or(at, USUAL_ENTRIES, 1, MOST_ENTRIES, tree, Key::History)?;
    Ok(Head {
        profile,
        cores: cores as u8,
        limit,
    })
}

/// The table of TOML's tree, its steps still as texts.
#[tactic(auto, unfolding(crate::specs::Reading::draft))]
fn read_draft(alloc: Global, tree: &toml::Table) -> Result<TableDraft<'_>, TableFault>
    ensures gives { Gives (λ d. d) result (draft (table_view tree.now)) }
    ensures few_processes { IfOk result (λ d. length d.processes ≤ MOST_PROCESSES) }
    ensures few_steps { IfOk result (λ d. IfSome d.init (λ ts. length ts ≤ MOST_INIT_STEPS)) }
{
    let head = read_head(tree)?;
    let entries = Processes {
        profile: head.profile,
        cores: u32::from(head.cores),
    };
    let processes = read_section(alloc, &entries, tree)?;
    some_process(&processes)?;
    let objects = read_objects(alloc, tree)?;
    let init = init_texts(alloc, keys::value_at(tree, Key::Entries(Section::Init)))?;
    Ok(TableDraft {
        head,
        processes,
        objects,
        init,
    })
}

/// The table, with the steps of its scripts and its init list.
#[tactic(auto, unfolding(crate::specs::Reading::with_steps))]
fn with_steps(alloc: Global, draft: TableDraft) -> Result<Table, TableFault>
    requires read { IsRead draft }
    requires few_processes { length draft.processes ≤ MOST_PROCESSES }
    requires few_steps { IfSome draft.init (λ ts. length ts ≤ MOST_INIT_STEPS) }
    ensures { Gives (λ t. t) result (with_steps draft.entry) }
{
    let TableDraft {
        head,
        processes: drafts,
        objects,
        init: texts,
    } = draft;
    let names = Names::of(alloc, &drafts, &objects)?;
    let processes = with_scripts(alloc, &names, &drafts)?;
    let init = init_list(alloc, &names, &processes, &objects, texts)?;
    let script_texts = script_texts(alloc, &drafts)?;
    Ok(Table::new(
        head.profile,
        head.cores,
        head.limit,
        processes,
        objects,
        init,
        script_texts,
    ))
}

fn document(alloc: Global, text: &[u8]) -> Result<toml::Table, TableFault>
    ensures { Gives table_view result (document text.now) }
{
    match toml::table_from_slice(alloc, text) {
        Ok(tree) => Ok(tree),
        Err(e) => {
            if e.is_memory() {
                Err(TableFault::Memory)
            } else {
                Err(TableFault::NotToml)
            }
        }
    }
}

/// The table of a text, or the first of its faults in the order of the checks. `Memory` if memory
/// is refused, which may come at any point.
///
/// Each step of the table has one text: its call, as a line writes it, is read as the step, and no
/// other text is.
#[tactic(auto, using(crate::proofs::TextLaws::texts_given), unfolding(crate::specs::Reading::table_of, crate::specs::Reading::reading),)]
pub fn read_table(alloc: Global, text: &[u8]) -> Result<Table, TableFault>
    ensures table { Gives (λ t. t) result (table_of text.now) }
    ensures texts { IfOk result HaveTexts }
{
    let tree = document(alloc, text)?;
    let draft = read_draft(alloc, &tree)?;
    with_steps(alloc, draft)
}
