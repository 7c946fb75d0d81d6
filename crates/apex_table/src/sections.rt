//! A section of any kind, entry by entry.
ghost use Rattle.std.specs.Prelude.{◌≡◌, ◌<◌, ◌≤◌, ℕ, List, length, map, option_map, Result, IfOk};
ghost use Rattle.apex_types.specs.declared.limits.TheConstants.{MOST_INIT_STEPS};
ghost use Rattle.toml.specs.Data.{Members};
ghost use Rattle.toml.specs.View.{view, table_view};
ghost use Rattle.apex_words.specs.Outcome.{Gives};
ghost use Rattle.apex_table.specs.Sections.{SectionHead, head_of, kind_of, tables, next_entry, section};

use crate::keys;
use crate::named::HasName;
use apex_types::Name;
use apex_words::{Key, Place, Section, TableFault};
use std::alloc::Global;
use toml::{Table, Value};

/// A section, the most entries that it may have, and the keys of one.
#[derive(Clone, Copy)]
pub struct SectionHead<'k> {
    /// The section of the entries.
    pub section: Section,
    /// The most entries that it may have.
    pub most: usize,
    /// The keys that an entry may have.
    pub keys: &'k [Key],
}

/// A kind of entries.
pub trait EntryKind<'a> {
    ghost use Rattle.apex_words.specs.declared.fault.Place.{Place};
    ghost use Rattle.apex_words.specs.declared.fault.TableFault.{TableFault};

    type Entry: HasName + Drop;

    ghost head: { Self → SectionHead };

    ghost read: { Self → Place → List ℕ → Members → Result Self.Entry TableFault };

    /// The section of these entries, the most of them, and the keys of one.
    fn head(&self) -> SectionHead<'static>
        ensures head { head_of result ≡ head self.now }
        ensures few_entries { result.most ≤ MOST_INIT_STEPS };

    /// Reads the entry of this name.
    fn entry(
        &self,
        alloc: Global,
        at: Place,
        name: Name,
        table: &'a Table,
    ) -> Result<Self::Entry, TableFault>
        ensures { Gives (λ e. e) result (read self.now at name (table_view table.now)) };
}

fn tables<'a>(head: SectionHead<'_>, value: Option<&'a Value>) -> Result<&'a [Value], TableFault>
    ensures gives { Gives (λ s. map view s.now) result
        (tables (head_of head.entry) (option_map (λ v. view v.now) value.entry)) }
    ensures few_entries { IfOk result (λ s. length s.now ≤ head.entry.most) }
{
    let here = Place::of(head.section).whole();
    match value {
        Some(value) => {
            let items = keys::array(here, value)?;
            keys::at_most(here, head.most, items)?;
            Ok(items)
        }
        None => Ok(&[]),
    }
}

#[tactic(auto, unfolding(crate::specs::Sections::entry))]
fn next_entry<'a, K: EntryKind<'a>>(
    alloc: Global,
    head: SectionHead<'_>,
    kind: &K,
    before: &[K::Entry],
    value: &'a Value,
) -> Result<K::Entry, TableFault>
    requires { length before.now < MOST_INIT_STEPS }
    ensures { Gives (λ e. e) result
        (next_entry (kind_of (head_of head.entry) K.Entry.name_of (K.read kind.now)) before.now
        (view value.now)) }
{
    let at = Place::next(head.section, before.len());
    let table = keys::table(at.whole(), value)?;
    keys::only(at, head.keys, table)?;
    let name = keys::name_at(at, before, table)?;
    kind.entry(alloc, at, name, table)
}

/// The entries of a kind, from the top of the table.
#[tactic(auto, unfolding(crate::specs::Sections::section))]
pub fn read_section<'a, K: EntryKind<'a>>(
    alloc: Global,
    kind: &K,
    top: &'a Table,
) -> Result<Vec<K::Entry>, TableFault>
    ensures gives { Gives (λ v. v.items) result
        (section (kind_of (K.head kind.now) K.Entry.name_of (K.read kind.now))
        (table_view top.now)) }
    ensures few_entries { IfOk result (λ v. length v.items ≤ (K.head kind.now).most) }
{
    let head = kind.head();
    let items = tables(head, keys::value_at(top, Key::Entries(head.section)))?;
    let mut entries = Vec::new(alloc);
    for item in items {
        entries.push(next_entry(alloc, head, kind, &entries, item)?)?;
    }
    Ok(entries)
}
