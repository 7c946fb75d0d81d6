//! The places of the columns and of the rows of a picture.
ghost use Rattle.std.specs.Prelude.{◌≡◌, ◌<◌, ◌≤◌, ◌^◌, ℕ, IfOk, length, option_map, None, Some};
ghost use Rattle.apex_machine.specs.table.Table.{Table};
ghost use Rattle.apex_machine.specs.text.Texts.{process_name};
ghost use Rattle.apex_types.specs.declared.limits.TheConstants.{MOST_NAME};
ghost use Rattle.apex_pictures.specs.Axes.{HasColumns};
ghost use Rattle.apex_pictures.specs.Rows.{HasRows};
ghost use Rattle.apex_pictures.specs.Svg.{HasLabels, HasRoom, behind, column_place, column_width, has_row, heading_of, row_of};

use crate::columns::Columns;
use crate::excerpts::{Extent, Timed};
use crate::marks::Mark;
use crate::rows::{ROW, Rows};
use crate::svg::{MOST_CALL, bare_line};
use apex_configs::Table;
use apex_dispatch::Kernel;
use apex_names::process_name;
use apex_scales::Axis;
use apex_store::Store;
use apex_types::{CoreId, ProcessId};
use itoa::Buffer;
use std::alloc::{AllocError, Global};

/// The least width of a picture: that of its key.
const LEAST_WIDTH: u64 = 780;

/// The width of a letter.
const LETTER: u32 = 7;

/// The steps of a letter of a slanted call, up and to the right.
const RISE: u32 = 6;

const ADVANCE: u32 = 4;

/// The entries of a history that are drawn as SVG, and the places of their columns and of the rows.
#[derive(Drop)]
pub struct Frame {
    /// The columns of the entries.
    pub columns: Columns,
    /// The rows of the processes, and the headings of the cores.
    pub rows: Rows,
    /// The mark of a departure, which is drawn behind the last column, if there is one.
    pub mark: Option<Mark>,
    pub(crate) width: u64,
    /// The height at which the rows end.
    pub(crate) bottom: u32,
    /// Where the key begins, below the instants.
    pub(crate) foot: u32,
    /// The place at which the first column begins.
    pub(crate) left: u32,
}

/// The number of letters of the longest name of a process.
fn longest_name(table: &Table) -> u32
    ensures longest { (p : ℕ) → p < length table.now.processes
        → length (process_name table.now p) ≤ result }
    ensures range { result ≤ MOST_NAME }
{
    let mut longest = 0;
    for place in 0..table.process_count() {
        let name = process_name(table, ProcessId::at(place as u8));
        longest = longest.max(name.len());
    }
    longest as u32
}

/// The number of letters of the call and the reply of the entry of this number; 0 if there is none.
fn call_letters<S: Store>(kernel: &Kernel<S>, number: u32) -> usize {
    kernel.holds();
    let place = number.saturating_sub(1) as usize;
    if place < kernel.entries().len() {
        let entry = kernel.entry(place);
        bare_line(kernel.table(), &entry).len().saturating_sub(14)
    } else {
        0
    }
}

/// The number of letters that are drawn of the longest call and reply of these entries.
fn longest_call<S: Store>(kernel: &Kernel<S>, entries: &[Timed]) -> u32
    ensures { result ≤ 61 }
{
    let mut longest = 0;
    for entry in entries {
        longest = longest.max(call_letters(kernel, entry.number));
    }
    longest.min(MOST_CALL + 1) as u32
}

/// The number of letters of an instant.
fn instant_letters(now: u64) -> u32
    ensures { result ≤ 32 }
{
    let mut buffer = Buffer::new();
    buffer.format(now).len().min(32) as u32
}

impl Frame {
    /// The frame for the entries of a kernel's history that are asked for, [`MOST_COLUMNS`] at the
    /// most, with their columns along this axis, and with rows for these processes, or for all.
    /// Fails only for want of memory.
    ///
    /// [`MOST_COLUMNS`]: crate::MOST_COLUMNS
    pub fn new<S: Store>(
        alloc: Global,
        kernel: &Kernel<S>,
        axis: Axis,
        extent: Extent,
        only: Option<&[ProcessId]>,
    ) -> Result<Frame, AllocError>
        ensures columns { IfOk result (λ frame. HasColumns axis extent
            kernel.now.machine.history frame.columns) }
        ensures rows { IfOk result (λ frame. HasRows kernel.now.table
            (option_map (λ list. list.now) only.entry) frame.rows) }
        ensures unmarked { IfOk result (λ frame. frame.mark ≡ None) }
        ensures room { IfOk result HasRoom }
        ensures labels { IfOk result (HasLabels kernel.now.table) }
    {
        let table = kernel.table();
        table.lawful();
        let columns = Columns::new(alloc, kernel, axis, extent)?;
        let longest = longest_call(kernel, columns.drawn.as_slice());
        let top = 20 + RISE * longest;
        let left = 50 + LETTER * longest_name(table);
        let rows = Rows::new(table, only, top);
        let bottom = top + ROW * rows.lines() + 6;
        let width = left + columns.behind + ADVANCE * longest + 30;
        Ok(Frame {
            columns,
            rows,
            mark: None,
            width: u64::from(width).max(LEAST_WIDTH),
            bottom,
            foot: bottom + 40 + RISE * instant_letters(kernel.now()),
            left,
        })
    }

    /// The frame with the mark of a departure, and with room for it.
    pub fn marked(mut self, mark: Mark) -> Frame
        ensures columns { result.columns ≡ self.columns }
        ensures rows { result.rows ≡ self.rows }
        ensures mark { result.mark ≡ Some mark }
        ensures room { HasRoom self → HasRoom result }
        ensures labels { (table : Table) → HasLabels table self → HasLabels table result }
    {
        let width = self.behind() + u64::from(LETTER * mark.letters() + 30);
        self.width = self.width.max(width);
        self.mark = Some(mark);
        self
    }

    /// Whether a process has a row.
    pub(crate) fn has_row(&self, process: ProcessId) -> bool
        ensures { result ≡ has_row self.now process }
    {
        match self.rows.chosen.as_slice().get(process.place()) {
            Some(chosen) => *chosen,
            None => false,
        }
    }

    /// The place behind the last column.
    pub(crate) fn behind(&self) -> u64
        ensures { result ≡ behind self.now }
    {
        u64::from(self.left) + u64::from(self.columns.behind)
    }

    /// The place at which the first column begins.
    fn edge(&self) -> u64
        ensures value { result ≡ self.now.left }
        ensures range { result < 2 ^ 32 }
    {
        u64::from(self.left)
    }

    /// The place of the column of the entry of this number.
    pub(crate) fn place(&self, number: u32) -> u64
        ensures { result ≡ column_place self.now number }
    {
        self.edge() + self.columns.at(self.columns.before(number))
    }

    /// The width of the column of the entry of this number, up to the next one.
    pub(crate) fn width_of(&self, number: u32) -> u64
        ensures { result ≡ column_width self.now number }
    {
        let before = self.columns.before(number);
        let next = self.columns.at(before + 1);
        next.saturating_sub(self.columns.at(before))
    }

    /// The place of the row of a process.
    pub(crate) fn row(&self, process: ProcessId) -> u64
        ensures value { result ≡ row_of self.now process }
        ensures range { result < 2 ^ 32 }
    {
        match self.rows.places.as_slice().get(process.place()) {
            Some(row) => u64::from(*row),
            None => 0,
        }
    }

    /// The place of the heading of a core.
    pub(crate) fn heading(&self, core: CoreId) -> u64
        ensures value { result ≡ heading_of self.now core }
        ensures range { result < 2 ^ 32 }
    {
        match self
            .rows
            .headings
            .as_slice()
            .get(usize::from(core.number()))
        {
            Some(heading) => u64::from(*heading),
            None => 0,
        }
    }
}
