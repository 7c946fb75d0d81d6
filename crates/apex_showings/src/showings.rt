//! How a run is given, and how it is shown.
use crate::windows::Window;
use apex_json::Form;
use apex_pace::Pace;
use apex_scales::{Axis, TickLength};
use apex_schedules::Item;
use apex_types::Name;

/// How a run is given.
#[derive(Drop)]
pub enum RunSource {
    /// By the items of a schedule, for the table that is read.
    Schedule(Vec<Item>),
    /// By the schedule that is read, behind its table.
    ReadSchedule,
    /// By the first schedule of a pace up to a time in ticks, for the table that is read.
    Pace { pace: Pace, until: u64 },
    /// By the history that is read, behind its table.
    History,
}

/// How an SVG shows a run.
#[derive(Drop)]
pub struct Chart {
    /// The entries that are asked for.
    pub window: Window,
    /// The axis along which their columns stand.
    pub axis: Axis,
    /// The names or the numbers of the processes that have a row. None if all have one.
    pub only: Option<Vec<Name>>,
    /// Whether idle entries are folded: they have no column.
    pub fold: bool,
}

/// How a picture shows a run.
#[derive(Drop)]
pub enum Picture {
    /// As SVG.
    Svg(Chart),
    /// As a trace, with ticks of this length.
    Trace(TickLength),
}

/// A listing of a run.
#[derive(Clone, Copy, PartialEq, Eq)]
pub enum Listing {
    /// The entries of its history.
    Lines(Form),
    /// Its last state.
    Status(Form),
    /// The figures of each core and each process.
    Report(Form),
    /// The schedule of its events.
    Schedule,
}

/// How a run is shown.
#[derive(Drop)]
pub enum View {
    /// By a picture, which a second run draws.
    Picture(Picture),
    /// By a listing, which is written from the kernel that made the run.
    Listing(Listing),
}

/// A run that is to be shown.
#[derive(Drop)]
pub struct Showing {
    /// How the run is given.
    pub source: RunSource,
    /// How it is shown.
    pub view: View,
}
