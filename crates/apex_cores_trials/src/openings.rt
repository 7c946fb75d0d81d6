//! Partitions that tests open.
ghost use Rattle.std.specs.Prelude.{◌≡◌, None, length};
ghost use Rattle.apex_receipts.specs.Receipts.{IsNamedAfter};

use crate::closings::{Outcome, close};
use crate::steps::{Step, take_steps};
use apex_configs::Table;
use apex_partition::{
    Board, Naming, NewBoard, Opened, Reader, Receipt, Seat, Shared, Ticker, open_read,
};
use apex_table::read_table;
use std::alloc::Global;
use std::marker::Brand;
use std::mem::drop;
use std::process::Abort;
use std::sync::Wait;
use std::thread::Threads;

/// An open partition, with all that makes its events or sees them.
pub struct Open<P: Naming> {
    /// What threads share.
    pub shared: Shared<P>,
    /// The seats, in the order of their cores, except for those at work.
    pub seats: Vec<Seat<P>>,
    /// The ticker, unless it is at work.
    pub ticker: Option<Ticker<P>>,
    /// The reader, if there is one.
    pub reader: Option<Reader<P>>,
    /// The receipts that were handed out, or those of each worker's last turn.
    pub receipts: Vec<Receipt<P>>,
}

/// Those who read the fronts of a partition.
#[derive(Clone, Copy)]
pub enum Audience {
    Nobody,
    OneReader,
}

/// Opens a partition of this table, with this audience, takes the steps, and closes it.
pub fn open_and_play<R: Abort + Threads + Wait + Sync>(
    rt: &R,
    alloc: Global,
    text: &str,
    audience: Audience,
    steps: &[Step],
) -> Outcome {
    let table = read_table(alloc, text.as_bytes()).expect(rt, "the table is lawful");
    let opened = Opened::new(alloc, u32::from(table.cores())).expect(rt, "memory");
    match audience {
        Audience::Nobody => play_without_reader::<Brand, R>(rt, alloc, table, opened, steps),
        Audience::OneReader => {
            let board = NewBoard::new(alloc, 1).expect(rt, "memory");
            play_with_reader::<Brand, R>(rt, alloc, table, opened, board, steps)
        }
    }
}

/// The one reader of a board.
fn take_reader<P: Naming, R: Abort>(rt: &R, mut board: Board<P>) -> Reader<P> {
    let reader = board.take().expect(rt, "the board has a reader");
    let other = board.take();
    assert!(rt; other.is_none());
    drop(other);
    drop(board);
    reader
}

fn play_with_reader<P: Naming + Send + Sync, R: Abort + Threads + Wait + Sync>(
    rt: &R,
    alloc: Global,
    table: Table,
    opened: Opened,
    board: NewBoard,
    steps: &[Step],
) -> Outcome
    requires table { P.table ≡ table }
    requires named { IsNamedAfter P.book P.scribe P.voice opened }
    requires cores { length opened.cores ≡ table.cores }
    requires cell { P.cell ≡ board.cell }
{
    let cores = usize::from(table.cores());
    let opened = open_read::<P>(alloc, table, opened, board);
    let (shared, seats, ticker, board) = opened.expect(rt, "memory");
    let reader = take_reader(rt, board);
    let open = Open {
        shared,
        seats,
        ticker: Some(ticker),
        reader: Some(reader),
        receipts: Vec::new(alloc),
    };
    play(rt, alloc, open, cores, steps)
}

fn play_without_reader<P: Naming + Send + Sync, R: Abort + Threads + Wait + Sync>(
    rt: &R,
    alloc: Global,
    table: Table,
    opened: Opened,
    steps: &[Step],
) -> Outcome
    requires table { P.table ≡ table }
    requires named { IsNamedAfter P.book P.scribe P.voice opened }
    requires cores { length opened.cores ≡ table.cores }
    requires cell { P.cell ≡ None }
{
    let cores = usize::from(table.cores());
    let opened = apex_partition::open::<P>(alloc, table, opened);
    let (shared, seats, ticker) = opened.expect(rt, "memory");
    let open = Open {
        shared,
        seats,
        ticker: Some(ticker),
        reader: None,
        receipts: Vec::new(alloc),
    };
    play(rt, alloc, open, cores, steps)
}

/// Takes the steps with an open partition, whose table has `cores` cores, and closes it.
fn play<P: Naming + Send + Sync, R: Abort + Threads + Wait + Sync>(
    rt: &R,
    alloc: Global,
    mut open: Open<P>,
    cores: usize,
    steps: &[Step],
) -> Outcome
    requires { cores ≡ P.table.cores }
{
    take_steps(rt, alloc, &mut open, steps);
    close(rt, alloc, open, cores)
}
