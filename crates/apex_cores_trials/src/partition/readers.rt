//! The readers of a board: as many as it may have, and no more.
ghost use Rattle.std.specs.Prelude.{◌≡◌, length};
ghost use Rattle.apex_receipts.specs.Receipts.{IsNamedAfter};

use super::alone::ALONE;
use apex_configs::Table;
use apex_partition::{Naming, NewBoard, Opened, open_read};
use apex_table::read_table;
use std::alloc::Global;
use std::marker::Brand;
use std::mem::drop;
use std::process::Abort;

/// The most readers of a board.
const READERS: u32 = 8;

/// Opens a partition of this table, and takes each of the readers of its board.
fn take_readers<P: Naming, R: Abort>(
    rt: &R,
    alloc: Global,
    table: Table,
    opened: Opened,
    board: NewBoard,
)
    requires table { P.table ≡ table }
    requires named { IsNamedAfter P.book P.scribe P.voice opened }
    requires cores { length opened.cores ≡ table.cores }
    requires cell { P.cell ≡ board.cell }
{
    let opened = open_read::<P>(alloc, table, opened, board);
    let (shared, seats, ticker, mut board) = opened.expect(rt, "memory");
    let mut readers = Vec::new(alloc);
    for _ in 0..READERS {
        let reader = board.take().expect(rt, "the board has a reader");
        readers.push(reader).expect(rt, "memory");
    }
    let other = board.take();
    assert!(rt; other.is_none());
    drop(other);
    drop(readers);
    drop(board);
}

fn take_readers_of<R: Abort>(rt: &R, alloc: Global, text: &str) {
    let table = read_table(alloc, text.as_bytes()).expect(rt, "the table is lawful");
    let opened = Opened::new(alloc, u32::from(table.cores())).expect(rt, "memory");
    let board = NewBoard::new(alloc, READERS).expect(rt, "memory");
    take_readers::<Brand, R>(rt, alloc, table, opened, board);
}

#[test]
fn a_board_has_eight_readers_and_no_more(rt: HostRuntime) {
    take_readers_of(&rt, rt.alloc(), ALONE);
}
