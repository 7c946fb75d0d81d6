//! The opening of a partition that threads will share.
ghost use Rattle.std.specs.Prelude.{◌≡◌, ◌≤◌, [], IfOk, None, length, vec_len};
ghost use Rattle.apex_types.specs.declared.limits.TheConstants.{MOST_CORES};
ghost use Rattle.apex_types.specs.declared.entries.Who.TheVariants.{Ticker as ToTicker};
ghost use Rattle.apex_board.specs.Boards.{HasPublished};
ghost use Rattle.apex_receipts.specs.Receipts.{unspoken, unspoken_cores, IsNamedAfter};
ghost use Rattle.apex_partition.specs.Seats.{IsSeated};

use crate::partitions::Partition;
use crate::published::Published;
use crate::seats::{Seat, Ticker};
use crate::shared::Shared;
use apex_board::{Board, NewBoard, Publisher};
use apex_configs::Table;
use apex_receipts::{Naming, Opened, Scribe, Voice};
use apex_types::CoreId;
use std::alloc::{AllocError, Global};

/// The seats that speak with these voices.
fn seated<P: Naming>(alloc: Global, voices: Vec<Voice<P>>) -> Result<Vec<Seat<P>>, AllocError>
    requires voices { voices.items ≡ unspoken_cores P.table.cores }
    requires few_cores { P.table.cores ≤ MOST_CORES }
    ensures { IfOk result (λ seats. seats.items ≡ unspoken_cores P.table.cores) }
{
    let mut seats = Vec::new(alloc);
    for voice in voices {
        let core = CoreId::new(seats.len() as u8);
        seats.push(Seat::new(core, voice))?;
    }
    Ok(seats)
}

/// The scribe of the book that was opened, a seat for each core, in the order of their numbers, and
/// the ticker.
fn seats_of<P: Naming>(
    alloc: Global,
    opened: Opened,
) -> Result<(Scribe<P>, Vec<Seat<P>>, Ticker<P>), AllocError>
    requires named { IsNamedAfter P.book P.scribe P.voice opened }
    requires cores { length opened.cores ≡ P.table.cores }
    requires few_cores { P.table.cores ≤ MOST_CORES }
    ensures scribe { IfOk result (λ all. all.0 ≡ []) }
    ensures seats { IfOk result (λ all. all.1.items ≡ unspoken_cores P.table.cores) }
    ensures ticker { IfOk result (λ all. all.2 ≡ unspoken ToTicker) }
{
    let (scribe, voices, voice) = opened.into_parts::<P>(alloc)?;
    let seats = seated(alloc, voices)?;
    Ok((scribe, seats, Ticker::new(voice)))
}

/// A partition before any event, which threads will share.
fn shared<P: Naming>(
    alloc: Global,
    table: Table,
    scribe: Scribe<P>,
    publisher: Option<Publisher<P>>,
) -> Result<Shared<P>, AllocError>
    requires table { P.table ≡ table }
    requires scribe { scribe ≡ [] }
    requires publisher { HasPublished P.cell [] publisher }
{
    let partition = Partition::boot(alloc, table)?;
    Ok(Shared::new(Published::new(partition, scribe, publisher)))
}

/// A partition before any event, a seat for each core, in the order of their numbers, the ticker,
/// and the board with the partition's readers.
///
/// It takes all the memory that events will fill, and fails only for want of memory, which leaves
/// nothing behind. `P` is named after the book that was opened for it, after the table, and after
/// the cell of the board.
pub fn open_read<P: Naming>(
    alloc: Global,
    table: Table,
    opened: Opened,
    board: NewBoard,
) -> Result<(Shared<P>, Vec<Seat<P>>, Ticker<P>, Board<P>), AllocError>
    requires table { P.table ≡ table }
    requires named { IsNamedAfter P.book P.scribe P.voice opened }
    requires cores { length opened.cores ≡ table.cores }
    requires cell { P.cell ≡ board.cell }
    ensures seated { IfOk result (λ all. IsSeated all.1.items) }
    ensures each { IfOk result (λ all. vec_len all.1 ≡ P.table.cores) }
    ensures seats { IfOk result (λ all. all.1.items ≡ unspoken_cores P.table.cores) }
    ensures ticker { IfOk result (λ all. all.2 ≡ unspoken ToTicker) }
    ensures board { IfOk result (λ all. all.3 ≡ board.readers) }
{
    table.lawful();
    let cores = usize::from(table.cores());
    let (scribe, seats, ticker) = seats_of::<P>(alloc, opened)?;
    let (publisher, board) = board.into_parts::<P>(alloc, cores)?;
    let shared = shared(alloc, table, scribe, publisher)?;
    Ok((shared, seats, ticker, board))
}

/// A partition as `open_read` opens it, without readers: it publishes nothing. Fails only for want
/// of memory.
pub fn open<P: Naming>(
    alloc: Global,
    table: Table,
    opened: Opened,
) -> Result<(Shared<P>, Vec<Seat<P>>, Ticker<P>), AllocError>
    requires table { P.table ≡ table }
    requires named { IsNamedAfter P.book P.scribe P.voice opened }
    requires cores { length opened.cores ≡ table.cores }
    requires cell { P.cell ≡ None }
    ensures seated { IfOk result (λ all. IsSeated all.1.items) }
    ensures each { IfOk result (λ all. vec_len all.1 ≡ P.table.cores) }
    ensures seats { IfOk result (λ all. all.1.items ≡ unspoken_cores P.table.cores) }
    ensures ticker { IfOk result (λ all. all.2 ≡ unspoken ToTicker) }
{
    let (shared, seats, ticker, _board) = open_read(
        alloc,
        table,
        opened,
        NewBoard::without_readers(),
    )?;
    Ok((shared, seats, ticker))
}
