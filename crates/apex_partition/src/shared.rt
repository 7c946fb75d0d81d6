//! A partition that threads share.
ghost use Rattle.std.specs.Prelude.{◌≡◌, ℕ, ◌<◌, ◌≤◌, All, IfErr, IfOk, IfSome, OnErr, OnOk, slice_index_or, vec_len};
ghost use Rattle.std.specs.Fn.{FnOnceReturnsAt};
ghost use Rattle.apex_types.specs.declared.entries.Entry.{Entry};
ghost use Rattle.apex_types.specs.declared.entries.Who.TheVariants.{Core, Ticker as ToTicker};
ghost use Rattle.apex_types.specs.declared.limits.TheConstants.{MOST_TICKS};
ghost use Rattle.apex_receipts.specs.Receipts.{Spoken, IsAtItsPlace, told_full};
ghost use Rattle.apex_partition.specs.Headline.{Headline, PartitionState};
ghost use Rattle.apex_partition.specs.Seats.{IsOneOf, IsReceiptOf, IsRun, IsSeated, IsSettled, asked_ticks};

use crate::closed::Closed;
use crate::partitions::Partition;
use crate::published::Published;
use crate::seats::{Seat, Ticker};
use apex_receipts::{Naming, Receipt};
use apex_types::Full;
use std::sync::{Mutex, Wait};

/// A partition behind its lock. Each call holds the lock for one whole event, and takes no memory.
#[derive(Drop)]
pub struct Shared<P: Naming> {
    lock: Mutex<Published<P>>,
}

impl<P: Naming> Shared<P> {
    pub(crate) fn new(published: Published<P>) -> Shared<P> {
        Shared {
            lock: Mutex::new(published),
        }
    }

    /// One turn of the seat's core, whole. A full history answers [`Full`], and stays as it is.
    pub fn turn<R: Wait>(&self, rt: &R, seat: &mut Seat<P>) -> Result<Receipt<P>, Full>
        ensures ok { IfOk result (λ r. IsReceiptOf seat.old r seat.new) }
        ensures learns { OnErr result (seat.new ≡ told_full seat.old) }
        ensures full { IfErr result (λ e. e.entries ≡ P.table.limit) }
    {
        self.lock.lock(rt).turn(rt, seat)
    }

    /// One turn of the seat's core, whole, as [`Shared::turn`] makes it. Its receipt takes the
    /// place of this one. A full history answers [`Full`], and stays as it is, as the receipt does.
    pub fn turn_into<R: Wait>(
        &self,
        rt: &R,
        seat: &mut Seat<P>,
        receipt: &mut Receipt<P>,
    ) -> Result<(), Full>
        ensures ok { OnOk result (IsReceiptOf seat.old receipt.new seat.new) }
        ensures learns { OnErr result (seat.new ≡ told_full seat.old) }
        ensures same { OnErr result (receipt.new ≡ receipt.old) }
        ensures full { IfErr result (λ e. e.entries ≡ P.table.limit) }
    {
        self.lock.lock(rt).turn_into(rt, seat, receipt)
    }

    /// One tick, whole: time goes on by `n` ticks, but not past the next instant at which a wait
    /// ends by itself or a deadline passes. A full history answers [`Full`], and stays as it is.
    pub fn tick<R: Wait>(&self, rt: &R, ticker: &mut Ticker<P>, n: u32) -> Result<Receipt<P>, Full>
        requires range { (1 ≤ n) × (n ≤ MOST_TICKS) }
        ensures ok { IfOk result (λ r. IsReceiptOf ticker.old r ticker.new) }
        ensures asks { IfOk result (λ r. asked_ticks r.entry ≡ n) }
        ensures learns { OnErr result (ticker.new ≡ told_full ticker.old) }
        ensures full { IfErr result (λ e. e.entries ≡ P.table.limit) }
    {
        self.lock.lock(rt).tick(rt, ticker, n)
    }

    /// The answer of `f` to the partition, which is lent to it under the lock. If a receipt is
    /// given, its entry is in the history.
    pub fn look<R: Wait, T, F: FnOnce(&Partition) -> T>(
        &self,
        rt: &R,
        seen: Option<&Receipt<P>>,
        f: F,
    ) -> T
        requires { F.IsAlwaysCallable f }
        ensures { (partition : PartitionState) × (partition.table ≡ P.table) × Headline partition
            × IfSome seen.entry (λ r.
            IsAtItsPlace partition.machine.history r.now.entry r.now.place)
            × FnOnceReturnsAt F.FnOnce f partition result }
    {
        let mut locked = self.lock.lock(rt);
        f(locked.shown(seen))
    }

    /// Ends the partition: the entries that its seats and its ticker made are its history. Takes no
    /// lock.
    pub fn close(self, seats: Vec<Seat<P>>, ticker: Ticker<P>) -> Closed<P>
        requires seated { IsSeated seats.items }
        requires each { vec_len seats ≡ P.table.cores }
        ensures run { IsRun P.table result }
        ensures seats { (core : ℕ) (seat : Spoken) → core < vec_len seats
            → IsSettled P.table result (Core core) (slice_index_or seats.items core seat) }
        ensures ticker { IsSettled P.table result ToTicker ticker }
        ensures others { All (λ (e : Entry). IsOneOf P.table.cores e.who) result }
    {
        let mut locked = self.lock.into_inner();
        locked.settle_seats(seats);
        locked.settle_ticker(ticker);
        locked.close()
    }
}
