//! Work at the items of a list, each in a thread of its own.
ghost use Rattle.std.specs.Thread.{IsSend, IsSync};
ghost use Rattle.std.specs.Prelude.{◌+◌, ◌^◌, ◌<◌, length};
ghost use Rattle.std.specs.Fork.{AcceptsAt, ChangesAt};
ghost use Rattle.apex_jobs.specs.Items.{AreChangedFrom, IsEachFrom};

use std::marker::{Send, Sync};
use std::thread::{Threads, join_mut};

/// Calls the function with the place and the item.
fn at_one<T, F: Fn(usize, &mut T)>(f: &F, place: usize, item: &mut T)
    requires { AcceptsAt F.Fn f.now place item.old }
    ensures { ChangesAt F.Fn f.now place item.old item.new }
{
    f(place, item);
}

/// Calls the function with an item, in a thread of its own if one can be made, and with those behind it.
/// The item has the place `first`.
#[cycle(parts)]
fn one_and_rest<R: Threads + Sync, T: Send, F: Fn(usize, &mut T) + Sync>(
    rt: &R,
    item: &mut T,
    rest: &mut [T],
    first: usize,
    f: &F,
)
    requires room { first + 1 + length rest.old < 2 ^ 64 }
    requires item { AcceptsAt F.Fn f.now first item.old }
    requires rest { IsEachFrom (AcceptsAt F.Fn f.now) (first + 1) rest.old }
    ensures item { ChangesAt F.Fn f.now first item.old item.new }
    ensures rest { AreChangedFrom (ChangesAt F.Fn f.now) (first + 1) rest.old rest.new }
{
    let mut one = ||
        requires { AcceptsAt F.Fn f.now first item.now }
        ensures { ChangesAt F.Fn f.entry.now first item.entry.now item.exit.now }
    { at_one(f, first, item) };
    let mut others = ||
        requires { IsSync R.row × IsSync F.row × IsSend T.row
            × (first + 1 + length rest.now < 2 ^ 64)
            × IsEachFrom (AcceptsAt F.Fn f.now) (first + 1) rest.now }
        ensures { AreChangedFrom (ChangesAt F.Fn f.entry.now) (first + 1) rest.entry.now
            rest.exit.now }
    { each_from(rt, rest, first + 1, f) };
    join_mut(rt, &mut one, &mut others);
}

/// Calls the function with each item, as `for_each_apart` does. The first one has the place `first`.
#[cycle(parts)]
fn each_from<R: Threads + Sync, T: Send, F: Fn(usize, &mut T) + Sync>(
    rt: &R,
    items: &mut [T],
    first: usize,
    f: &F,
)
    requires room { first + length items.old < 2 ^ 64 }
    requires accepts { IsEachFrom (AcceptsAt F.Fn f.now) first items.old }
    ensures { AreChangedFrom (ChangesAt F.Fn f.now) first items.old items.new }
{
    match items.split_first_mut() {
        Some((item, rest)) => one_and_rest(rt, item, rest, first, f),
        None => {}
    }
}

/// Calls the function with each item and its place, in a thread of its own if one can be made.
///
/// The caller makes the threads and then waits for them. It does nothing meanwhile, since a thread may begin
/// on the processor of the one that makes it, and stay behind that one for some time.
pub(crate) fn for_each_apart<R: Threads + Sync, T: Send, F: Fn(usize, &mut T) + Sync>(
    rt: &R,
    items: &mut [T],
    f: &F,
)
    requires accepts { IsEachFrom (AcceptsAt F.Fn f.now) 0 items.old }
    ensures changed { AreChangedFrom (ChangesAt F.Fn f.now) 0 items.old items.new }
{
    each_from(rt, items, 0, f);
}
