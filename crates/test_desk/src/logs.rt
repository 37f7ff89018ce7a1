//! What stands after the log of a desk, listed and copied by calls that no run of the program makes.

ghost use Rattle.std.specs.Ordering.{nat_cmp};
ghost use Rattle.std.specs.List.Sorted.{IsStrictlySortedBy};

use crate::retries::{add, open_desk};
use crate::texts::{BLOCK_ASKED, BLOCK_GRANTED, FIRST_GET};
use std::alloc::Global;
use std::test::Fail;
use tl_capture::Present;
use tl_edits::{Inputs, Log};

/// A copy of what stands after a copy of a log.
fn copied(log: &Log) -> Result<Inputs, Fail> {
    let copy = log.copy()?;
    let inputs = copy.inputs().copy();
    drop(copy);
    Ok(inputs?)
}

/// A copy of what stands on a desk with three fragments, the later one of cpu0 added first.
fn standing(alloc: Global) -> Result<Inputs, Fail> {
    let mut desk = open_desk(alloc)?;
    add(alloc, &mut desk, BLOCK_GRANTED);
    add(alloc, &mut desk, BLOCK_ASKED);
    add(alloc, &mut desk, FIRST_GET);
    let copy = copied(desk.log());
    drop(desk);
    copy
}

/// The links cpu0 and dma0.
fn two() -> [u16; 2]
    ensures { IsStrictlySortedBy nat_cmp result }
{
    [0, 2]
}

/// Where the beats of these links in window 0 stand: link, fragment and line.
fn places(alloc: Global, present: &Present) -> Result<Vec<(u16, u32, u32)>, Fail> {
    let mut places = Vec::new(alloc);
    let beats = present.window_beats(alloc, 0, &two())?;
    for at in &beats.gathered(alloc)? {
        places.push((at.link, at.fragment, at.line))?;
    }
    Ok(places)
}

/// Whether what stands there is listed as it is to be.
fn is_listed(alloc: Global, present: &Present) -> Result<bool, Fail> {
    let places = places(alloc, present)?;
    let gets = [(2, 1, 2), (2, 1, 3)];
    let block = [(0, 1, 2), (0, 2, 2), (0, 2, 3), (0, 2, 4), (0, 2, 5)];
    Ok(places.get(..2) == Some(gets.as_slice()) && places.get(2..) == Some(block.as_slice()))
}

#[test]
fn a_copy_of_a_log_lists_what_stands_there(rt: HostRuntime) -> Result<(), Fail> {
    let inputs = standing(rt.alloc())?;
    let is_listed = is_listed(rt.alloc(), inputs.present());
    drop(inputs);
    assert!(rt; is_listed?);
    Ok(())
}
