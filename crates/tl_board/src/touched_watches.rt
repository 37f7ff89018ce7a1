//! Which windows of monitors an edit touches.

ghost use Rattle.std.specs.Prelude.{◌≡◌, ◌<◌, ◌^◌, ◌↔◌, ℕ, IfOk, None, Some};
ghost use Rattle.std.specs.List.{Contains};
ghost use Rattle.tl_definitions.specs.Watching.{IsWatch};
ghost use Rattle.tl_edits.specs.Edits.{AnEdit, plain, plain_change};
ghost use Rattle.tl_edits.specs.Inputs.{InputData, attached};
ghost use Rattle.tl_pieces.specs.declared.key.PieceKey.{PieceKey as AnyKey};
ghost use Rattle.tl_check.specs.Captured.{watched_beats};
ghost use Rattle.tl_board.specs.Touch.{TouchesLink};
ghost use Rattle.tl_board.specs.Touched.{IsTouched};
ghost use Rattle.tl_capture.specs.Windows.{HasBeat};
ghost use Rattle.tl_board.specs.TouchedWatches.{edited_link, names_link, watchers};

use crate::present::kept;
use crate::{Touched, keys_of};
use std::alloc::{AllocError, Global};
use tl_beats::Watch;
use tl_edits::{Change, Edit, Inputs};
use tl_pieces::PieceKey;
use tl_topology::Topo;

/// The link whose fragments an edit changes.
pub(crate) fn edited_link(topo: &Topo, edit: &Edit) -> Option<u16>
    ensures { result ≡ edited_link topo.now (plain edit.now) }
{
    let Edit::Change(change) = edit else {
        return None;
    };
    match change {
        Change::Add(fragment) => topo.link_of(&fragment.link()),
        Change::Replace(fragment) => topo.link_of(&fragment.link()),
        Change::Withdraw(link, _) => topo.link_of(link),
        Change::ClearLink(link) => topo.link_of(link),
        Change::SetRegion(_, _, _) => None,
        Change::RemoveRegion(_, _) => None,
        Change::Retune(_, _) => None,
        Change::Detach(_) => None,
    }
}

/// The windows of the link whose fragments an edit changes, of what the edit touches.
pub(crate) fn windows_in(touched: &Touched) -> &[u64]
    ensures { (now : InputData) (e : AnEdit) (link window : ℕ) → IsTouched now e touched.now → edited_link now.topo e ≡ Some link
        → Contains result.now window ↔ TouchesLink now e link window }
{
    match touched {
        Touched::Nothing => &[],
        Touched::Windows(_, windows) => windows.as_slice(),
        Touched::All(_) => &[],
    }
}

/// Whether a watch names a link.
fn names_link(topo: &Topo, link: u16, watch: &Watch) -> bool
    ensures { result ≡ names_link topo.now link watch.now }
{
    match topo.link_of(&watch.link()) {
        Some(own) => own == link,
        None => false,
    }
}

/// The monitors whose watch names a link, by number. AllocError where memory is refused.
pub(crate) fn watchers(alloc: Global, inputs: &Inputs, link: u16) -> Result<Vec<u32>, AllocError>
    ensures { IfOk result (λ owners. owners.items ≡ watchers inputs.now.topo link (attached inputs.now.monitors)) }
{
    let watches = inputs.watches(alloc)?;
    let mut owners = Vec::new(alloc);
    for (number, watch) in watches.iter() {
        if names_link(inputs.topo(), link, watch) {
            owners.push(*number)?;
        }
    }
    Ok(owners)
}

/// The keys of a monitor with a watch: one for each window in which its link has a beat. AllocError where memory is refused.
pub(crate) fn keys_with(
    alloc: Global,
    inputs: &Inputs,
    monitor: u32,
    watch: &Watch,
) -> Result<Vec<PieceKey>, AllocError>
    ensures { IfOk result (λ keys. (key : AnyKey) → Contains keys.items key
        ↔ ((key.owner ≡ monitor) × HasBeat (watched_beats inputs.now.topo inputs.now.fragments watch.now) key.window)) }
{
    let present = kept(inputs.present());
    let Some(link) = inputs.topo().link_of(&watch.link()) else {
        return Ok(Vec::new(alloc));
    };
    let windows = present.windows(alloc, &[link])?;
    let keys = keys_of(alloc, &[monitor], &windows)?;
    Ok(keys)
}

/// A watch that a program holds is a watch.
pub(crate) fn known(watch: &Watch)
    ensures { IsWatch watch.now }
{
    if let Watch::Budget { limit, .. } = watch {
        fits(*limit);
    }
}

/// A number that a program holds is in its range.
fn fits(number: u32)
    ensures { number < 2 ^ 32 }
{}
