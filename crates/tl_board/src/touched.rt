//! Which windows an edit touches.

ghost use Rattle.std.specs.Prelude.{◌≡◌, IfOk, MatchOption, None, Some};
ghost use Rattle.std.specs.Option.{option_map_or};
ghost use Rattle.tl_topology.specs.Topology.{number_of_name};
ghost use Rattle.tl_edits.specs.Edits.{plain, add, replace, withdraw, clear_link};
ghost use Rattle.tl_board.specs.Touched.{IsLinkOf, IsTouched};

use crate::present::kept;
use std::alloc::{AllocError, Global};
use std::sync::Arc;
use tl_beats::Fragment;
use tl_capture::windows_of;
use tl_edits::{Change, Edit, Inputs};
use tl_topology::{Name, Topo};

/// What an edit touches of the windows of managers.
#[derive(Drop)]
pub enum Touched {
    /// No window.
    Nothing,
    /// These windows of a manager.
    Windows(u16, Vec<u64>),
    /// All windows of a manager, since its regions change.
    All(u16),
}

/// The link with a name, and its manager.
fn link_of(topo: &Topo, name: &Name) -> Option<(u16, u16)>
    ensures { MatchOption result (number_of_name topo.now.links name.now ≡ None) (λ r. IsLinkOf topo.now name.now r.0 r.1) }
{
    let number = topo.link_of(name)?;
    let link = topo.link(number).unwrap();
    Some((number, link.manager))
}

/// What a fragment touches that comes.
fn by_adding(alloc: Global, inputs: &Inputs, fragment: &Fragment) -> Result<Touched, AllocError>
    ensures { IfOk result (IsTouched inputs.now (add fragment.now)) }
{
    let Some((_, manager)) = link_of(inputs.topo(), &fragment.link()) else {
        return Ok(Touched::Nothing);
    };
    let windows = windows_of(alloc, fragment)?;
    Ok(Touched::Windows(manager, windows))
}

/// What a fragment touches that goes.
fn by_withdrawing(
    alloc: Global,
    inputs: &Inputs,
    name: &Name,
    number: u32,
) -> Result<Touched, AllocError>
    ensures { IfOk result (IsTouched inputs.now (withdraw name.now number)) }
{
    let Some((link, manager)) = link_of(inputs.topo(), name) else {
        return Ok(Touched::Nothing);
    };
    let Some(fragment) = inputs.present().get(link, number) else {
        return Ok(Touched::Nothing);
    };
    let windows = windows_of(alloc, fragment)?;
    Ok(Touched::Windows(manager, windows))
}

/// What a fragment touches that comes in the place of another.
fn by_replacing(alloc: Global, inputs: &Inputs, fragment: &Fragment) -> Result<Touched, AllocError>
    ensures { IfOk result (IsTouched inputs.now (replace fragment.now)) }
{
    let Some((link, manager)) = link_of(inputs.topo(), &fragment.link()) else {
        return Ok(Touched::Nothing);
    };
    let mut windows = windows_of(alloc, fragment)?;
    let Some(before) = inputs.present().get(link, fragment.number()) else {
        return Ok(Touched::Windows(manager, windows));
    };
    let old = windows_of(alloc, before)?;
    windows.extend_from_slice(&old)?;
    Ok(Touched::Windows(manager, windows))
}

/// What is touched where a link is cleared.
fn by_clearing(alloc: Global, inputs: &Inputs, name: &Name) -> Result<Touched, AllocError>
    ensures { IfOk result (IsTouched inputs.now (clear_link name.now)) }
{
    let Some((link, manager)) = link_of(inputs.topo(), name) else {
        return Ok(Touched::Nothing);
    };
    let links = [link];
    let windows = kept(inputs.present()).windows(alloc, &links)?;
    Ok(Touched::Windows(manager, windows))
}

/// All windows of the manager with a name.
fn of_manager(topo: &Topo, name: &Name) -> Touched
    ensures { result ≡ option_map_or Touched.All (number_of_name topo.now.managers name.now) Touched.Nothing }
{
    match topo.manager_of(name) {
        Some(manager) => Touched::All(manager),
        None => Touched::Nothing,
    }
}

/// Exactly the windows of managers that an edit touches. AllocError where memory is refused.
pub fn touches_of(alloc: Global, inputs: &Inputs, edit: &Edit) -> Result<Touched, AllocError>
    ensures { IfOk result (IsTouched inputs.now (plain edit.now)) }
{
    let Edit::Change(change) = edit else {
        return Ok(Touched::Nothing);
    };
    match change {
        Change::Add(fragment) => by_adding(alloc, inputs, fragment),
        Change::Replace(fragment) => by_replacing(alloc, inputs, fragment),
        Change::Withdraw(link, number) => by_withdrawing(alloc, inputs, link, *number),
        Change::ClearLink(link) => by_clearing(alloc, inputs, link),
        Change::SetRegion(manager, _, _) => Ok(of_manager(inputs.topo(), manager)),
        Change::RemoveRegion(manager, _) => Ok(of_manager(inputs.topo(), manager)),
        Change::Retune(_, _) => Ok(Touched::Nothing),
        Change::Detach(_) => Ok(Touched::Nothing),
    }
}
