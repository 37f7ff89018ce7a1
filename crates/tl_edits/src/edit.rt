//! Edits.

ghost use Rattle.std.specs.Prelude.{◌≡◌, IfOk};
ghost use Rattle.tl_edits.specs.Edits.{plain, plain_change};

use std::alloc::AllocError;
use std::sync::Arc;
use tl_beats::{Fragment, Watch};
use tl_topology::{Name, Region};

/// A change of captures, regions or monitors that brings no monitor.
#[derive(Drop)]
pub enum Change {
    /// Puts a fragment on its link, which has none of its number and none that shares a cycle with it.
    Add(Arc<Fragment>),
    /// Puts a fragment in the place of the one of its link and number.
    Replace(Arc<Fragment>),
    /// Takes out the fragment of a link with a number.
    Withdraw(Name, u32),
    /// Takes out all fragments of a link, if it has any.
    ClearLink(Name),
    /// Puts a region of a manager under its number, 0 to 255, in place of the one that was there.
    SetRegion(Name, u8, Region),
    /// Takes out the region of a manager with a number.
    RemoveRegion(Name, u8),
    /// Gives the Budget of an attached monitor another limit, which holds for all beats.
    Retune(u32, u32),
    /// Takes a monitor off. Its number isn't attached again.
    Detach(u32),
}

/// An edit: one of nine, with monitors as plain watches.
#[derive(Drop)]
pub enum Edit {
    /// A change that brings no monitor.
    Change(Change),
    /// Attaches a monitor with this number and watch, to its link.
    Attach(u32, Watch),
}

impl Change {
    /// The same change; a fragment is shared and not copied. AllocError where memory is refused.
    pub fn copy(&self) -> Result<Change, AllocError>
        ensures { IfOk result (λ copy. plain_change copy ≡ plain_change self.now) }
    {
        Ok(match self {
            Change::Add(fragment) => Change::Add(Arc::try_clone(fragment)?),
            Change::Replace(fragment) => Change::Replace(Arc::try_clone(fragment)?),
            Change::Withdraw(link, number) => Change::Withdraw(*link, *number),
            Change::ClearLink(link) => Change::ClearLink(*link),
            Change::SetRegion(manager, number, region) => {
                Change::SetRegion(*manager, *number, *region)
            }
            Change::RemoveRegion(manager, number) => Change::RemoveRegion(*manager, *number),
            Change::Retune(monitor, limit) => Change::Retune(*monitor, *limit),
            Change::Detach(monitor) => Change::Detach(*monitor),
        })
    }
}

impl Edit {
    /// The same edit; a fragment is shared and not copied. AllocError where memory is refused.
    pub fn copy(&self) -> Result<Edit, AllocError>
        ensures { IfOk result (λ copy. plain copy ≡ plain self.now) }
    {
        Ok(match self {
            Edit::Change(change) => Edit::Change(change.copy()?),
            Edit::Attach(monitor, watch) => Edit::Attach(*monitor, *watch),
        })
    }
}
