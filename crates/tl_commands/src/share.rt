//! The managers that words name.

use crate::picking::Trouble;
use std::alloc::Global;
use tl_stream::Share;
use tl_topology::{Name, Topo};

/// The number of the manager with this name, if there is one.
fn number_of(topo: &Topo, name: &str) -> Option<u16> {
    let name = Name::new(name.as_bytes())?;
    topo.manager_of(&name)
}

/// The number of the manager with this name.
fn manager_of(alloc: Global, topo: &Topo, name: &str) -> Result<u16, Trouble> {
    match number_of(topo, name) {
        Some(number) => Ok(number),
        None => Err(Trouble::Objection(format!(in alloc;
            "tlcheck: no manager of the topology is called '{name}'\n"
        )?)),
    }
}

/// The numbers of the managers with these names.
fn managers_of(alloc: Global, topo: &Topo, names: &[&str]) -> Result<Vec<u16>, Trouble> {
    let mut managers = Vec::new(alloc);
    for name in names {
        managers.push(manager_of(alloc, topo, *name)?)?;
    }
    Ok(managers)
}

/// The managers with these names; all where there are none.
pub(crate) fn share_of(alloc: Global, topo: &Topo, names: &[&str]) -> Result<Share, Trouble> {
    if names.is_empty() {
        return Ok(Share::all());
    }
    Ok(Share::of(managers_of(alloc, topo, names)?))
}
