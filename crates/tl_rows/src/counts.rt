//! How much of what a manager's beats open is still open.

ghost use Rattle.std.specs.Prelude.{◌≡◌, ◌+◌, ◌<◌, ◌≤◌, ℕ, List, length, IfOk};
ghost use Rattle.std.specs.List.{All};
ghost use Rattle.tl_definitions.specs.OpenTables.{one_if};
ghost use Rattle.tl_rows.specs.Counts.{IsOpenCount, IsTotal, AreOpen};
ghost use Rattle.tl_rows.specs.States.{OnBeats, manager_with};

use crate::manager::ManagerOrigins;
use std::alloc::AllocError;
use tl_topology::Topo;

/// What can be open at a client.
#[derive(Clone, Copy, Debug, PartialEq)]
pub enum Opened {
    /// A request of channel A, by its source.
    Request,
    /// A Release, by its source.
    Release,
    /// A Probe, by its block.
    Probe,
    /// A Grant, by its sink.
    Grant,
    /// A burst that still misses beats, by its channel.
    Burst,
}

/// How many of each are open at the clients of a manager.
#[derive(Clone, Copy, Debug, PartialEq)]
pub struct OpenCounts {
    /// Requests of channel A.
    pub requests: usize,
    /// Releases.
    pub releases: usize,
    /// Probes.
    pub probes: usize,
    /// Grants.
    pub grants: usize,
    /// Bursts that miss beats.
    pub bursts: usize,
}

/// 1 where it is so, else 0.
pub(crate) fn one_if(flag: bool) -> usize
    ensures exact { result ≡ one_if flag }
    ensures few { result ≤ 1 }
{
    if flag { 1 } else { 0 }
}

/// The sum of two counts of what is in memory. AllocError where it is more than memory could have.
fn added(count: usize, more: usize) -> Result<usize, AllocError>
    ensures { IfOk result (λ sum. sum ≡ count + more) }
{
    match count.checked_add(more) {
        Some(sum) => Ok(sum),
        None => Err(AllocError),
    }
}

impl ManagerOrigins {
    /// How many are open at a client.
    fn open_at(&self, topo: &Topo, client: u16, opened: Opened) -> usize
        requires link { client < length self.now.links.items }
        requires declared { client < length topo.now.links }
        ensures { (exponent : ℕ) (clients : List ℕ) → OnBeats (manager_with topo.now exponent clients) self.now
            (λ m before. IsOpenCount m before opened client result) }
    {
        let decl = topo.link(client).unwrap();
        self.links[client as usize].open_count(decl, client, opened)
    }

    /// How many are open at some clients. AllocError where they are more than memory could have.
    fn total(&self, topo: &Topo, clients: &[u16], opened: Opened) -> Result<usize, AllocError>
        requires links { All (λ client. client < length self.now.links.items) clients.now }
        requires declared { All (λ client. client < length topo.now.links) clients.now }
        ensures { IfOk result (λ total. (exponent : ℕ) → OnBeats (manager_with topo.now exponent clients.now) self.now
            (λ m before. IsTotal (IsOpenCount m before opened) clients.now total)) }
    {
        let mut total: usize = 0;
        for client in clients {
            let open = self.open_at(topo, *client, opened);
            total = added(total, open)?;
        }
        Ok(total)
    }

    /// How many of each are open at the clients.
    pub(crate) fn open_counts(&self, topo: &Topo, clients: &[u16]) -> Result<OpenCounts, AllocError>
        requires links { All (λ client. client < length self.now.links.items) clients.now }
        requires declared { All (λ client. client < length topo.now.links) clients.now }
        ensures { IfOk result (λ counts. (exponent : ℕ) → OnBeats (manager_with topo.now exponent clients.now) self.now (λ m before. AreOpen m before counts)) }
    {
        let requests = self.total(topo, clients, Opened::Request)?;
        let releases = self.total(topo, clients, Opened::Release)?;
        let probes = self.total(topo, clients, Opened::Probe)?;
        let grants = self.total(topo, clients, Opened::Grant)?;
        let bursts = self.total(topo, clients, Opened::Burst)?;
        Ok(OpenCounts {
            requests,
            releases,
            probes,
            grants,
            bursts,
        })
    }
}
