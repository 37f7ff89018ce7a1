//! What is found in captures that are written out.

ghost use Rattle.tl_definitions.specs.Rows.{FormatRows, LevelRows, RegionRows, BurstRows, FlowRows, ReplyRows, BoundRows, StrictRows, ConcurrencyRows, ManagerRows};

/// Opcodes, params, addresses, sizes, lanes and sources of heads.
#[tactic(auto, using(crate::proofs::RowLaws::format_rows))]
pub fn format_rows()
    ensures { FormatRows }
{}

/// Messages of links of each level and width.
#[tactic(auto, using(crate::proofs::RowLaws::level_rows))]
pub fn level_rows()
    ensures { LevelRows }
{}

/// Accesses within and beside the regions of a manager.
#[tactic(auto, using(crate::proofs::RowLaws::region_rows))]
pub fn region_rows()
    ensures { RegionRows }
{}

/// Later beats that differ from their heads, and ones that do not.
#[tactic(auto, using(crate::proofs::RowLaws::burst_rows))]
pub fn burst_rows()
    ensures { BurstRows }
{}

/// Requests and replies, Releases and ReleaseAcks, Grants and GrantAcks.
#[tactic(auto, using(crate::proofs::RowLaws::flow_rows))]
pub fn flow_rows()
    ensures { FlowRows }
{}

/// Requests of each kind with replies of other kinds.
#[tactic(auto, using(crate::proofs::RowLaws::reply_rows))]
pub fn reply_rows()
    ensures { ReplyRows }
{}

/// Claims and what clients can hold.
#[tactic(auto, using(crate::proofs::RowLaws::bound_rows))]
pub fn bound_rows()
    ensures { BoundRows }
{}

/// Claims on a strict link, and the same on one that is not.
#[tactic(auto, using(crate::proofs::RowLaws::strict_rows))]
pub fn strict_rows()
    ensures { StrictRows }
{}

/// Probes, Acquires and Releases of one client on one block.
#[tactic(auto, using(crate::proofs::RowLaws::concurrency_rows))]
pub fn concurrency_rows()
    ensures { ConcurrencyRows }
{}

/// Grants and Probes of several clients on one block.
#[tactic(auto, using(crate::proofs::RowLaws::manager_rows))]
pub fn manager_rows()
    ensures { ManagerRows }
{}
