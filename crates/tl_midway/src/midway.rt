//! How a capture begins that begins in the middle of a run.

ghost use Rattle.std.specs.Prelude.{◌≡◌};
ghost use Rattle.tl_topology.specs.Topology.{IsSound};
ghost use Rattle.tl_definitions.specs.Rules.{Manager};
ghost use Rattle.tl_definitions.specs.Lawful.{has_bursts, most_missing};

use tl_tables::{Chan, Level};
use tl_topology::LinkDecl;

/// Which pasts may come before a capture, and how its first beats are read: by that, which rows are printed.
#[derive(Clone, Copy, Debug, PartialEq, Eq)]
pub enum Midway {
    /// Any past that has no row of its own. A printed row is a row whatever it was.
    Any,
    /// Any such past; and bursts that the beginning struck are told by their fields. For each past a beat of a lead-in differs
    /// from its head, or each printed row is a row.
    Bursts,
    /// A past that has no row of its own and ends between messages on each channel: the recorder began each at a head.
    Heads,
}

/// Whether a channel has bursts at a level.
fn has_bursts(level: Level, chan: Chan) -> bool
    ensures { result ≡ has_bursts level chan }
{
    match chan {
        Chan::A | Chan::D => true,
        Chan::B | Chan::C => level == Level::C,
        Chan::E => false,
    }
}

/// The most beats of a message that a past without rows can leave missing on a channel, 0 to 32,767.
fn most_missing(link: &LinkDecl, chan: Chan) -> u16
    requires { IsSound link.now }
    ensures { result ≡ most_missing link.now chan }
{
    if has_bursts(link.level, chan) {
        ((1u16 << link.max_size) / u16::from(link.width)).max(1) - 1
    } else {
        0
    }
}

impl Midway {
    ghost use Rattle.tl_midway.specs.Midway.{IsMost, beginning_of};

    /// How many beats of a message the past may have left missing on a channel, 0 to 32,767.
    pub fn most(self, link: &LinkDecl, chan: Chan) -> u16
        requires { IsSound link.now }
        ensures { IsMost self link.now chan result }
    {
        match self {
            Midway::Any | Midway::Bursts => most_missing(link, chan),
            Midway::Heads => 0,
        }
    }

    /// Whether bursts that the beginning struck are told by their fields.
    pub fn by_fields(self) -> bool
        ensures { (m : Manager) → result ≡ (beginning_of self m).by_fields }
    {
        match self {
            Midway::Bursts => true,
            Midway::Any | Midway::Heads => false,
        }
    }
}
