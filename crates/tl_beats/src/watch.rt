//! What a monitor looks for.

ghost use Rattle.std.specs.Prelude.{◌≡◌};
ghost use Rattle.tl_beats.specs.Watches.{matches, link_of};

use crate::Beat;
use tl_tables::Chan;
use tl_text::Name;

/// A kind of beat: those on one channel with one opcode. Later beats of a burst are of it too.
#[derive(Clone, Copy, Debug, PartialEq, Eq)]
pub struct Class {
    /// The channel.
    pub chan: Chan,
    /// 0 to 7; a beat on E has opcode 0.
    pub opcode: u8,
}

impl Class {
    /// Whether the beat is of the class.
    pub fn matches(&self, beat: &Beat) -> bool
        ensures { result ≡ matches self.now beat.now }
    {
        self.chan == beat.chan && self.opcode == beat.opcode
    }
}

/// A rule of a user's own on the beats of one link. [own profile]
#[derive(Clone, Copy, Debug, PartialEq, Eq)]
pub enum Watch {
    /// Flags each beat of the class that comes after at least `limit` others of it.
    Budget {
        /// The link.
        link: Name,
        /// What is counted.
        class: Class,
        /// How many beats of the class are let through.
        limit: u32,
    },
    /// Flags each beat of the second class that comes after one of the first.
    After {
        /// The link.
        link: Name,
        /// What must not have come before.
        first: Class,
        /// What is flagged.
        second: Class,
    },
}

impl Watch {
    /// The link whose beats are watched.
    pub fn link(&self) -> Name
        ensures { result ≡ link_of self.now }
    {
        match self {
            Watch::Budget { link, .. } | Watch::After { link, .. } => *link,
        }
    }
}
