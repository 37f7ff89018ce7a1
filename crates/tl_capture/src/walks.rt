//! A walk over the fragments of one link, in the order of their ranges.

ghost use Rattle.std.specs.Prelude.{◌≡◌};
ghost use Rattle.tl_capture.specs.Ranges.{is_by};

use std::collections::btree_map::Range;
use std::sync::Arc;
use tl_beats::Fragment;

/// A fragment on the link with this number.
pub(crate) type Part = (u16, Arc<Fragment>);

/// The fragments of a link that are left, each with the link, up to the first that begins after an end, if there is one.
#[derive(Drop)]
pub(crate) struct OnLink<'a> {
    // Fragments by the number of their link and the last cycle of their range, from the first that the walk meets on.
    pub(crate) entries: Range<'a, (u16, u64), Arc<Fragment>>,
    pub(crate) link: u16,
    pub(crate) last: Option<u64>,
    pub(crate) has_ended: bool,
}

/// Whether a fragment doesn't begin after an end, if there is one.
fn begins_by(fragment: &Fragment, last: Option<u64>) -> bool
    ensures { result ≡ is_by last fragment.now.first }
{
    match last {
        Some(last) => fragment.first() <= last,
        None => true,
    }
}

impl<'a> Iterator for OnLink<'a> {
    ghost use Rattle.std.specs.Iterator.{YieldsFirstBy, item_count};
    ghost use Rattle.std.specs.Arc.{arc_value};
    ghost use Rattle.tl_capture.specs.Walk.{part_seen, fragments_left};

    type Item = (u16, &'a Arc<Fragment>);

    ghost next_gives = { YieldsFirstBy (part_seen arc_value) fragments_left };

    ghost remaining = { item_count fragments_left };

    /// The first fragment that is left.
    fn next(&mut self) -> Option<(u16, &'a Arc<Fragment>)> {
        if self.has_ended {
            return None;
        }
        let ((of, _), fragment) = self.entries.next()?;
        if *of == self.link && begins_by(fragment, self.last) {
            return Some((*of, fragment));
        }
        self.has_ended = true;
        None
    }
}
