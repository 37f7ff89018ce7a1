//! The order of positions.

ghost use Rattle.std.specs.Prelude.{◌≡◌};
ghost use Rattle.tl_definitions.specs.Positions.{lies_before};

use tl_beats::Placed;
use tl_tables::chan_index;

/// Whether a beat lies before another in the order of positions.
pub(crate) fn lies_before(here: &Placed, there: &Placed) -> bool
    ensures { result ≡ lies_before here.now there.now }
{
    // Cycles mostly decide.
    let cycle = here.beat.cycle;
    if cycle != there.beat.cycle {
        return cycle < there.beat.cycle;
    }
    let channel = chan_index(here.beat.chan).cmp(&chan_index(there.beat.chan));
    channel.then(here.link.cmp(&there.link)).is_lt()
}
