//! The beats of one fragment in a span of cycles.

ghost use Rattle.std.specs.Prelude.{◌≡◌, ◌≤◌, ◌++◌, [], OnOk, MatchOption, length, true, false};
ghost use Rattle.std.specs.List.{AllWithin, list_any};
ghost use Rattle.tl_definitions.specs.Positions.{placed_beats};
ghost use Rattle.tl_capture.specs.Cursors.{beats_left};
ghost use Rattle.tl_capture.specs.Ranges.{span_beats};
ghost use Rattle.tl_capture.specs.Present.{recorded};
ghost use Rattle.tl_capture.specs.Spans.{holds};
ghost use Rattle.tl_capture.specs.Windows.{beats_within};

use crate::cursor::Cursor;
use std::alloc::AllocError;
use tl_beats::{Fragment, Placed};

/// From where to where the beats of a span stand in a fragment.
pub(crate) fn bounds(fragment: &Fragment, from: u64, to: u64) -> (usize, usize)
    requires { from ≤ to }
    ensures order { result.0 ≤ result.1 }
    ensures within { result.1 ≤ length fragment.now.beats }
    ensures before { AllWithin (λ b. holds from to b ≡ false) fragment.now.beats 0 result.0 }
    ensures between { AllWithin (λ b. holds from to b ≡ true) fragment.now.beats result.0 result.1 }
    ensures behind { AllWithin (λ b. holds from to b ≡ false) fragment.now.beats result.1 (length fragment.now.beats) }
{
    let beats = fragment.beats();
    let start = beats.partition_point(|beat| beat.cycle < from);
    let end = beats.partition_point(|beat| beat.cycle <= to);
    (start, end)
}

/// Whether a fragment has a beat in a span.
pub(crate) fn has_some(fragment: &Fragment, from: u64, to: u64) -> bool
    requires { from ≤ to }
    ensures { result ≡ list_any (holds from to) fragment.now.beats }
{
    let (start, end) = bounds(fragment, from, to);
    start < end
}

/// Puts the beats of a span of a fragment on this link after others. AllocError where memory is refused.
pub(crate) fn push_beats(
    from: u64,
    to: u64,
    link: u16,
    fragment: &Fragment,
    beats: &mut Vec<Placed>,
) -> Result<(), AllocError>
    requires { from ≤ to }
    ensures { OnOk result (beats.new.items ≡ beats.old.items ++ beats_within from to (placed_beats (recorded link fragment.now))) }
{
    let number = fragment.number();
    let (start, end) = bounds(fragment, from, to);
    let own = fragment.beats();
    for index in start..end {
        beats.push(Placed {
            link,
            fragment: number,
            line: index as u32 + 2,
            beat: own[index],
        })?;
    }
    Ok(())
}

/// What a fragment on this link has in a span; None where that is nothing.
pub(crate) fn cursor_in<'a>(
    link: u16,
    fragment: &'a Fragment,
    from: u64,
    to: u64,
) -> Option<Cursor<'a>>
    requires { from ≤ to }
    ensures { MatchOption result (span_beats from to (recorded link fragment.now) ≡ []) (λ c. beats_left c ≡ span_beats from to (recorded link fragment.now)) }
{
    let (start, end) = bounds(fragment, from, to);
    let beats = fragment.beats();
    Cursor::new(
        link,
        fragment.number(),
        start as u32 + 2,
        &beats[start..end],
    )
}
