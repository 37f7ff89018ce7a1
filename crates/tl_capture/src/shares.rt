//! The windows that have beats.

ghost use Rattle.std.specs.Prelude.{◌≡◌, ◌++◌, IfOk, OnOk};
ghost use Rattle.tl_definitions.specs.Positions.{placed_beats};
ghost use Rattle.tl_capture.specs.Present.{recorded};
ghost use Rattle.tl_capture.specs.Windows.{AreWindows};
ghost use Rattle.tl_capture.specs.Shares.{windows_from};

use crate::span::window_of;
use std::alloc::{AllocError, Global};
use tl_beats::{Beat, Fragment};

/// Puts the windows in which one of these beats, which rise, lies after others. AllocError where memory is refused.
pub(crate) fn push_windows(beats: &[Beat], windows: &mut Vec<u64>) -> Result<(), AllocError>
    ensures { OnOk result (windows.new.items ≡ windows.old.items ++ windows_from 0 beats.now) }
{
    let mut next = 0u64;
    for beat in beats {
        let window = window_of(beat.cycle);
        if window >= next {
            windows.push(window)?;
            next = window + 1;
        }
    }
    Ok(())
}

/// The windows in which a fragment has a beat, each once, rising. AllocError where memory is refused.
pub fn windows_of(alloc: Global, fragment: &Fragment) -> Result<Vec<u64>, AllocError>
    ensures { IfOk result (λ windows. AreWindows (placed_beats (recorded 0 fragment.now)) windows.items) }
{
    let mut windows = Vec::new(alloc);
    push_windows(fragment.beats(), &mut windows)?;
    Ok(windows)
}
