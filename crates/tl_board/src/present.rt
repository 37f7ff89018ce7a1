//! The fragments that stand.

ghost use Rattle.std.specs.Prelude.{◌≡◌};
ghost use Rattle.tl_edits.specs.Log.{inputs_after};
ghost use Rattle.tl_capture.specs.Present.{IsPresent};

use tl_capture::Present;
use tl_edits::Log;

/// The same fragments. They are such as may stand beside each other: no two of one link share a number or a cycle.
pub(crate) fn kept(present: &Present) -> &Present
    ensures same { result.now ≡ present.now }
    ensures kept { IsPresent present.now }
{
    let _ = present.is_empty();
    present
}

/// The fragments that a log of edits leaves, which are such.
pub(crate) fn present_after(log: &Log) -> &Present
    ensures exact { result.now ≡ (inputs_after log.now.topo log.now.edits).fragments }
    ensures kept { IsPresent (inputs_after log.now.topo log.now.edits).fragments }
    ensures topo { (inputs_after log.now.topo log.now.edits).topo ≡ log.now.topo }
{
    kept(log.inputs().present())
}
