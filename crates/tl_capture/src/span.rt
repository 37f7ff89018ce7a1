//! Windows as spans of cycles.

ghost use Rattle.std.specs.Prelude.{◌≡◌, ◌≤◌, ◌<◌, ◌^◌, ◌==◌, ℕ, MatchOption, false};
ghost use Rattle.tl_capture.specs.Windows.{window_of};
ghost use Rattle.tl_capture.specs.Spans.{IsSpan};

/// How many cycles a window has.
pub(crate) const WIDTH: u64 = 4096;

/// The window that holds a cycle: window k holds the 4,096 cycles from 4,096 * k on.
pub fn window_of(cycle: u64) -> u64
    ensures { result ≡ window_of cycle }
{
    cycle / WIDTH
}

/// The first and the last cycle of a window; None where no cycle lies in it.
pub(crate) fn span_of(window: u64) -> Option<(u64, u64)>
    ensures { MatchOption result ((cycle : ℕ) → cycle < 2 ^ 64 → (window_of cycle == window) ≡ false) (λ s. IsSpan window s.0 s.1) }
{
    let from = window.checked_mul(WIDTH)?;
    Some((from, from + (WIDTH - 1)))
}
