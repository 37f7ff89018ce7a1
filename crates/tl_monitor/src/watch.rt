//! Limits of watches.

ghost use Rattle.std.specs.Prelude.{◌≡◌};
ghost use Rattle.tl_definitions.specs.Watching.{retuned};
ghost use Rattle.tl_monitor.specs.Places.{limit_of};

use tl_beats::Watch;

/// The watch with another limit; an After has none.
pub(crate) fn with_limit(watch: Watch, limit: u32) -> Watch
    ensures { result ≡ retuned watch limit }
{
    match watch {
        Watch::Budget {
            link,
            class,
            limit: _,
        } => Watch::Budget { link, class, limit },
        Watch::After { .. } => watch,
    }
}

/// The limit of a Budget, or 0.
pub(crate) fn limit(watch: &Watch) -> u32
    ensures { result ≡ limit_of watch.now }
{
    match watch {
        Watch::Budget { limit, .. } => *limit,
        Watch::After { .. } => 0,
    }
}
