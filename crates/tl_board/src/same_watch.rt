//! Whether two watches are one.

ghost use Rattle.std.specs.Prelude.{◌≡◌};
ghost use Rattle.std.specs.Bool.{Decides};

use tl_beats::Watch;

/// Whether both watch the same link for the same.
pub fn is_watch(one: &Watch, other: &Watch) -> bool
    ensures { Decides result (one.now ≡ other.now) }
{
    match (one, other) {
        (
            Watch::Budget { link, class, limit },
            Watch::Budget {
                link: other_link,
                class: other_class,
                limit: other_limit,
            },
        ) => link == other_link && class == other_class && limit == other_limit,
        (
            Watch::After {
                link,
                first,
                second,
            },
            Watch::After {
                link: other_link,
                first: other_first,
                second: other_second,
            },
        ) => link == other_link && first == other_first && second == other_second,
        _ => false,
    }
}
