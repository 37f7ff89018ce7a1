//! Values that are known, or aren't, and what messages make known of an entry.

ghost use Rattle.std.specs.Prelude.{◌≡◌, is_some, is_none};
ghost use Rattle.tl_definitions.specs.Known.{surely};
ghost use Rattle.tl_midway.specs.Known.{known_of, opened, closed, shut};
ghost use Rattle.tl_midway.specs.Unjudged.{is_unknown};

/// A value that is known, or isn't.
#[derive(Clone, Copy, Debug)]
pub enum Known<V> {
    /// It may be any.
    Unknown,
    /// It is this.
    Sure(V),
}

/// Whether nothing is known of the value.
pub fn is_unknown<V: Copy>(value: Known<V>) -> bool
    ensures { result ≡ is_unknown (known_of value) }
{
    match value {
        Known::Unknown => true,
        Known::Sure(_) => false,
    }
}

/// Whether an entry is known to be open.
pub fn surely_open<V: Copy>(entry: Known<Option<V>>) -> bool
    ensures { result ≡ surely is_some (known_of entry) }
{
    match entry {
        Known::Sure(Some(_)) => true,
        Known::Sure(None) | Known::Unknown => false,
    }
}

/// Whether an entry is known to be closed.
pub fn surely_closed<V: Copy>(entry: Known<Option<V>>) -> bool
    ensures { result ≡ surely is_none (known_of entry) }
{
    match entry {
        Known::Sure(None) => true,
        Known::Sure(Some(_)) | Known::Unknown => false,
    }
}

/// What is known of an entry after a message that makes it this. Where the message may be a later beat, nothing is.
pub fn opened<T: Copy>(certain: bool, made: Known<T>) -> Known<T>
    ensures { known_of result ≡ opened certain (known_of made) }
{
    if certain { made } else { Known::Unknown }
}

/// What is known of an entry after a message that closes it. Where the message may be a later beat, what was closed stays so,
/// and of an open entry nothing is known.
pub fn closed<V: Copy>(certain: bool, old: Known<Option<V>>) -> Known<Option<V>>
    ensures { known_of result ≡ closed certain (known_of old) }
{
    if certain {
        return Known::Sure(None);
    }
    match old {
        Known::Sure(None) => Known::Sure(None),
        Known::Sure(Some(_)) | Known::Unknown => Known::Unknown,
    }
}

/// So of whether something is open.
pub fn shut(certain: bool, old: Known<bool>) -> Known<bool>
    ensures { known_of result ≡ shut certain (known_of old) }
{
    if certain {
        return Known::Sure(false);
    }
    match old {
        Known::Sure(is_open) => {
            if is_open {
                Known::Unknown
            } else {
                Known::Sure(false)
            }
        }
        Known::Unknown => Known::Unknown,
    }
}
