//! What follows for windows and links.

ghost use Rattle.tl_capture.specs.Windows.{WindowsAreWhole, LinksAreKept, ChannelsAreKept, OneLinkIsItsOwn};
ghost use Rattle.tl_capture.specs.Touch.{WindowsAreTheirBeats, PutsAreLocal, TakesAreLocal, ClearsAreLocal};

/// The beats of the windows that have one, one after the other, are all beats.
pub fn windows_are_whole()
    ensures { WindowsAreWhole }
{}

/// The list of a manager's beats has of each of its links that link's own list.
pub fn links_are_kept()
    ensures { LinksAreKept }
{}

/// The beats of a channel of a link, the newest first, are those of the link's own list.
pub fn channels_are_kept()
    ensures { ChannelsAreKept }
{}

/// The list of one link alone is its own.
pub fn one_link_is_its_own()
    ensures { OneLinkIsItsOwn }
{}

/// Where the same beats lie in a window, its beats are one list.
pub fn windows_are_their_beats()
    ensures { WindowsAreTheirBeats }
{}

/// A fragment that comes leaves the windows in which it has no beat, and those of other links.
pub fn puts_are_local()
    ensures { PutsAreLocal }
{}

/// A fragment that goes leaves the windows in which it had no beat, and those of other links.
pub fn takes_are_local()
    ensures { TakesAreLocal }
{}

/// A link that is cleared leaves the windows in which it had no beat, and those of other links.
pub fn clears_are_local()
    ensures { ClearsAreLocal }
{}
