//! The laws of beats that are left unjudged. The functions here run nothing, and carry the laws as their contracts.

ghost use Rattle.tl_midway.specs.Unjudged.{AnyPastIsJudged, PastsOfWholeMessagesAreJudged};

/// A rule that doesn't leave a beat unjudged is printed of it exactly where the beat breaks it, whatever lawful past came before the
/// capture.
pub fn any_past_is_judged()
    ensures { AnyPastIsJudged }
{}

/// So it is of any lawful past that ends between messages on each channel, where the capture begins with heads.
pub fn pasts_of_whole_messages_are_judged()
    ensures { PastsOfWholeMessagesAreJudged }
{}
