//! What makes a beat break a rule.

ghost use Rattle.std.specs.Prelude.{◌≡◌};
ghost use Rattle.std.specs.Option.{option_copied};
ghost use Rattle.tl_rows.specs.Reasons.{named, named_place, later_reason};
ghost use Rattle.tl_rows.specs.declared.reason.Reason.TheVariants as why;

use crate::origin::Origin;
use tl_beats::Placed;
use tl_tables::Rule;

/// What makes a beat break a rule, beside the beat itself.
#[derive(Clone, Copy, Debug, PartialEq)]
pub enum Reason {
    /// Nothing: the beat breaks the rule by itself.
    ByItself,
    /// That there is no such beat: nothing is open under its key, or nothing set the bound.
    NoneBefore,
    /// The head of the burst that it is a later beat of.
    Head(Placed),
    /// An open request of channel A.
    Request(Placed),
    /// An open Release.
    Release(Placed),
    /// An open Probe.
    Probe(Placed),
    /// An open Grant.
    Grant(Placed),
    /// The last message that set the bound of its own client on its block.
    Setter(Placed),
    /// The last message that set the bound of another client on the block that it grants.
    Rival(Placed),
}

impl Reason {
    /// The beat that it names; None where it names none.
    pub fn place(&self) -> Option<&Placed>
        ensures { option_copied result ≡ named_place self.now }
    {
        match self {
            Reason::ByItself | Reason::NoneBefore => None,
            Reason::Head(place)
            | Reason::Request(place)
            | Reason::Release(place)
            | Reason::Probe(place)
            | Reason::Grant(place)
            | Reason::Setter(place)
            | Reason::Rival(place) => Some(place),
        }
    }

    /// An open request, or that there is none.
    pub(crate) fn of_request(found: Option<Origin>) -> Reason
        ensures { result ≡ named why.Request found }
    {
        match found {
            Some(origin) => Reason::Request(origin.place),
            None => Reason::NoneBefore,
        }
    }

    /// An open Release, or that there is none.
    pub(crate) fn of_release(found: Option<Origin>) -> Reason
        ensures { result ≡ named why.Release found }
    {
        match found {
            Some(origin) => Reason::Release(origin.place),
            None => Reason::NoneBefore,
        }
    }

    /// An open Probe, or that there is none.
    pub(crate) fn of_probe(found: Option<Origin>) -> Reason
        ensures { result ≡ named why.Probe found }
    {
        match found {
            Some(origin) => Reason::Probe(origin.place),
            None => Reason::NoneBefore,
        }
    }

    /// An open Grant, or that there is none.
    pub(crate) fn of_grant(found: Option<Origin>) -> Reason
        ensures { result ≡ named why.Grant found }
    {
        match found {
            Some(origin) => Reason::Grant(origin.place),
            None => Reason::NoneBefore,
        }
    }

    /// What set the bound of the beat's own client, or that there is none.
    pub(crate) fn of_setter(found: Option<Origin>) -> Reason
        ensures { result ≡ named why.Setter found }
    {
        match found {
            Some(origin) => Reason::Setter(origin.place),
            None => Reason::NoneBefore,
        }
    }

    /// What set that of another client, or that there is none.
    pub(crate) fn of_rival(found: Option<Origin>) -> Reason
        ensures { result ≡ named why.Rival found }
    {
        match found {
            Some(origin) => Reason::Rival(origin.place),
            None => Reason::NoneBefore,
        }
    }

    /// That of a later beat, by the newest head of its channel.
    pub(crate) fn of_later(head: Option<Placed>, rule: Rule) -> Reason
        ensures { result ≡ later_reason head rule }
    {
        match (rule, head) {
            (Rule::X1, _) => Reason::ByItself,
            (_, Some(head)) => Reason::Head(head),
            (_, None) => Reason::NoneBefore,
        }
    }
}
