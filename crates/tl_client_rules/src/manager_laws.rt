//! How a state stands for the beats of its manager.

ghost use Rattle.tl_client_rules.specs.Clients.{ClientsRise};
ghost use Rattle.tl_client_rules.specs.ManagerLaws.{LaterBeatsAreStoodFor};

/// A state that is not stepped by a later beat stands for the beats with it.
pub fn later_beats_are_stood_for()
    ensures { LaterBeatsAreStoodFor }
{}

/// The numbers of a manager's links rise.
pub fn clients_rise()
    ensures { ClientsRise }
{}
