//! Passes of threads, and what they tell each other.

ghost use Rattle.std.specs.Prelude.{◌≡◌, false};
ghost use Rattle.tl_hall.specs.Passes.{Stays, IsAnother, Notes, Meets};

use crate::hall::{Access, Hall, Helper, Note, Pass};
use crate::rule::{Aide, Learn, Meet, Twin};
use std::marker::PhantomData;
use tl_monitor::Monitor;

impl<M: Monitor> Hall<M> {
    /// A second pass with a number of its own, which has seen the same, has made no entry, and may make the same calls. It waits
    /// for nobody.
    pub fn split(&self, pass: Pass<M>) -> (Pass<M>, Pass<M>)
        requires { pass.hall ≡ self.now.hall }
        ensures first { Stays pass result.0 }
        ensures second { IsAnother pass result.1 }
        ensures sole { (result.0.sole ≡ false) × (result.1.sole ≡ false) }
    {
        let Access { mut seat, rights } = pass;
        let twin = Access {
            seat: self.table.shared.split_seat::<Twin>(&mut seat),
            rights: PhantomData,
        };
        (Access { seat, rights }, twin)
    }

    /// A helper with a number of its own, which has seen the same and has made no entry. A pass beside which all others only help
    /// stays one. It waits for nobody.
    pub fn help(&self, pass: Pass<M>) -> (Pass<M>, Helper<M>)
        requires { pass.hall ≡ self.now.hall }
        ensures first { Stays pass result.0 }
        ensures second { IsAnother pass result.1 }
        ensures sole { result.0.sole ≡ pass.sole }
    {
        let Access { mut seat, rights } = pass;
        let helper = Access {
            seat: self.table.shared.split_seat::<Aide>(&mut seat),
            rights: PhantomData,
        };
        (Access { seat, rights }, helper)
    }

    /// What the pass has seen, to be told to another. It waits for nobody.
    pub fn note(&self, pass: Pass<M>) -> (Pass<M>, Note<M>)
        requires { pass.hall ≡ self.now.hall }
        ensures pass { Stays pass result.0 }
        ensures note { Notes pass result.1 }
        ensures sole { result.0.sole ≡ pass.sole }
    {
        let (pass, helper) = self.help(pass);
        let Access { seat, .. } = helper;
        (pass, Note { seat })
    }

    /// What the pass had seen, which ends with this. It waits for nobody.
    pub fn end(&self, pass: Pass<M>) -> Note<M>
        requires { pass.hall ≡ self.now.hall }
        ensures { Notes pass result }
    {
        let Access { seat, .. } = pass;
        Note { seat }
    }

    /// The pass has now seen what the note had: the longer of the two lists, of which the other is a beginning. It waits for
    /// nobody.
    pub fn meet(&self, pass: Pass<M>, note: Note<M>) -> Pass<M>
        requires pass { pass.hall ≡ self.now.hall }
        requires note { note.hall ≡ self.now.hall }
        ensures { Meets pass note.seen result }
    {
        let Access { mut seat, rights } = pass;
        let Note { seat: other } = note;
        self.table.shared.join_seat::<Meet>(&mut seat, other);
        self.table.shared.load::<Learn>(&mut seat, 0);
        Access { seat, rights }
    }
}
