//! Windows that are out, where a test keeps them.

use crate::counting::Counting;
use std::alloc::{AllocFailed, Global};
use std::test::Fail;
use tl_desk::{Done, Job};

/// What stands at a place.
pub(crate) enum Shelved {
    /// A window that wasn't checked.
    Job(Job<Counting>),
    /// One that was.
    Done(Done<Counting>),
    /// Nothing any more.
    Gone,
}

/// Windows that are out, in the order in which they were taken. A place stays when its window goes.
pub(crate) struct Shelf {
    places: Vec<Shelved>,
}

impl Shelved {
    /// Gives it up; its desk hears nothing of it.
    fn forfeit(self) {
        match self {
            Shelved::Job(job) => job.forfeit(),
            Shelved::Done(done) => done.forfeit(),
            Shelved::Gone => {}
        }
    }
}

impl Shelf {
    /// Nothing.
    pub(crate) fn new(alloc: Global) -> Shelf {
        Shelf {
            places: Vec::new(alloc),
        }
    }

    /// Adds a place.
    pub(crate) fn add(&mut self, held: Shelved) -> Result<(), Fail> {
        match self.places.push(held) {
            Ok(()) => Ok(()),
            Err(failed) => {
                let AllocFailed { value } = failed;
                value.forfeit();
                Err(Fail::new("memory"))
            }
        }
    }

    /// Takes what stands at a place.
    pub(crate) fn lift(&mut self, place: usize) -> Shelved {
        match self.places.get_mut(place) {
            Some(held) => std::mem::replace(held, Shelved::Gone),
            None => Shelved::Gone,
        }
    }

    /// Puts something in a place, in place of what stands there.
    pub(crate) fn put(&mut self, place: usize, held: Shelved) {
        match self.places.get_mut(place) {
            Some(old) => std::mem::replace(old, held).forfeit(),
            None => held.forfeit(),
        }
    }

    /// Gives all up.
    pub(crate) fn clear(self) {
        let Shelf { mut places } = self;
        while let Some(held) = places.pop() {
            held.forfeit();
        }
        places.destroy_empty();
    }
}
