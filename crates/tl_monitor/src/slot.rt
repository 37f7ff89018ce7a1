//! The place of one monitor.

ghost use Rattle.std.specs.Prelude.{◌≡◌, Some, is_some};
ghost use Rattle.tl_monitor.specs.Boxes.{told};
ghost use Rattle.tl_monitor.specs.Places.{Here, Out, held_of, away_of, tuned, limit_of, IsKept, place_tuned, place_closing, place_left};

use crate::away::Away;
use crate::watch::{limit, with_limit};
use crate::{Monitor, Settlement, Watched};
use std::marker::Model;

/// A monitor that is here, or what is known of one that is out.
#[derive(Drop)]
enum Content<M: Monitor> {
    Here(Watched<M>),
    Away(Away),
}

/// The place of one monitor.
#[derive(Drop)]
pub(crate) struct Slot<M: Monitor> {
    content: Content<M>,
}

impl<M: Monitor> Model for Slot<M> {
    ghost use Rattle.tl_monitor.specs.Places.{Place};
    ghost use Rattle.tl_monitor.specs.Shown.{shown};

    ghost Value = { Place };

    ghost view = { λ s. shown s.content };
}

/// Closes a monitor with the number of an edit, drops it, and answers what it told.
pub(crate) fn end<M: Monitor>(monitor: Watched<M>, edit: u64) -> Settlement
    ensures { result ≡ told monitor edit }
{
    let mut monitor = monitor;
    monitor.close(edit);
    let told = monitor.settlement();
    drop(monitor);
    told
}

impl<M: Monitor> Slot<M> {
    /// Of a monitor that is here.
    pub(crate) fn new(monitor: Watched<M>) -> Slot<M>
        ensures { result ≡ Here monitor }
    {
        Slot {
            content: Content::Here(monitor),
        }
    }

    /// Whether the monitor is here.
    pub(crate) fn is_here(&self) -> bool
        ensures { result ≡ is_some (held_of self.now) }
    {
        matches!(self.content, Content::Here(_))
    }

    /// What is known of one that is out.
    pub(crate) fn away(&self) -> Option<Away>
        ensures { result ≡ away_of self.now }
    {
        match &self.content {
            Content::Here(_) => None,
            Content::Away(away) => Some(*away),
        }
    }

    /// The monitor, if it is here.
    pub(crate) fn into_monitor(self) -> Option<Watched<M>>
        ensures { result ≡ held_of self }
    {
        let Slot { content } = self;
        match content {
            Content::Here(monitor) => Some(monitor),
            Content::Away(_) => None,
        }
    }

    /// Sets the limit, which one that is out gets when it comes back.
    pub(crate) fn retune(&mut self, limit: u32)
        ensures { self.new ≡ place_tuned limit self.old }
    {
        match &mut self.content {
            Content::Here(monitor) => monitor.retune(limit),
            Content::Away(away) => away.watch = with_limit(away.watch, limit),
        }
    }

    /// Keeps the edit that detached one that is out.
    pub(crate) fn set_closing(&mut self, edit: u64)
        ensures { self.new ≡ place_closing edit self.old }
    {
        if let Content::Away(away) = &mut self.content {
            away.closing = Some(edit);
        }
    }

    /// Gives the monitor that is here, which is then out under the ticket.
    pub(crate) fn take(&mut self, ticket: u64) -> Option<Watched<M>>
        ensures monitor { result ≡ held_of self.old }
        ensures rest { self.new ≡ place_left ticket self.old }
    {
        let watch = match &self.content {
            Content::Here(monitor) => monitor.watch(),
            Content::Away(_) => return None,
        };
        let taken = watch;
        let away = Away {
            ticket,
            taken,
            watch,
            closing: None,
        };
        match std::mem::replace(&mut self.content, Content::Away(away)) {
            Content::Here(monitor) => Some(monitor),
            Content::Away(_) => unreachable!(),
        }
    }

    /// Puts a monitor in its place.
    pub(crate) fn put(&mut self, monitor: Watched<M>)
        ensures { self.new ≡ Here monitor }
    {
        self.content = Content::Here(monitor);
    }
}
