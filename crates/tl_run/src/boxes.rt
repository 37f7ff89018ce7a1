//! The monitors that a script's commands are to attach.

ghost use Rattle.std.specs.Prelude.{◌≡◌, ◌∷◌, ◌++◌, [], List, IfSome, OnOk, OnErr, OnSome, IsNone};
ghost use Rattle.tl_beats.specs.declared.watch.Watch.{Watch as AnyWatch};
ghost use Rattle.tl_run.specs.Boxes.{watches_in};

use std::alloc::AllocError;
use std::collections::VecDeque;
use std::marker::Model;
use tl_beats::Watch;
use tl_desk::is_watch;
use tl_monitor::Monitor;

/// The monitors that no command has attached yet, the next one first.
#[derive(Drop)]
pub struct Boxes<M: Monitor> {
    boxes: VecDeque<M>,
}

impl<M: Monitor> Model for Boxes<M> {
    ghost use Rattle.std.specs.Prelude.{List};
    ghost use Rattle.tl_beats.specs.declared.watch.Watch.{Watch as AnyWatch};
    ghost use Rattle.tl_run.specs.Boxes.{watches_in};

    ghost Value = { List AnyWatch };

    ghost view = { λ b. watches_in M.held b.boxes.items };
}

impl<M: Monitor> Boxes<M> {
    /// These monitors, in the order in which commands are to attach them.
    pub fn new(boxes: Vec<M>) -> Boxes<M>
        ensures { result ≡ watches_in M.held boxes.items }
    {
        Boxes {
            boxes: VecDeque::from(boxes),
        }
    }

    /// One monitor more, after the others. AllocError, with nothing changed, where memory is refused: the monitor is then dropped.
    pub fn put(&mut self, monitor: M) -> Result<(), AllocError>
        ensures ok { OnOk result (self.new ≡ self.old ++ (M.held monitor).watch ∷ []) }
        ensures err { OnErr result (self.new ≡ self.old) }
    {
        match self.boxes.push_back(monitor) {
            Ok(()) => Ok(()),
            Err(_) => Err(AllocError),
        }
    }

    /// The next monitor, if it has this watch.
    pub fn next(&mut self, watch: &Watch) -> Option<M>
        ensures found { OnSome result (self.old ≡ watch.now ∷ self.new) }
        ensures same { IfSome result (λ monitor. (M.held monitor).watch ≡ watch.now) }
        ensures none { IsNone result → (self.new ≡ self.old) × ((left : List AnyWatch) → self.old ≡ watch.now ∷ left → ⊥) }
    {
        let next = self.boxes.front()?.watch();
        if is_watch(&next, watch) {
            self.boxes.pop_front()
        } else {
            None
        }
    }
}
