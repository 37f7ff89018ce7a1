//! When workers work.

use crate::texts::FragmentTexts;
use std::sync::Wait;
use std::sync::atomic::{AtomicBool, AtomicU64, Ordering};
use std::thread::yield_now;
use tl_desk::Piece;
use tl_hall::Gate;

/// No window is to be checked now.
const RESTING: u64 = 0;

/// The script's thread carries out edits, while fragments may be read, and windows checked of managers whose beats seem to be whole.
const AHEAD: u64 = 1;

/// The script's thread publishes, and asks for help.
const OPEN: u64 = 2;

/// The script has ended.
const OVER: u64 = 3;

/// No beats have come since the last publish.
const NO_MANAGER: u64 = u64::MAX;

/// A worker that sleeps knows calls apart by the lowest 32 bits of their number.
const SLEEPERS_SEE: u64 = 1 << 32;

/// The most publishes that the script's thread does alone after one whose guesses were wrong.
const MOST_ALONE: u64 = 1_024;

/// What workers are called for.
pub(crate) enum Call {
    /// To read fragments, and to check windows of managers whose beats seem to be whole.
    Ahead,
    /// To check all windows.
    Publish,
    /// To go.
    Over,
}

/// What the script's thread and its workers share: the fragments of the script, what there is to do, how many calls there were, by
/// which workers that sleep know the next one, the manager whose beats came last, whether beats of another may be whole whose windows
/// aren't checked, and the gate of the caller. The script's thread alone keeps how many publishes it is to do alone, and how many it
/// was the last time that guesses were wrong.
#[derive(Drop)]
pub(crate) struct Shift<'s, 'a, G: Gate> {
    pub(crate) texts: FragmentTexts<'s>,
    state: AtomicU64,
    calls: AtomicU64,
    manager: AtomicU64,
    has_whole: AtomicBool,
    alone: AtomicU64,
    doubt: AtomicU64,
    gate: &'a G,
}

impl<'s, 'a, G: Gate> Shift<'s, 'a, G> {
    /// One at rest.
    pub(crate) fn new(texts: FragmentTexts<'s>, gate: &'a G) -> Shift<'s, 'a, G> {
        Shift {
            texts,
            state: AtomicU64::new(RESTING),
            calls: AtomicU64::new(0),
            manager: AtomicU64::new(NO_MANAGER),
            has_whole: AtomicBool::new(false),
            alone: AtomicU64::new(0),
            doubt: AtomicU64::new(1),
            gate,
        }
    }

    /// Calls all workers.
    fn call(&self, state: u64) {
        self.state.store(state, Ordering::SeqCst);
        self.calls.fetch_add(1, Ordering::SeqCst);
        self.calls.wake_all();
    }

    /// Notes whose beats an edit brought. Where those that came before are another manager's, these may be whole, and the workers are
    /// called to check its windows ahead of the publish.
    pub(crate) fn edited(&self, manager: Option<u16>) {
        let Some(manager) = manager else {
            return;
        };
        let manager = u64::from(manager);
        let before = self.manager.swap(manager, Ordering::SeqCst);
        if before != NO_MANAGER && before != manager {
            self.has_whole.store(true, Ordering::SeqCst);
            self.call(AHEAD);
        }
    }

    /// Calls the workers to read on, where few fragments are read ahead.
    pub(crate) fn came_to_command(&self) {
        if self.texts.are_few() {
            self.call(AHEAD);
        }
    }

    /// Whether beats of a manager may be whole whose windows aren't checked.
    pub(crate) fn has_whole(&self) -> bool {
        self.has_whole.load(Ordering::SeqCst)
    }

    /// Notes that no window was found of a manager whose beats seem to be whole.
    pub(crate) fn found_none_whole(&self) {
        self.has_whole.store(false, Ordering::SeqCst);
    }

    /// Whether a window is of a manager whose beats seem to be whole.
    pub(crate) fn seems_whole(&self, piece: Piece) -> bool {
        match piece {
            Piece::Manager(manager, _) => {
                u64::from(manager) != self.manager.load(Ordering::SeqCst)
            }
            Piece::Monitor(_, _) => false,
        }
    }

    /// Whether fragments may be read and windows checked ahead.
    pub(crate) fn is_ahead(&self) -> bool {
        self.state.load(Ordering::SeqCst) == AHEAD && self.gate.go_on()
    }

    /// Calls the workers to a publish, unless the script's thread is to work alone.
    pub(crate) fn open(&self) {
        let is_open = self.state.load(Ordering::SeqCst) == OPEN;
        if !is_open && self.alone.load(Ordering::SeqCst) == 0 {
            self.call(OPEN);
        }
    }

    /// Sends the workers to rest after a publish.
    pub(crate) fn rest(&self) {
        self.state.store(RESTING, Ordering::SeqCst);
        self.manager.store(NO_MANAGER, Ordering::SeqCst);
        self.has_whole.store(false, Ordering::SeqCst);
        let alone = self.alone.load(Ordering::SeqCst);
        self.alone.store(alone.saturating_sub(1), Ordering::SeqCst);
    }

    /// Sends the workers to rest whose guesses were wrong, for twice as many publishes as the last time.
    pub(crate) fn give_up(&self) {
        self.state.store(RESTING, Ordering::SeqCst);
        let doubt = self.doubt.load(Ordering::SeqCst);
        let doubt = doubt.saturating_mul(2).min(MOST_ALONE);
        self.doubt.store(doubt, Ordering::SeqCst);
        self.alone.store(doubt, Ordering::SeqCst);
    }

    /// Sends the workers away for good.
    pub(crate) fn end(&self) {
        self.call(OVER);
    }

    /// What the workers are called for now; None at rest.
    fn wanted(&self) -> Option<Call> {
        match self.state.load(Ordering::SeqCst) {
            RESTING => None,
            OVER => Some(Call::Over),
            _ if !self.gate.go_on() => Some(Call::Over),
            AHEAD => Some(Call::Ahead),
            _ => Some(Call::Publish),
        }
    }

    /// Waits for a call after that of this number: what it is for, and its number.
    pub(crate) fn next_call<R: Wait>(&self, rt: &R, served: u64) -> (Call, u64) {
        for _ in rt.forever() {
            let number = self.calls.load(Ordering::SeqCst);
            if number != served {
                if let Some(call) = self.wanted() {
                    return (call, number);
                }
            }
            self.calls.park(rt, (number % SLEEPERS_SEE) as u32);
        }
        unreachable!()
    }
}

impl<G: Gate> Gate for Shift<'_, '_, G> {
    fn taken(&self, ticket: u64) {
        self.gate.taken(ticket);
    }

    fn handed_in(&self, ticket: u64) {
        self.gate.handed_in(ticket);
    }

    fn go_on(&self) -> bool {
        yield_now();
        self.state.load(Ordering::SeqCst) == OPEN && self.gate.go_on()
    }
}
