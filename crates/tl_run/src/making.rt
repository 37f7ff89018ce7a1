//! A run that makes the monitors that its commands attach.

ghost use Rattle.std.specs.Prelude.{◌≡◌, [], false, true, IfOk, IfSome, length};
ghost use Rattle.std.specs.Option.{option_map_or};
ghost use Rattle.tl_desk.specs.Core.{AreLinked};
ghost use Rattle.tl_desk.specs.Ends.{AllHaveEnded};
ghost use Rattle.tl_script.specs.Text.{IsCommand};
ghost use Rattle.tl_script.specs.Asked.{asked, asking};
ghost use Rattle.tl_run.specs.Output.{start};

use crate::answer::{Answer, answer_text};
use crate::runner::Runner;
use crate::session::{CommandFault, Session};
use std::alloc::{AllocError, Global};
use std::marker::Model;
use tl_beats::Watch;
use tl_check::Report;
use tl_midway::Midway;
use tl_monitor::{Monitor, Settlement};
use tl_script::{Asked, Command, StopCause, asked_by};
use tl_topology::Topo;

/// What makes monitors.
pub trait Maker {
    /// The monitors that it makes.
    type Made: Monitor;

    /// The monitor of this number, which watches this. AllocError where memory is refused.
    fn make(&mut self, alloc: Global, number: u32, watch: &Watch) -> Result<Self::Made, AllocError>
        ensures { IfOk result (λ made. (Self.Made.held made).watch ≡ watch.now) };
}

/// A run that makes the monitors that its commands attach.
#[derive(Drop)]
pub struct Making<K: Maker + Drop> {
    maker: K,
    session: Session<K::Made>,
}

impl<K: Maker + Drop> Model for Making<K> {
    ghost use Rattle.tl_run.specs.Output.{RunData};

    ghost Value = { RunData };

    ghost view = { λ m. m.session };
}

impl<K: Maker + Drop> Making<K> {
    /// One without edits and reports; with a law where its capture begins in the middle of another run. AllocError where memory is
    /// refused.
    pub fn new(
        alloc: Global,
        topo: &Topo,
        midway: Option<Midway>,
        maker: K,
    ) -> Result<Making<K>, AllocError>
        ensures { IfOk result (λ making. making ≡ record { setting = record { topo = topo.now; midway = midway }; now = start; boxes = [] }) }
    {
        let session = Session::new(alloc, topo, midway, Vec::new(alloc))?;
        Ok(Making { maker, session })
    }

    /// The last report, if there is one.
    pub fn last(&self) -> Option<&Report>
        ensures rows { self.now.now.rows ≡ option_map_or (λ r. r.now.rows) result [] }
        ensures links { IfSome result (λ report. AreLinked self.now.setting.topo report.now.rows) }
    {
        self.session.last()
    }

    /// Ends the run, as `Session::finish` does, and gives the maker back.
    pub fn finish(self) -> (K, Vec<(u32, Settlement)>)
        ensures { AllHaveEnded (record { topo = self.setting.topo; edits = self.now.edits }) result.1.items }
    {
        let Making { maker, session } = self;
        (maker, session.finish())
    }
}

impl<K: Maker + Drop> Runner for Making<K> {
    ghost so_far = { λ m. m };

    ghost noted = { false };

    ghost supplies = { true };

    fn topo(&self) -> &Topo {
        self.session.topo()
    }

    fn ask(&self, alloc: Global, command: &Command<'_>, _left: usize) -> Result<Asked, AllocError>
        requires { IsCommand command.now }
        ensures { IfOk result (λ found. asking found ≡ asked command.now) }
    {
        asked_by(alloc, command)
    }

    fn supply(&mut self, alloc: Global, command: &Command<'_>) -> Result<(), AllocError> {
        let Some((number, watch)) = command.monitor() else {
            return Ok(());
        };
        let monitor = self.maker.make(alloc, number, &watch)?;
        self.session.lend(monitor)
    }

    fn answer(&mut self, alloc: Global, asked: Asked) -> Result<Answer, CommandFault> {
        self.session.answer(alloc, asked)
    }

    fn text(&self, alloc: Global, answer: &Answer) -> Result<String, AllocError> {
        answer_text(alloc, self.session.topo(), answer)
    }

    fn stop_notes(&self, alloc: Global, _cause: StopCause, _rest: &[u8]) -> String {
        String::new(alloc)
    }

    fn last_rows(&self) -> u64
        ensures { result ≡ length self.now.now.rows }
    {
        self.session.last_rows()
    }
}
