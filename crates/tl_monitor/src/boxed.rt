//! A boxed monitor is a monitor: a call goes to the one inside.

use crate::monitor::{Monitor, Settlement};
use tl_beats::{Beat, Watch};

impl Monitor for Box<dyn Monitor + Send> {
    ghost held = { λ b. (Monitor-box b).held b.value };

    fn watch(&self) -> Watch {
        (**self).watch()
    }

    fn tally(&self) -> u32 {
        (**self).tally()
    }

    fn settlement(&self) -> Settlement {
        (**self).settlement()
    }

    fn restart(&mut self, tally: u32) {
        (**self).restart(tally)
    }

    fn see(&mut self, beat: &Beat) -> bool {
        (**self).see(beat)
    }

    fn retune(&mut self, limit: u32) {
        (**self).retune(limit)
    }

    fn close(&mut self, edit: u64) {
        (**self).close(edit)
    }
}
