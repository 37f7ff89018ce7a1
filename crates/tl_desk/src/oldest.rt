//! The oldest ticket that is live.

ghost use Rattle.std.specs.Prelude.{◌≡◌};
ghost use Rattle.std.specs.Bool.{Decides};
ghost use Rattle.tl_desk.specs.TicketData.{IsOutFor};
ghost use Rattle.tl_desk.specs.Jobs.{IsLive, IsLiveAt, IsLiveAtWatch, IsOldestLive};

use crate::Piece;
use crate::desk::Desk;
use tl_board::Watches;
use tl_monitor::Monitor;
use tl_pieces::PieceKey;

/// Whether a ticket is the live one of a window of a manager.
fn is_live_at(windows: &Watches, key: PieceKey, ticket: u64) -> bool
    ensures { Decides result (IsLiveAt windows.now.spans key ticket) }
{
    match windows.live_span(key) {
        Some(live) => live == ticket,
        None => false,
    }
}

/// Whether it is the live one of a window of a monitor.
fn is_live_watch_at(windows: &Watches, key: PieceKey, ticket: u64) -> bool
    ensures { Decides result (IsLiveAtWatch windows.now key ticket) }
{
    match windows.live_watch(key) {
        Some(live) => live == ticket,
        None => false,
    }
}

impl<M: Monitor> Desk<M> {
    /// The lowest live ticket, and None exactly where none is live. Whoever watches over workers may call it back, and a take then
    /// gives its window out again. It walks the tickets that are out, from the lowest on, up to the first that is live, and takes no
    /// memory.
    pub fn oldest_live(&self) -> Option<u64>
        ensures { IsOldestLive self.now result }
    {
        for (ticket, taken) in self.tickets.iter() {
            if self.is_live(*ticket, taken.piece) {
                return Some(*ticket);
            }
        }
        None
    }

    /// Whether a ticket that is out for a window is the window's live one.
    fn is_live(&self, ticket: u64, piece: Piece) -> bool
        requires { IsOutFor ticket piece self.now.tickets.out }
        ensures { Decides result (IsLive self.now ticket) }
    {
        match piece {
            Piece::Manager(owner, window) => {
                let owner = u32::from(owner);
                is_live_at(&self.windows, PieceKey { owner, window }, ticket)
            }
            Piece::Monitor(owner, window) => {
                is_live_watch_at(&self.windows, PieceKey { owner, window }, ticket)
            }
        }
    }
}
