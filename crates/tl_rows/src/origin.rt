//! Messages with the place of their head.

ghost use Rattle.std.specs.Prelude.{◌≡◌};
ghost use Rattle.tl_rows.specs.Reasons.{kept_request};

use tl_beats::{Placed, Request};
use tl_tables::Op;

/// A message and where its head stands; and of a head on D the request that it answers.
#[derive(Clone, Copy)]
pub struct Origin {
    /// Its head.
    pub place: Placed,
    /// The message.
    pub op: Op,
    /// What it answers.
    pub request: Option<Request>,
}

impl Origin {
    /// What is kept of it where it is a request.
    pub(crate) fn kept_request(&self) -> Request
        ensures { result ≡ kept_request self.now }
    {
        let head = &self.place.beat;
        Request {
            op: self.op,
            param: head.param,
            size: head.size,
            source: head.source,
            address: head.address,
        }
    }
}
