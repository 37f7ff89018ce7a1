//! Standard error of a stream.

ghost use Rattle.std.specs.Prelude.{◌<◌, ◌^◌};

use crate::teller::StreamCount;
use tl_text::ByteOut;

/// Where a stream tells what is none of its rows, and what hears how far it is.
pub trait Listener: ByteOut {
    /// One more fragment was read, and with it the stream came to this.
    fn hear(&mut self, count: StreamCount)
        requires { Self.failure_count self.old < 2 ^ 63 }
        ensures { Self.failure_count self.new < 2 ^ 63 };
}
