//! Scripts as they are read.

ghost use Rattle.std.specs.Prelude.{◌≡◌, ◌<◌, ◌≤◌, ◌^◌, ◌↔◌, IfOk, IfSome, OnOk, length};
ghost use Rattle.std.specs.Result.{IsErrOf};

use std::alloc::Global;
use tl_text::{ByteIn, TextFault, read_text};

/// The most bytes of a script.
const MOST_SCRIPT: u64 = 67_108_864;

/// Reads the input to its end as a script. TooLong where it has more than 67,108,864 bytes; ReadFault exactly where a read failed;
/// Memory where memory is refused.
pub fn read_script<I: ByteIn>(alloc: Global, input: &mut I) -> Result<Vec<u8>, TextFault>
    requires reads { I.read_count input.old < 2 ^ 63 }
    requires failures { I.failure_count input.old < 2 ^ 63 }
    ensures ok { IfOk result (λ script. (length script.items ≤ 67108864) × IfSome (I.remaining input.old) (λ bytes. script.items ≡ bytes)) }
    ensures too_long { IsErrOf result TextFault.TooLong → IfSome (I.remaining input.old) (λ bytes. 67108864 < length bytes) }
    ensures failed { IsErrOf result TextFault.ReadFault ↔ (I.failure_count input.old < I.failure_count input.new) }
    ensures quiet { OnOk result (I.failure_count input.new ≡ I.failure_count input.old) }
{
    read_text(alloc, input, MOST_SCRIPT)
}
