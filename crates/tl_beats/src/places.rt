//! The places of a fragment's beats.

ghost use Rattle.std.specs.Prelude.{◌≡◌, ◌↔◌, ◌≤◌, IfOk, IfErr, OnOk, IsTrue};
ghost use Rattle.tl_beats.specs.Beats.{IsWellFormed, LacksOther, rises};
ghost use Rattle.tl_beats.specs.Faults.{is_memory, is_outside};
ghost use Rattle.tl_beats.specs.Fragments.{AreBeats};
ghost use Rattle.tl_beats.specs.Reading.{placed_at};
ghost use Rattle.tl_beats.specs.Parts.{IsFirstFault};

use crate::Beat;
use crate::fault::FragmentFault;
use tl_tables::{Chan, chan_index};

const MOST_BEATS: usize = 65_536;

/// Whether the first beat stands strictly before the second.
fn rises(before: &Beat, after: &Beat) -> bool
    ensures { result ≡ rises before.now after.now }
{
    before.cycle < after.cycle
        || before.cycle == after.cycle && chan_index(before.chan) < chan_index(after.chan)
}

/// The beat of the line with this number, where there is room after the beats before it, in the range and rising.
pub(crate) fn placed(
    number: u32,
    first: u64,
    last: u64,
    before: &[Beat],
    beat: Beat,
) -> Result<Beat, FragmentFault>
    ensures exact { result ≡ placed_at first last number before.now beat }
    ensures same { IfOk result (λ placed. placed ≡ beat) }
    ensures inside { IfErr result (λ e. is_outside e ≡ is_memory e) }
{
    if before.len() >= MOST_BEATS {
        return Err(FragmentFault::TooManyBeats);
    }
    if beat.cycle < first || last < beat.cycle {
        return Err(FragmentFault::OutOfRange(number));
    }
    match before.last() {
        Some(earlier) if !rises(earlier, &beat) => Err(FragmentFault::NotRising(number)),
        _ => Ok(beat),
    }
}

/// Whether opcode, param and size are in their ranges.
fn are_in_range(beat: &Beat) -> bool
    ensures { IsTrue result ↔ ((beat.now.opcode ≤ 7) × (beat.now.param ≤ 7) × (beat.now.size ≤ 15)) }
{
    beat.opcode <= 7 && beat.param <= 7 && beat.size <= 15
}

/// Whether the fields that the beat's channel lacks are 0.
fn lacks_other(beat: &Beat) -> bool
    ensures { IsTrue result ↔ LacksOther beat.now.chan beat.now }
{
    let no_access = beat.address == 0 && beat.mask == 0;
    match beat.chan {
        Chan::A | Chan::B => beat.sink == 0 && !beat.denied,
        Chan::C => beat.sink == 0 && beat.mask == 0 && !beat.denied,
        Chan::D => no_access,
        Chan::E => no_access
            && beat.opcode == 0
            && beat.param == 0
            && beat.size == 0
            && beat.source == 0
            && !beat.denied
            && !beat.corrupt,
    }
}

impl Beat {
    /// Whether its fields are in their ranges, and those that its channel lacks are 0.
    pub fn is_well_formed(self) -> bool
        ensures { IsTrue result ↔ IsWellFormed self }
    {
        are_in_range(&self) && lacks_other(&self)
    }
}

/// Whether beats are those of a fragment with this range; if not, the fault of the first that is not.
pub(crate) fn judge(first: u64, last: u64, beats: &[Beat]) -> Result<(), FragmentFault>
    ensures kept { OnOk result (AreBeats first last beats.now) }
    ensures fault { IfErr result (IsFirstFault first last beats.now) }
{
    for (index, beat) in beats.iter().enumerate() {
        let number = index as u32 + 2;
        if !beat.is_well_formed() {
            return Err(FragmentFault::BadField(number));
        }
        placed(number, first, last, &beats[..index], *beat)?;
    }
    Ok(())
}
