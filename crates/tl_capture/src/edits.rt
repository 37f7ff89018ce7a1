//! Fragments that come and go.

ghost use Rattle.std.specs.Prelude.{◌≡◌, IfOk, OnOk, OnErr, None, Some, is_some, true};
ghost use Rattle.std.specs.Arc.{arc_value};
ghost use Rattle.std.specs.Option.{option_map};
ghost use Rattle.tl_capture.specs.Present.{recorded, numbered, overlapped, put_in, without, without_ended, cleared};

use crate::present::Present;
use std::alloc::AllocError;
use std::sync::Arc;
use tl_beats::Fragment;

impl Present {
    /// Puts a fragment on a link, where none has its number or a cycle of its range. AllocError where memory is refused: then
    /// nothing has changed.
    pub fn put(&mut self, link: u16, fragment: Arc<Fragment>) -> Result<(), AllocError>
        requires absent { numbered link (arc_value fragment).number self.old ≡ None }
        requires free { overlapped (recorded link (arc_value fragment)) self.old ≡ None }
        ensures ok { OnOk result (self.new ≡ put_in (recorded link (arc_value fragment)) self.old) }
        ensures err { OnErr result (self.new ≡ self.old) }
    {
        let key = (link, fragment.number());
        // Its beats lie in its range, in order.
        let _ = fragment.beats();
        self.numbers.insert(key, fragment.last())?;
        if let Err(fault) = self.ranges.insert(link, fragment) {
            self.numbers.remove(&key);
            return Err(fault);
        }
        Ok(())
    }

    /// Puts a fragment in the place of the one of its link and number, where no other fragment has a cycle of its range.
    /// AllocError where memory is refused: then nothing has changed.
    pub fn replace(&mut self, link: u16, fragment: Arc<Fragment>) -> Result<(), AllocError>
        requires there { is_some (numbered link (arc_value fragment).number self.old) ≡ true }
        requires free { overlapped (recorded link (arc_value fragment)) self.old ≡ None }
        ensures ok { OnOk result (self.new ≡ put_in (recorded link (arc_value fragment)) (without link (arc_value fragment).number self.old)) }
        ensures err { OnErr result (self.new ≡ self.old) }
    {
        let key = (link, fragment.number());
        // Its beats lie in its range, in order.
        let _ = fragment.beats();
        let end = fragment.last();
        let Some(last) = self.numbers.get(&key) else {
            return Err(AllocError);
        };
        self.ranges.replace(link, *last, fragment)?;
        self.numbers.insert(key, end)?;
        Ok(())
    }

    /// Takes out the fragment of a link with a number, and answers it; None, with nothing changed, where there is none.
    pub fn take(&mut self, link: u16, number: u32) -> Option<Arc<Fragment>>
        ensures value { option_map (λ f. recorded link (arc_value f)) result ≡ numbered link number self.old }
        ensures rest { self.new ≡ without link number self.old }
    {
        let last = self.numbers.remove(&(link, number))?;
        self.ranges.remove(link, last)
    }

    /// Takes out all fragments of a link.
    pub fn clear(&mut self, link: u16)
        ensures { self.new ≡ cleared link self.old }
    {
        while let Some(number) = self.ranges.first(link) {
            self.take(link, number);
        }
    }

    /// Takes out the fragments of a link that end by a cycle.
    pub fn drop_ended(&mut self, link: u16, cycle: u64)
        ensures { self.new ≡ without_ended link cycle self.old }
    {
        while let Some(number) = self.ranges.first_ended(link, cycle) {
            self.take(link, number);
        }
    }
}
