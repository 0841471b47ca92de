// A Dial whose links lead nowhere.

use crate::any_link::AnyLink;
use crate::dials::{Dial, DialStop};
use crate::frame_link::FrameLink;
use crate::memory_link::MemoryLink;
use crate::targets::Target;
use rb_base::{NullSink, SteadySource};
use rb_trees::{Memory, Seq};
use std::alloc::Global;

/// A Dial of which no dial fails, and whose links lead nowhere: what is written to one is lost, and each reply ends before its
/// first byte.
///
/// It is lent to code that is to dial nothing. It tells nothing, keeps no link that comes back, and its counts are always 0.
#[derive(Drop)]
pub struct NullDial {
    alloc: Global,
}

impl NullDial {
    /// The Dial.
    pub fn make(alloc: Global) -> NullDial {
        NullDial { alloc }
    }
}

impl Dial for NullDial {
    ghost use Rattle.std.specs.Prelude.{None};

    type L = AnyLink<FrameLink<SteadySource, NullSink>>;

    ghost told = { λ it. None };

    ghost faults = { λ it. 0 };

    ghost broken = { λ it. 0 };

    fn dial(
        &mut self,
        _target: &Target,
    ) -> Result<AnyLink<FrameLink<SteadySource, NullSink>>, DialStop> {
        let source = SteadySource::make(Seq::new(self.alloc));
        Ok(AnyLink::Dialled(FrameLink::make(self.alloc, source, NullSink)))
    }

    fn around(
        &mut self,
        link: MemoryLink,
    ) -> Result<AnyLink<FrameLink<SteadySource, NullSink>>, Memory> {
        Ok(AnyLink::Around(link))
    }

    fn back(&mut self, _link: AnyLink<FrameLink<SteadySource, NullSink>>) {}
}
