//! A system as a web, for the search for chains to a pad.

ghost use Rattle.relax_system.specs.System.{joints_of};

use crate::system::System;
use pad_reach::Web;

/// A point is anchored where its anchor weight is at least 1.
impl Web for System {
    ghost joints = { joints_of };

    fn points(&self) -> usize {
        System::points(self)
    }

    fn degree(&self, i: usize) -> usize {
        self.point(i).near.as_slice().len()
    }

    fn neighbour(&self, i: usize, k: usize) -> u32 {
        self.point(i).near.as_slice()[k].point
    }

    fn anchored(&self, i: usize) -> bool {
        1 <= self.point(i).anchor
    }
}
