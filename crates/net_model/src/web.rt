ghost use Rattle.net_model.specs.Webs.{joints_of};

use crate::model::Network;
use pad_reach::Web;

/// A point is anchored where it has a fixed pin.
impl Web for Network {
    ghost joints = { joints_of };

    fn points(&self) -> usize {
        Network::points(self)
    }

    fn degree(&self, i: usize) -> usize {
        self.point(i).near.len()
    }

    fn neighbour(&self, i: usize, k: usize) -> u32 {
        self.point(i).near[k].point
    }

    fn anchored(&self, i: usize) -> bool {
        !self.point(i).pins.is_empty()
    }
}
