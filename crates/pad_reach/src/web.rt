ghost use Rattle.std.specs.Prelude.{◌≡◌, ℕ, ◌<◌, ◌≤◌, List, length, slice_index};
ghost use Rattle.pad_reach.specs.Chain.{Joint, joint_at};

/// The most points of a web: those of a network, and as many again for points that a net of many nodes may get.
pub const MOST_POINTS: usize = 2_097_152;

/// Points with neighbours, some of them anchored. A point needn't be a neighbour of its neighbours.
pub trait Web {
    /// The points, each with its neighbours.
    ghost joints: { Self → List Joint };

    /// How many points there are.
    fn points(&self) -> usize
        ensures count { result ≡ length (joints self.now) }
        ensures few { result ≤ MOST_POINTS };

    /// How many neighbour entries the point has. A neighbour may stand in several.
    fn degree(&self, i: usize) -> usize
        requires { i < length (joints self.now) }
        ensures { result ≡ length (joint_at (joints self.now) i).near };

    /// The point's neighbour at the entry `k`. It is a point.
    fn neighbour(&self, i: usize, k: usize) -> u32
        requires point { i < length (joints self.now) }
        requires entry { k < length (joint_at (joints self.now) i).near }
        ensures value { result ≡ slice_index (joint_at (joints self.now) i).near k }
        ensures there { result < length (joints self.now) };

    /// Whether the point is anchored.
    fn anchored(&self, i: usize) -> bool
        requires { i < length (joints self.now) }
        ensures { result ≡ (joint_at (joints self.now) i).anchored };
}
