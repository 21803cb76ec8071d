//! Laws of networks, as the contracts of functions that do nothing.

ghost use Rattle.std.specs.Prelude.{◌≡◌, ℕ, ◌<◌, length};
ghost use Rattle.book_design.specs.Values.{NetValue, DesignValue};
ghost use Rattle.book_design.specs.Faults.{IsFirst};
ghost use Rattle.book_design.specs.WellFormed.{IsDesign, IsGoodNet};
ghost use Rattle.net_model.specs.Answers.{HasOneNetwork};
ghost use Rattle.net_model.specs.Network.{network_of, terms_of, terms_in_pairs};
ghost use Rattle.net_model.specs.Numbered.{point_nodes};
ghost use Rattle.net_model.specs.Webs.{joints_of};
ghost use Rattle.pad_reach.specs.Reaches.{IsFirstUnanchored};

/// A design has exactly one network or exactly one first fault, never both.
pub fn one_network()
    ensures { (design : DesignValue) → HasOneNetwork design }
{}

/// The pairs among the pair terms of a net are all its pairs without those of two fixed nodes, and none where its share is 0. (A star
/// has its spokes instead.)
pub fn terms_are_pairs()
    ensures { (design : DesignValue) (net : NetValue) → IsGoodNet (length design.nodes) net
        → terms_of design net ≡ terms_in_pairs design net }
{}

/// The first point without a chain of neighbours to an anchored one is a movable node: a star point has a movable node for its
/// neighbour, which has a smaller number.
pub fn unanchored_is_movable()
    ensures { (design : DesignValue) (p : ℕ) → IsDesign design
        → IsFirstUnanchored (joints_of (network_of design)) p → p < length (point_nodes design) }
{}
