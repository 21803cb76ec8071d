ghost use Rattle.std.specs.Prelude.{◌≡◌, ◌<◌, length};
ghost use Rattle.pad_reach.specs.Reaches.{step_at, FallsTo};

use std::marker::Model;

/// A step for each point of a web, by which its chain to an anchored point goes on.
#[derive(Drop)]
pub struct Reach {
    pub(crate) entries: Vec<Entry>,
}

/// What is known of a point: the neighbour that its chain goes on to, and its distance.
#[derive(Clone, Copy)]
pub(crate) struct Entry {
    pub(crate) toward: Option<u32>,
    pub(crate) distance: u32,
}

impl Model for Reach {
    ghost use Rattle.std.specs.Prelude.{List, map};
    ghost use Rattle.pad_reach.specs.Reaches.{Step, AreFalling};

    ghost Value = { List Step };

    ghost view = { λ r. map (λ entry. record { toward = entry.toward; distance = entry.distance }) r.entries.items };

    ghost invariant = { λ r. AreFalling (map (λ entry. record { toward = entry.toward; distance = entry.distance }) r.entries.items) };
}

impl Reach {
    /// The neighbour to which the point's chain goes on: its distance is one less. None for an anchored point, whose distance is 0.
    pub fn toward(&self, i: usize) -> Option<u32>
        requires { i < length self.now }
        ensures toward { result ≡ (step_at self.now i).toward }
        ensures falls { FallsTo self.now result (step_at self.now i).distance }
    {
        self.entries[i].toward
    }

    /// How many points come behind this one in its chain.
    pub fn distance(&self, i: usize) -> u32
        requires { i < length self.now }
        ensures { result ≡ (step_at self.now i).distance }
    {
        self.entries[i].distance
    }
}
