ghost use Rattle.std.specs.Prelude.{◌≡◌, ◌-◌, ◌<◌, ◌≤◌, length, slice_index};
ghost use Rattle.net_model.specs.Values.{point_at, point_entry, point_values, node_count};
ghost use Rattle.net_model.specs.WellFormed.{IsNet};

use crate::parts::{FixedPin, Near};
use crate::point::NetPoint;
use book_design::Core;
use std::marker::Model;

/// The network of a design.
#[derive(Drop)]
pub struct Network {
    points: Vec<NetPoint>,
    // the net of each star point; the star points stand behind the movable nodes
    stars: Vec<u32>,
    core: Core,
}

impl Model for Network {
    ghost use Rattle.net_model.specs.Values.{NetworkValue, point_values};
    ghost use Rattle.net_model.specs.WellFormed.{IsNet};

    ghost Value = { NetworkValue };

    ghost view = { λ n. record { points = point_values n.points.items; stars = n.stars.items; core = n.core } };

    ghost invariant = { λ n. IsNet (record { points = point_values n.points.items; stars = n.stars.items; core = n.core }) };
}

impl Network {
    /// The network of these points.
    pub(crate) fn new(points: Vec<NetPoint>, stars: Vec<u32>, core: Core) -> Network
        requires { IsNet (record {
          points = point_values points.items;
          stars = stars.items;
          core = core;
        }) }
        ensures { result ≡ record {
          points = point_values points.items;
          stars = stars.items;
          core = core;
        } }
    {
        Network {
            points,
            stars,
            core,
        }
    }

    /// How many points there are: the movable nodes and the star points.
    pub fn points(&self) -> usize
        ensures points { result ≡ length self.now.points }
        ensures valid { IsNet self.now }
    {
        self.points.len()
    }

    /// How many of the points are star points. They have the last numbers.
    pub fn stars(&self) -> usize
        ensures stars { result ≡ length self.now.stars }
        ensures valid { IsNet self.now }
    {
        self.stars.len()
    }

    /// The net of a star point, by its number in the file.
    pub fn net_of(&self, point: u32) -> u32
        requires star { node_count self.now ≤ point }
        requires there { point < length self.now.points }
        ensures net { result ≡ slice_index self.now.stars (point - node_count self.now) }
        ensures valid { IsNet self.now }
    {
        self.stars[point as usize - (self.points.len() - self.stars.len())]
    }

    /// The neighbours of a point, in ascending order.
    pub fn near(&self, point: u32) -> &[Near]
        requires { point < length self.now.points }
        ensures near { result.now ≡ (point_at self.now.points point).near }
        ensures valid { IsNet self.now }
    {
        &self.points[point as usize].near
    }

    /// The fixed pins of a point, in the order of nets and of first pins.
    pub fn pins(&self, point: u32) -> &[FixedPin]
        requires { point < length self.now.points }
        ensures pins { result.now ≡ (point_at self.now.points point).pins }
        ensures valid { IsNet self.now }
    {
        &self.points[point as usize].pins
    }

    /// How many sites a point takes. A star point takes none.
    pub fn area(&self, point: u32) -> u64
        requires { point < length self.now.points }
        ensures area { result ≡ (point_at self.now.points point).area }
        ensures valid { IsNet self.now }
    {
        self.points[point as usize].area
    }

    /// The point of that number.
    pub(crate) fn point(&self, i: usize) -> &NetPoint
        requires { i < length self.now.points }
        ensures point { point_entry result.now ≡ point_at self.now.points i }
        ensures valid { IsNet self.now }
    {
        &self.points[i]
    }

    /// The core of the design.
    pub fn core(&self) -> Core
        ensures core { result ≡ self.now.core }
        ensures valid { IsNet self.now }
    {
        self.core
    }
}
