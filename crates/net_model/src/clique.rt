//! The distinct nodes of a net, and the weights of their pairs and of their spokes.

ghost use Rattle.std.specs.Prelude.{◌≡◌, ◌-◌, ◌*◌, ◌/◌, ◌^◌, ◌<◌, ◌≤◌, not, ◌&&◌, nat_lt, [], length, vec_len};
ghost use Rattle.std.specs.Prelude.{if◌then◌else◌, IfOk, OnOk};
ghost use Rattle.book_design.specs.declared.rules.TheConstants.{MOST_NET_WEIGHT};
ghost use Rattle.net_model.specs.Clique.{first_pins};
ghost use Rattle.net_model.specs.Forms.Steps.{IsUnmarked, AreMarked, AreAtNodes};

use crate::limits::{MOST_CLIQUE, NET_WEIGHT};
use book_design::Pin;
use std::alloc::{AllocError, Global};

/// The distinct nodes of a net: the first pin of each, in order.
#[derive(Drop)]
pub(crate) struct Clique {
    pub(crate) pins: Vec<Pin>,
    // for each node of the design whether a pin of it was found; between two nets none is
    pub(crate) seen: Vec<bool>,
}

impl Clique {
    /// No pins, for nets over so many nodes.
    pub(crate) fn new(alloc: Global, nodes: usize) -> Result<Clique, AllocError>
        ensures { IfOk result (λ clique. IsUnmarked nodes clique.seen.items) }
    {
        let seen = vec![in alloc; false; nodes]?;
        Ok(Clique {
            pins: Vec::new(alloc),
            seen,
        })
    }

    /// Gathers the first pins of the distinct nodes of a net, in linear time.
    ///
    /// After an `Err` nodes may stay marked, and no further net can be gathered.
    pub(crate) fn gather(&mut self, pins: &[Pin]) -> Result<(), AllocError>
        requires unmarked { IsUnmarked (vec_len self.old.seen) self.old.seen.items }
        requires there { AreAtNodes (vec_len self.old.seen) pins.now }
        ensures pins { OnOk result (self.new.pins.items ≡ first_pins pins.now) }
        ensures unmarked { OnOk result (IsUnmarked (vec_len self.old.seen) self.new.seen.items) }
    {
        self.pins.clear();
        keep_first(&mut self.pins, &mut self.seen, pins)?;
        unmark(&mut self.seen, &self.pins);
        Ok(())
    }
}

/// Pushes each pin whose node isn't marked yet, and marks its node.
fn keep_first(first: &mut Vec<Pin>, seen: &mut [bool], pins: &[Pin]) -> Result<(), AllocError>
    requires empty { first.old.items ≡ [] }
    requires unmarked { IsUnmarked (length seen.old) seen.old }
    requires there { AreAtNodes (length seen.old) pins.now }
    ensures first { OnOk result (first.new.items ≡ first_pins pins.now) }
    ensures marked { OnOk result (AreMarked pins.now seen.new) }
{
    for pin in pins {
        let node = pin.node as usize;
        if !seen[node] {
            seen[node] = true;
            first.push(*pin)?;
        }
    }
    Ok(())
}

/// Unmarks the nodes of the pins.
fn unmark(seen: &mut [bool], pins: &[Pin])
    requires marked { AreMarked pins.now seen.old }
    requires there { AreAtNodes (length seen.old) pins.now }
    ensures { IsUnmarked (length seen.old) seen.new }
{
    for pin in pins {
        seen[pin.node as usize] = false;
    }
}

/// The weight of each pair of a net's nodes, by the net's weight and the number of its distinct
/// nodes: 0 where they are no clique.
pub(crate) fn share(weight: u32, degree: usize) -> u64
    requires { weight ≤ MOST_NET_WEIGHT }
    ensures { result ≡ (if nat_lt 1 degree && not (nat_lt MOST_CLIQUE degree)
        then NET_WEIGHT * weight / (degree - 1) else 0) }
{
    if degree > 1 && degree <= MOST_CLIQUE {
        NET_WEIGHT * u64::from(weight) / (degree as u64 - 1)
    } else {
        0
    }
}

/// The weight of each spoke of a wide net, by the net's weight and the number of its distinct nodes.
pub(crate) fn spoke(weight: u32, degree: usize) -> u64
    requires weight { weight ≤ MOST_NET_WEIGHT }
    requires wide { MOST_CLIQUE < degree }
    requires few { degree < 2 ^ 32 }
    ensures { result ≡ NET_WEIGHT * weight * degree / (degree - 1) }
{
    let degree = degree as u64;
    NET_WEIGHT * u64::from(weight) * degree / (degree - 1)
}
