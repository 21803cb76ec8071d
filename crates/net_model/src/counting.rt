//! How many pair terms the nets of a design have, and which nets have a star point.

ghost use Rattle.std.specs.Prelude.{◌≡◌, ◌≤◌, false, not, length, filter, IfOk, OnOk};
ghost use Rattle.std.specs.List.{list_any};
ghost use Rattle.book_design.specs.Nets.{net_value};
ghost use Rattle.book_design.specs.Points.{is_movable};
ghost use Rattle.book_design.specs.WellFormed.{IsGoodNet};
ghost use Rattle.net_model.specs.Clique.{first_pins};
ghost use Rattle.net_model.specs.Network.{pairs, terms_in_pairs};
ghost use Rattle.net_model.specs.Numbered.{node_at};
ghost use Rattle.net_model.specs.Star.{is_wide};
ghost use Rattle.net_model.specs.Forms.Steps.{AreAtNodes, IsUnmarked, Counts};

use crate::clique::{Clique, share};
use crate::limits::MOST_CLIQUE;
use book_design::{Design, Net, Pin};
use std::alloc::{AllocError, Global};

/// What the nets of a design come to.
#[derive(Drop)]
pub(crate) struct NetCount {
    /// How many pair terms they have.
    pub(crate) terms: u64,
    /// The wide nets, in order.
    pub(crate) stars: Vec<u32>,
    /// For each node of the design how many neighbours its nets give it at most.
    pub(crate) rooms: Vec<usize>,
}

/// The number of pair terms, the wide nets, and the room that each node takes.
pub(crate) fn count_nets(
    alloc: Global,
    design: &Design<'_>,
    clique: &mut Clique,
) -> Result<NetCount, AllocError>
    requires unmarked { IsUnmarked (length design.now.nodes) clique.old.seen.items }
    ensures counted { IfOk result (Counts design.now) }
    ensures unmarked { OnOk result (IsUnmarked (length design.now.nodes) clique.new.seen.items) }
{
    let mut count = NetCount {
        terms: 0,
        stars: Vec::new(alloc),
        rooms: vec![in alloc; 0; design.nodes().len()]?,
    };
    for (n, net) in design.nets().iter().enumerate() {
        clique.gather(net.pins.as_slice())?;
        give_room(&mut count.rooms, net.weight, &clique.pins);
        if is_wide(design, net, &clique.pins) {
            count.stars.push(n as u32)?;
            count.terms += clique.pins.len() as u64;
        } else {
            count.terms += clique_terms(design, net, &clique.pins);
        }
    }
    Ok(count)
}

/// Gives the nodes of these first pins of a net room for the neighbours that it gives them.
///
/// What is joined doesn't depend on it: where it is too little, a list of neighbours grows.
fn give_room(rooms: &mut [usize], weight: u32, first: &[Pin])
    requires { AreAtNodes (length rooms.old) first.now }
{
    let neighbours = if weight == 0 {
        0
    } else if first.len() > MOST_CLIQUE {
        1
    } else {
        first.len().saturating_sub(1)
    };
    for pin in first {
        let room = &mut rooms[pin.node as usize];
        *room = room.saturating_add(neighbours);
    }
}

/// Whether a net with these first pins has a star point.
fn is_wide(design: &Design<'_>, net: &Net, first: &[Pin]) -> bool
    requires valid { IsGoodNet (length design.now.nodes) (net_value net.now) }
    requires first { first.now ≡ first_pins net.now.pins }
    ensures { result ≡ is_wide design.now (net_value net.now) }
{
    let nodes = first.len();
    nodes > MOST_CLIQUE && net.weight > 0 && has_movable(design, first)
}

/// Whether one of the pins is at a movable node.
fn has_movable(design: &Design<'_>, pins: &[Pin]) -> bool
    requires { AreAtNodes (length design.now.nodes) pins.now }
    ensures { result ≡ list_any (λ pin. is_movable (node_at design.now pin.node)) pins.now }
{
    for pin in pins {
        if design.point_of(pin.node).is_some() {
            return true;
        }
    }
    false
}

/// How many pair terms a net with these first pins has that isn't wide: at most the pairs of the
/// largest clique.
fn clique_terms(design: &Design<'_>, net: &Net, first: &[Pin]) -> u64
    requires valid { IsGoodNet (length design.now.nodes) (net_value net.now) }
    requires first { first.now ≡ first_pins net.now.pins }
    requires narrow { is_wide design.now (net_value net.now) ≡ false }
    ensures terms { result ≡ terms_in_pairs design.now (net_value net.now) }
    ensures few { result ≤ pairs MOST_CLIQUE }
{
    if share(net.weight, first.len()) == 0 {
        0
    } else {
        // Two fixed nodes make no term.
        pair_count(first.len()) - pair_count(count_fixed(design, first))
    }
}

/// How many pairs so many nodes have.
fn pair_count(nodes: usize) -> u64
    requires { nodes ≤ MOST_CLIQUE }
    ensures { result ≡ pairs nodes }
{
    let nodes = nodes as u64;
    nodes * nodes.saturating_sub(1) / 2
}

/// How many of the pins are at fixed nodes.
fn count_fixed(design: &Design<'_>, pins: &[Pin]) -> usize
    requires { AreAtNodes (length design.now.nodes) pins.now }
    ensures { result ≡ length (filter (λ pin. not (is_movable (node_at design.now pin.node)))
        pins.now) }
{
    let mut fixed = 0;
    for pin in pins {
        if design.point_of(pin.node).is_none() {
            fixed += 1;
        }
    }
    fixed
}
