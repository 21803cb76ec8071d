//! Designs that are joined from their texts.

use book_design::{Design, JoinError, join_design};
use book_files::{read_nets, read_nodes, read_pl, read_scl, read_wts};
use net_model::{NetError, Network, network};
use std::alloc::Global;
use std::process::Abort;

/// The texts of a design's files.
#[derive(Clone, Copy)]
pub(crate) struct Texts<'a> {
    pub(crate) nodes: &'a [u8],
    pub(crate) nets: &'a [u8],
    pub(crate) wts: &'a [u8],
    pub(crate) pl: &'a [u8],
    pub(crate) scl: &'a [u8],
}

/// More bytes than any of these texts has.
const TOO_LONG: usize = 268_435_456;

/// What the files of these texts make together.
fn join<'a>(rt: &impl Abort, alloc: Global, texts: &Texts<'a>) -> Result<Design<'a>, JoinError> {
    assert!(rt; texts.nodes.len() < TOO_LONG);
    assert!(rt; texts.nets.len() < TOO_LONG);
    assert!(rt; texts.scl.len() < TOO_LONG);
    let Ok(nodes) = read_nodes(alloc, texts.nodes) else {
        panic!(rt; "the nodes are not read");
    };
    let Ok(nets) = read_nets(alloc, texts.nets) else {
        panic!(rt; "the nets are not read");
    };
    let Ok(wts) = read_wts(alloc, texts.wts) else {
        panic!(rt; "the weights are not read");
    };
    let Ok(pl) = read_pl(alloc, texts.pl) else {
        panic!(rt; "the places are not read");
    };
    let Ok(scl) = read_scl(alloc, texts.scl) else {
        panic!(rt; "the rows are not read");
    };
    join_design(alloc, &nodes, &nets, Some(&wts), &pl, &scl)
}

/// The network of these texts.
pub(crate) fn made(rt: &impl Abort, alloc: Global, texts: &Texts<'_>) -> Result<Network, NetError> {
    let design = join(rt, alloc, texts).expect(rt, "the texts are joined");
    network(alloc, &design)
}
