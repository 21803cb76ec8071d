//! The texts of a design.

ghost use Rattle.std.specs.Prelude.{◌≡◌, ◌<◌, length, IfOk, IfSome, Ok, option_map};
ghost use Rattle.std.specs.List.{count_by};
ghost use Rattle.book_files.specs.declared.records.FileKind.TheVariants.{Wts};
ghost use Rattle.book_files.specs.Entries.{node_entries};
ghost use Rattle.book_design.specs.Values.{node_values};
ghost use Rattle.book_design.specs.Points.{is_movable};
ghost use Rattle.net_model.specs.Network.{point_count};
ghost use Rattle.proud_top.specs.Named.{point_subject};
ghost use Rattle.proud_top.specs.Texts.{AreWeights, AreRecords};
ghost use Rattle.proud_top.specs.Forms.Inputs.{IsSound, IsSameRecords, IsSoundText};
ghost use Rattle.proud_top.specs.Forms.Stops.{IsSubjectAt, IsCellNamed};

use crate::cells::cell_count;
use crate::laws::laws;
use crate::stop::Stop;
use crate::subject::{net_subject, node_subject};
use book_design::{Design, Node, join_design, joined_nodes};
use book_files::{
    NodeLine, ReadError, WeightFile, read_nets, read_nodes, read_pl, read_scl, read_wts,
};
use book_text::Memory;
use net_model::star_net;
use std::alloc::Global;
use std::marker::Model;

/// The texts of a design, none of which is too long or has a fault.
#[derive(Drop)]
pub(crate) struct Inputs {
    pub(crate) nodes: Vec<u8>,
    pub(crate) nets: Vec<u8>,
    pub(crate) wts: Option<Vec<u8>>,
    pub(crate) pl: Vec<u8>,
    pub(crate) scl: Vec<u8>,
}

impl Model for Inputs {
    ghost use Rattle.std.specs.Prelude.{option_map};
    ghost use Rattle.proud_top.specs.Texts.{Texts};
    ghost use Rattle.proud_top.specs.Forms.Inputs.{AreSound};

    ghost Value = { Texts };

    ghost view = { λ i. record { nodes = i.nodes.items; nets = i.nets.items; wts = option_map (λ w. w.items) i.wts; pl = i.pl.items; scl = i.scl.items } };

    ghost invariant = { λ i. AreSound (record { nodes = i.nodes.items; nets = i.nets.items; wts = option_map (λ w. w.items) i.wts; pl = i.pl.items; scl = i.scl.items }) };
}

impl Inputs {
    ghost use Rattle.proud_top.specs.Named.{IsNodeSubject, IsCellSubject, IsPointSubject};
    ghost use Rattle.proud_top.specs.Forms.Inputs.{AreSound};
    ghost use Rattle.book_design.specs.Values.{DesignValue};
    ghost use Rattle.proud_top.specs.Forms.Stops.{Designs, HasNode, HasCell, HasPoint};

    /// Does nothing; its clause is what holds of the texts.
    pub(crate) fn know(&self)
        ensures { AreSound self.now }
    {
        let _ = &self.nodes;
    }

    /// The design that the texts make, or their first fault.
    pub(crate) fn design(&self, alloc: Global) -> Result<Design<'_>, Stop>
        ensures { Designs self.now result }
    {
        let nodes = sound(read_nodes(alloc, &self.nodes))?;
        let nets = sound(read_nets(alloc, &self.nets))?;
        let wts = read_weights(alloc, self.wts.as_deref())?;
        let pl = sound(read_pl(alloc, &self.pl))?;
        let scl = sound(read_scl(alloc, &self.scl))?;
        let design = join_design(alloc, &nodes, &nets, wts.as_ref(), &pl, &scl)?;
        Ok(design)
    }

    /// The same of texts that have no fault together.
    fn sound_design(&self, alloc: Global) -> Result<Design<'_>, Memory>
        requires { (design : DesignValue) × Designs self.now (Ok design) }
        ensures { IfOk result (λ design. Designs self.now (Ok design)) }
    {
        laws();
        match self.design(alloc) {
            Ok(design) => Ok(design),
            Err(Stop::Memory) => Err(Memory),
            Err(Stop::Refused(_)) => unreachable!(),
            Err(Stop::ReadFault(_)) => unreachable!(),
        }
    }

    /// The subject that is the node of that number.
    pub(crate) fn node_subject(&self, alloc: Global, node: u32) -> Result<Vec<u8>, Memory>
        requires { HasNode self.now node }
        ensures { IfOk result (λ subject. IsNodeSubject (AreRecords self.now) subject.items node) }
    {
        laws();
        let nodes = sound(read_nodes(alloc, &self.nodes))?;
        subject_at(alloc, nodes.as_slice(), node)
    }

    /// The subject that is the cell of that number.
    pub(crate) fn cell_subject(&self, alloc: Global, cell: u32) -> Result<Vec<u8>, Memory>
        requires { HasCell self.now cell }
        ensures { IfOk result (λ subject. IsCellSubject (AreRecords self.now) subject.items cell) }
    {
        laws();
        let lines = sound(read_nodes(alloc, &self.nodes))?;
        let pl = sound(read_pl(alloc, &self.pl))?;
        let nodes = joined_nodes(alloc, &lines, &pl)?;
        subject_of_cell(alloc, &nodes, cell)
    }

    /// The subject that is the point of that number.
    pub(crate) fn point_subject(&self, alloc: Global, point: u32) -> Result<Vec<u8>, Memory>
        requires { HasPoint self.now point }
        ensures { IfOk result (λ subject. IsPointSubject (AreRecords self.now) subject.items point) }
    {
        laws();
        let design = self.sound_design(alloc)?;
        subject_of_point(alloc, &design, point)
    }
}

/// The weights, where there is a text of them.
fn read_weights<'a>(alloc: Global, text: Option<&'a [u8]>) -> Result<Option<WeightFile<'a>>, Memory>
    requires { IfSome (option_map (λ t. t.now) text) (λ t. IsSoundText Wts t) }
    ensures { IfOk result (λ weights. AreWeights (option_map (λ t. t.now) text.entry) weights) }
{
    match text {
        Some(text) => Ok(Some(sound(read_wts(alloc, text))?)),
        None => Ok(None),
    }
}

/// What a reader answers of a text without a fault.
pub(crate) fn sound<T>(answer: Result<T, ReadError>) -> Result<T, Memory>
    requires { IsSound answer }
    ensures { IsSameRecords answer result }
{
    match answer {
        Ok(records) => Ok(records),
        Err(ReadError::Memory) => Err(Memory),
        Err(ReadError::Fault(_)) => unreachable!(),
    }
}

/// The node of that number as a subject.
fn subject_at(alloc: Global, nodes: &[NodeLine<'_>], number: u32) -> Result<Vec<u8>, Memory>
    requires { number < length nodes.now }
    ensures { IfOk result (λ subject. IsSubjectAt (node_entries nodes.now) subject.items number) }
{
    node_subject(alloc, nodes[number as usize].name.0)
}

/// The movable node that so many movable ones stand before, as a subject.
fn subject_of_cell(alloc: Global, nodes: &[Node<'_>], cell: u32) -> Result<Vec<u8>, Memory>
    requires { cell < count_by is_movable (node_values nodes.now) }
    ensures { IfOk result (λ subject. IsCellNamed (node_values nodes.now) subject.items cell) }
{
    let mut left = cell;
    for node in nodes {
        if !node.fixed {
            if left == 0 {
                return node_subject(alloc, node.name.0);
            }
            left -= 1;
        }
    }
    unreachable!()
}

/// A point as a subject: a cell by the name of its node, a star point by its net.
fn subject_of_point(alloc: Global, design: &Design<'_>, point: u32) -> Result<Vec<u8>, Memory>
    requires { point < point_count design.now }
    ensures { IfOk result (λ subject. subject.items ≡ point_subject design.now point) }
{
    let cells = cell_count(design);
    if point < cells {
        let node = design.node_of(point);
        node_subject(alloc, design.nodes()[node as usize].name.0)
    } else {
        net_subject(alloc, star_net(alloc, design, point - cells)?)
    }
}
