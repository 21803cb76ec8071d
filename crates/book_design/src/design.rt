ghost use Rattle.std.specs.Prelude.{◌≡◌, ℕ, ◌<◌, ◌^◌, length, None, Some, if◌then◌else◌, pos, ◌≤ℤ◌, IfOk};
ghost use Rattle.std.specs.List.{count_by};
ghost use Rattle.book_design.specs.Values.{node_values};
ghost use Rattle.book_design.specs.Nets.{net_values};
ghost use Rattle.book_design.specs.Points.{is_movable, node_value_at, movable_before, IsNodeOf, site_count};
ghost use Rattle.book_design.specs.WellFormed.{IsDesign};
ghost use Rattle.book_design.specs.Forms.Assembly.{ArePoints, design_value};

use crate::parts::{Core, Net, Node, Subrow};
use crate::rows::RowShape;
use std::alloc::{AllocError, Global};
use std::marker::Model;

/// The points of nodes: the number of the node of each, and the point of each node, none for a fixed one.
#[derive(Drop)]
pub(crate) struct PointLists {
    movable: Vec<u32>,
    numbers: Vec<Option<u32>>,
}

/// A joined design. Nodes, nets, rows and subrows are numbered from 0 in the order of their files.
#[derive(Drop)]
pub struct Design<'a> {
    nodes: Vec<Node<'a>>,
    nets: Vec<Net>,
    subrows: Vec<Subrow>,
    core: Core,
    pitch: i64,
    row_height: i64,
    points: PointLists,
}

impl<'a> Model for Design<'a> {
    ghost use Rattle.book_design.specs.Values.{DesignValue, node_values};
    ghost use Rattle.book_design.specs.Nets.{net_values};
    ghost use Rattle.book_design.specs.WellFormed.{IsDesign};
    ghost use Rattle.book_design.specs.Forms.Assembly.{ArePoints};
    ghost use Rattle.std.specs.Prelude.{length};

    ghost Value = { DesignValue };

    ghost view = { λ d. record {
      nodes = node_values d.nodes.items;
      nets = net_values d.nets.items;
      subrows = d.subrows.items;
      core = d.core;
      pitch = d.pitch;
      row_height = d.row_height;
    } };

    ghost invariant = { λ d. IsDesign (record {
      nodes = node_values d.nodes.items;
      nets = net_values d.nets.items;
      subrows = d.subrows.items;
      core = d.core;
      pitch = d.pitch;
      row_height = d.row_height;
    }) × ArePoints (node_values d.nodes.items) (length (node_values d.nodes.items)) d.points.movable.items d.points.numbers.items };
}

impl<'a> Design<'a> {
    /// The design of these parts.
    pub(crate) fn new(
        nodes: Vec<Node<'a>>,
        nets: Vec<Net>,
        subrows: Vec<Subrow>,
        core: Core,
        shape: RowShape,
        points: PointLists,
    ) -> Self
        requires valid { IsDesign (design_value nodes.items nets.items subrows.items core shape) }
        requires points { ArePoints (node_values nodes.items) (length (node_values nodes.items)) points.movable.items points.numbers.items }
        ensures { result ≡ design_value nodes.entry.items nets.items subrows.items core shape }
    {
        Design {
            nodes,
            nets,
            subrows,
            core,
            pitch: shape.pitch,
            row_height: shape.height,
            points,
        }
    }

    /// The nodes in order.
    pub fn nodes(&self) -> &[Node<'a>]
        ensures nodes { node_values result.now ≡ self.now.nodes }
        ensures valid { IsDesign self.now }
    {
        &self.nodes
    }

    /// The nets in order.
    pub fn nets(&self) -> &[Net]
        ensures nets { net_values result.now ≡ self.now.nets }
        ensures valid { IsDesign self.now }
    {
        &self.nets
    }

    /// The subrows in file order.
    pub fn subrows(&self) -> &[Subrow]
        ensures subrows { result.now ≡ self.now.subrows }
        ensures valid { IsDesign self.now }
    {
        &self.subrows
    }

    /// The smallest rectangle around all subrows that have a site.
    pub fn core(&self) -> Core
        ensures core { result ≡ self.now.core }
        ensures valid { IsDesign self.now }
    {
        self.core
    }

    /// The distance from site to site, in millionths.
    pub fn pitch(&self) -> i64
        ensures pitch { result ≡ self.now.pitch }
        ensures valid { IsDesign self.now }
    {
        self.pitch
    }

    /// The height of each row, in millionths.
    pub fn row_height(&self) -> i64
        ensures height { result ≡ self.now.row_height }
        ensures valid { IsDesign self.now }
    {
        self.row_height
    }

    /// How many points there are: the movable nodes, numbered in the order of the nodes.
    pub fn points(&self) -> usize
        ensures count { result ≡ count_by is_movable self.now.nodes }
        ensures valid { IsDesign self.now }
    {
        self.points.movable.len()
    }

    /// The number of the node that is this point.
    pub fn node_of(&self, point: u32) -> u32
        requires { point < count_by is_movable self.now.nodes }
        ensures node { IsNodeOf self.now.nodes point result }
        ensures valid { IsDesign self.now }
    {
        self.points.movable[point as usize]
    }

    /// How many sites this point's node takes.
    pub fn sites_of(&self, point: u32) -> u64
        requires { point < count_by is_movable self.now.nodes }
        ensures sites { (i : ℕ) → IsNodeOf self.now.nodes point i → result ≡ site_count (node_value_at self.now.nodes i).width self.now.pitch }
        ensures valid { IsDesign self.now }
    {
        let node = self.points.movable[point as usize];
        sites_across(self.nodes[node as usize].width, self.pitch)
    }

    /// The point that is the node of this number, and none for a fixed node.
    pub fn point_of(&self, node: u32) -> Option<u32>
        requires { node < length self.now.nodes }
        ensures point { result ≡ (if (node_value_at self.now.nodes node).fixed then None else Some (movable_before self.now.nodes node)) }
        ensures valid { IsDesign self.now }
    {
        self.points.numbers[node as usize]
    }
}

/// How many sites this width takes at this pitch: at least one.
fn sites_across(width: i64, pitch: i64) -> u64
    requires width { pos 0 ≤ℤ width }
    requires pitch { pos 1 ≤ℤ pitch }
    ensures { result ≡ site_count width pitch }
{
    (width as u64).div_ceil(pitch as u64).max(1)
}

/// The points of these nodes.
pub(crate) fn point_lists(alloc: Global, nodes: &[Node<'_>]) -> Result<PointLists, AllocError>
    requires { length nodes.now < 2 ^ 32 }
    ensures { IfOk result (λ lists. ArePoints (node_values nodes.now) (length (node_values nodes.now)) lists.movable.items lists.numbers.items) }
{
    let mut movable = Vec::new(alloc);
    let mut numbers = Vec::new(alloc);
    for (i, node) in nodes.iter().enumerate() {
        if node.fixed {
            numbers.push(None)?;
        } else {
            numbers.push(Some(movable.len() as u32))?;
            movable.push(i as u32)?;
        }
    }
    Ok(PointLists { movable, numbers })
}
