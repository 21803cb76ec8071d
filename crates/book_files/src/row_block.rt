//! A row block of a `.scl` file, line by line.

ghost use Rattle.std.specs.Prelude.{◌≡◌, map, OnOk};
ghost use Rattle.book_files.specs.Forms.Progress.{Gives};
ghost use Rattle.book_files.specs.Entries.{subrow_entry};
ghost use Rattle.book_files.specs.Blocks.{row_entry};
ghost use Rattle.book_files.specs.Forms.Rows.{nothing_stated, stated_with, inner_of, row_of};
ghost use Rattle.book_files.specs.Forms.RowProgress.{block_stated, part_view, IsPartInRange, IsOneMore};

use crate::fault::{LineError, TextKind};
use crate::records::{RowBlock, SubrowLine};
use crate::row_lines::{PartKey, key_of, once_number, once_positive, subrow_of};
use crate::rows::Subrows;
use book_text::Micro;
use std::alloc::{AllocError, Global};

/// What a block has so far.
#[derive(Drop)]
pub struct BlockSoFar {
    coordinate: Option<Micro>,
    height: Option<Micro>,
    width: Option<Micro>,
    spacing: Option<Micro>,
    oriented: bool,
    symmetric: bool,
    subrows: Subrows,
}

/// A line within a block, up to its end.
#[derive(Clone, Copy, Debug)]
enum Part {
    Coordinate(Micro),
    Height(Micro),
    SiteWidth(Micro),
    SiteSpacing(Micro),
    SiteOrient,
    SiteSymmetry,
    Subrow(SubrowLine),
}

impl BlockSoFar {
    /// A block without lines.
    pub fn new(alloc: Global) -> BlockSoFar
        ensures { block_stated result ≡ nothing_stated }
    {
        BlockSoFar {
            coordinate: None,
            height: None,
            width: None,
            spacing: None,
            oriented: false,
            symmetric: false,
            subrows: Subrows::new(alloc),
        }
    }

    /// The block with one line more, which isn't its end.
    pub fn with(self, words: &[&[u8]]) -> Result<BlockSoFar, LineError>
        ensures { IsOneMore (block_stated self) (map (λ w. w.now) words.now) result }
    {
        let mut block = self;
        let part = block.part_of(words)?;
        block.add(part)?;
        Ok(block)
    }

    /// What the line is within the block.
    fn part_of(&self, words: &[&[u8]]) -> Result<Part, TextKind>
        ensures { Gives part_view result
            (inner_of (block_stated self.now) (map (λ w. w.now) words.now)) }
    {
        match key_of(words) {
            Some(PartKey::Coordinate) => {
                let y = once_number(self.coordinate.is_some(), words)?;
                Ok(Part::Coordinate(y))
            }
            Some(PartKey::Height) => {
                let height = once_positive(self.height.is_some(), words)?;
                Ok(Part::Height(height))
            }
            Some(PartKey::SiteWidth) => {
                let width = once_positive(self.width.is_some(), words)?;
                Ok(Part::SiteWidth(width))
            }
            Some(PartKey::SiteSpacing) => {
                let spacing = once_positive(self.spacing.is_some(), words)?;
                Ok(Part::SiteSpacing(spacing))
            }
            Some(PartKey::SiteOrient) if !self.oriented => Ok(Part::SiteOrient),
            Some(PartKey::SiteSymmetry) if !self.symmetric => Ok(Part::SiteSymmetry),
            Some(PartKey::Subrow) => Ok(Part::Subrow(subrow_of(words)?)),
            _ => Err(TextKind::BadLine),
        }
    }

    /// Takes a line.
    fn add(&mut self, part: Part) -> Result<(), AllocError>
        requires { IsPartInRange (part_view part) }
        ensures { OnOk result
            (block_stated self.new ≡ stated_with (block_stated self.old) (part_view part)) }
    {
        match part {
            Part::Coordinate(y) => self.coordinate = Some(y),
            Part::Height(height) => self.height = Some(height),
            Part::SiteWidth(width) => self.width = Some(width),
            Part::SiteSpacing(spacing) => self.spacing = Some(spacing),
            Part::SiteOrient => self.oriented = true,
            Part::SiteSymmetry => self.symmetric = true,
            Part::Subrow(line) => self.subrows.push(line)?,
        }
        Ok(())
    }

    /// The row of the block at its end, where it has what a row needs.
    pub fn row(self) -> Result<RowBlock, TextKind>
        ensures { Gives row_entry result (row_of (block_stated self)) }
    {
        match (self.coordinate, self.height, self.spacing.or(self.width)) {
            (Some(y), Some(height), Some(pitch)) => Ok(RowBlock {
                y,
                height,
                pitch,
                subrows: self.subrows,
            }),
            _ => Err(TextKind::BadLine),
        }
    }
}
