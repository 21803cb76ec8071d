//! What is told of each thing that a step made.

use crate::levels::Systems;
use crate::made::{Made, Told};
use crate::texts::Texts;
use area_cut::Regions;
use book_design::Design;
use book_files::{Event, Events, NetFile, NodeFile, PlaceFile, RowFile, WeightFile};
use net_model::Network;
use relax_system::System;
use relax_table::FloorSeat;
use relax_world::Played;
use row_legal::Sites;
use row_space::Segments;
use wire_report::Corner;

impl Made for Texts {
    fn told(&self) -> Told {
        let wts = match &self.wts {
            Some(text) => text.len(),
            None => 0,
        };
        let lengths = [
            self.nodes.len(),
            self.nets.len(),
            wts,
            self.pl.len(),
            self.scl.len(),
        ];
        let mut told = Told::new(5);
        for length in lengths {
            told.add(length as u64);
        }
        told
    }
}

impl Made for NodeFile<'_> {
    fn told(&self) -> Told {
        let mut told = Told::new(self.as_slice().len());
        for node in self.as_slice() {
            told.add_size(node.width.0);
            told.add_size(node.height.0);
            told.add(u64::from(node.fixed));
        }
        told
    }
}

impl Made for Events {
    fn told(&self) -> Told {
        let mut told = Told::new(self.as_slice().len());
        for event in self.as_slice() {
            let (kind, seat, point) = match event {
                Event::Load { seat, point } => (0, *seat, *point),
                Event::Renew { seat, point } => (1, *seat, *point),
            };
            told.add(kind);
            told.add(u64::from(seat));
            told.add(u64::from(point));
        }
        told
    }
}

impl Made for Played {
    fn told(&self) -> Told {
        let mut told = Told::new(self.values.as_slice().len());
        for value in self.values.as_slice() {
            told.add(*value);
        }
        told
    }
}

impl Made for NetFile<'_> {
    fn told(&self) -> Told {
        let mut told = Told::new(self.as_slice().len());
        for net in self.as_slice() {
            for pin in net.pins.as_slice() {
                told.add_size(pin.dx.0);
                told.add_size(pin.dy.0);
            }
        }
        told
    }
}

impl Made for WeightFile<'_> {
    fn told(&self) -> Told {
        let mut told = Told::new(self.as_slice().len());
        for line in self.as_slice() {
            told.add_size(line.weight.0);
        }
        told
    }
}

impl Made for PlaceFile<'_> {
    fn told(&self) -> Told {
        let mut told = Told::new(self.as_slice().len());
        for place in self.as_slice() {
            told.add_size(place.x.0);
            told.add_size(place.y.0);
            told.add(u64::from(place.fixed));
        }
        told
    }
}

impl Made for RowFile {
    fn told(&self) -> Told {
        let mut told = Told::new(self.as_slice().len());
        for row in self.as_slice() {
            told.add_size(row.y.0);
            for subrow in row.subrows.as_slice() {
                told.add_size(subrow.x.0);
                told.add(subrow.sites);
            }
        }
        told
    }
}

impl Made for Design<'_> {
    fn told(&self) -> Told {
        let mut told = Told::new(self.points());
        for node in self.nodes() {
            told.add_size(node.x);
            told.add_size(node.y);
        }
        for net in self.nets() {
            told.add(u64::from(net.weight));
            for pin in net.pins.as_slice() {
                told.add(u64::from(pin.node));
            }
        }
        told
    }
}

impl Made for Network {
    fn told(&self) -> Told {
        let mut told = Told::new(self.points());
        for p in 0..self.points() {
            for near in self.near(p as u32) {
                told.add(u64::from(near.point));
                told.add(near.weight);
            }
            for pin in self.pins(p as u32) {
                told.add(pin.weight);
            }
        }
        told
    }
}

impl Made for Regions {
    fn told(&self) -> Told {
        let mut told = Told::new(self.as_slice().len());
        for region in self.as_slice() {
            for end in [region.xlo, region.xhi, region.ylo, region.yhi] {
                told.add(end);
            }
            for point in region.points.as_slice() {
                told.add(u64::from(*point));
            }
        }
        told
    }
}

impl Made for Systems {
    fn told(&self) -> Told {
        let mut told = Told::new(self.x.points());
        add_system(&mut told, &self.x);
        add_system(&mut told, &self.y);
        told
    }
}

fn add_system(told: &mut Told, system: &System) {
    for p in 0..system.points() {
        let point = system.point(p);
        told.add(point.near.as_slice().len() as u64);
        told.add(point.anchor);
        told.add((point.anchored % (1 << 64)) as u64);
    }
}

/// How many raises there were, and the entries.
impl Made for FloorSeat {
    fn told(&self) -> Told {
        let mut told = Told {
            count: self.raises(),
            sum: 0,
        };
        for entry in self.seen() {
            told.add(*entry);
        }
        told
    }
}

impl Made for Segments {
    fn told(&self) -> Told {
        let mut told = Told::new(self.as_slice().len());
        for segment in self.as_slice() {
            told.add_size(segment.x);
            told.add_size(segment.y);
            told.add(u64::from(segment.sites));
        }
        told
    }
}

impl Made for Sites {
    fn told(&self) -> Told {
        let mut told = Told::new(self.as_slice().len());
        for place in self.as_slice() {
            told.add(place.segment as u64);
            told.add(u64::from(place.site));
        }
        told
    }
}

impl Made for Vec<Corner> {
    fn told(&self) -> Told {
        let mut told = Told::new(self.len());
        for corner in self {
            told.add_size(corner.x);
            told.add_size(corner.y);
        }
        told
    }
}
