ghost use Rattle.std.specs.Prelude.{◌≡◌};

use crate::parts::Place;
use std::marker::Model;

/// The places of cells, one for each, in the order of the cells.
#[derive(Drop)]
pub struct Sites {
    places: Vec<Place>,
}

impl Model for Sites {
    ghost use Rattle.std.specs.Prelude.{List};
    ghost use Rattle.row_legal.specs.declared.parts.Place.{Place};

    ghost Value = { List Place };

    ghost view = { λ s. s.places.items };
}

impl Sites {
    pub(crate) fn new(places: Vec<Place>) -> Sites
        ensures { result ≡ places.items }
    {
        Sites { places }
    }

    /// The places in the order of the cells.
    pub fn as_slice(&self) -> &[Place]
        ensures { result.now ≡ self.now }
    {
        &self.places
    }
}
