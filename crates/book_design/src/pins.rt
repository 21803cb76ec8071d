ghost use Rattle.std.specs.Prelude.{◌≡◌};

use crate::parts::Pin;
use std::marker::Model;

/// The pins of a net in order.
#[derive(Drop)]
pub struct PinList {
    items: Vec<Pin>,
}

impl Model for PinList {
    ghost use Rattle.std.specs.Prelude.{List};
    ghost use Rattle.book_design.specs.declared.parts.Pin.{Pin};

    ghost Value = { List Pin };

    ghost view = { λ l. l.items.items };
}

impl PinList {
    /// The list of these pins.
    pub(crate) fn new(items: Vec<Pin>) -> PinList
        ensures { result ≡ items.items }
    {
        PinList { items }
    }

    /// The pins in order.
    pub fn as_slice(&self) -> &[Pin]
        ensures { result.now ≡ self.now }
    {
        &self.items
    }
}
