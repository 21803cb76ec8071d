//! A law of wire lengths, as the contract of a function that does nothing.

ghost use Rattle.std.specs.Prelude.{◌≡◌, ◌<◌, List, length, pos, ◌+ℤ◌};
ghost use Rattle.book_design.specs.Values.{DesignValue, NetValue};
ghost use Rattle.wire_report.specs.declared.corner.Corner.{Corner};
ghost use Rattle.wire_report.specs.Wire.{net_length};
ghost use Rattle.wire_report.specs.Rectangles.{Rectangle, IsSmallestAround, rectangle_around, width, height};

/// A net that has pins has a smallest rectangle around them, from their least to their greatest x and y, and the net's length is
/// the width plus the height of every such rectangle. A net of fewer than two pins has length 0.
pub fn smallest_rectangle()
    ensures there { (design : DesignValue) (corners : List Corner) (net : NetValue) → 0 < length net.pins
        → IsSmallestAround design corners net.pins (rectangle_around design corners net.pins) }
    ensures length { (design : DesignValue) (corners : List Corner) (net : NetValue) (rectangle : Rectangle) → 0 < length net.pins
        → IsSmallestAround design corners net.pins rectangle → pos (net_length design corners net) ≡ width rectangle +ℤ height rectangle }
    ensures few { (design : DesignValue) (corners : List Corner) (net : NetValue) → length net.pins < 2 → net_length design corners net ≡ 0 }
{}
