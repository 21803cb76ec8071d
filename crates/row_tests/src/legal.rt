//! Cells that are put on segments, worked by hand.

ghost use Rattle.std.specs.Prelude.{◌≡◌, ◌≤◌, pos, IfOk, IsTrue};
ghost use Rattle.row_space.specs.Ends.{IsGoodSegment, AreGoodSegments};
ghost use Rattle.row_legal.specs.Cells.{cells_of};
ghost use Rattle.row_legal.specs.Ranges.{AreGoodCells, IsNear};

use book_text::Memory;
use row_legal::{LegalError, MOST_CELL_SITES, MOST_CELLS, MOST_WISH, Wish, legalise};
use row_space::{Segment, Segments};
use std::alloc::Global;

/// The distance of all sites.
const PITCH: i64 = 1_000_000;

/// No segment of these begins farther from 0 on an axis.
const FAR: i64 = 100_000_000_000;

/// Segments and cells, and what comes of them: a segment and a site for each cell, or the refusal.
#[derive(Clone, Copy)]
struct Case {
    segments: &'static [Segment],
    sites: &'static [u64],
    wishes: &'static [Wish],
    places: &'static [(usize, u32)],
    refusal: Option<LegalError>,
}

/// Ten sites.
const TEN: &[Segment] = &[Segment {
    x: 0,
    y: 0,
    sites: 10,
}];

const AT_8: Wish = Wish { x: 8_000_000, y: 0 };

/// Three cells that wish the same left edge.
const CROWD: Case = Case {
    segments: TEN,
    sites: &[4, 4, 2],
    wishes: &[AT_8, AT_8, AT_8],
    places: &[(0, 0), (0, 4), (0, 8)],
    refusal: None,
};

const CASES: [Case; 13] = [
    CROWD,
    // one site more than there are
    Case {
        sites: &[4, 4, 2, 1],
        wishes: &[AT_8, AT_8, AT_8, AT_8],
        refusal: Some(LegalError::NoRoom {
            cell: 3,
            sites: 1,
            largest: 0,
        }),
        ..CROWD
    },
    // no segment
    Case {
        segments: &[],
        refusal: Some(LegalError::NoRoom {
            cell: 0,
            sites: 4,
            largest: 0,
        }),
        ..CROWD
    },
    // no cell
    Case {
        sites: &[],
        wishes: &[],
        places: &[],
        ..CROWD
    },
    // as far below as above: the segment of the smaller number
    Case {
        segments: &[
            Segment {
                x: 0,
                y: 10_000_000,
                sites: 10,
            },
            Segment {
                x: 0,
                y: -10_000_000,
                sites: 10,
            },
        ],
        sites: &[1],
        wishes: &[Wish { x: 3_000_000, y: 0 }],
        places: &[(0, 3)],
        refusal: None,
    },
    // 8 units aside in the nearest row, 5 units up to the next one
    Case {
        segments: &[
            Segment {
                x: 0,
                y: 0,
                sites: 4,
            },
            Segment {
                x: 10_000_000,
                y: 5_000_000,
                sites: 4,
            },
        ],
        sites: &[2],
        wishes: &[Wish {
            x: 10_000_000,
            y: 0,
        }],
        places: &[(1, 0)],
        refusal: None,
    },
    // 3 units below, in the midst of a long segment whose ends are far
    Case {
        segments: &[
            Segment {
                x: 0,
                y: 0,
                sites: 100,
            },
            Segment {
                x: 50_000_000,
                y: 10_000_000,
                sites: 4,
            },
        ],
        sites: &[2],
        wishes: &[Wish {
            x: 50_000_000,
            y: 3_000_000,
        }],
        places: &[(0, 50)],
        refusal: None,
    },
    // two segments of one row: 4 and 1 units aside, then 2.4 and 1.6; the second cell wishes to stand left of the first
    Case {
        segments: &[
            Segment {
                x: 0,
                y: 0,
                sites: 3,
            },
            Segment {
                x: 6_000_000,
                y: 0,
                sites: 4,
            },
        ],
        sites: &[2, 1],
        wishes: &[Wish { x: 5_000_000, y: 0 }, Wish { x: 4_400_000, y: 0 }],
        places: &[(1, 1), (1, 0)],
        refusal: None,
    },
    // wider than every segment
    Case {
        segments: &[
            Segment {
                x: 0,
                y: 0,
                sites: 3,
            },
            Segment {
                x: 6_000_000,
                y: 0,
                sites: 4,
            },
        ],
        sites: &[1, 5],
        wishes: &[Wish { x: 0, y: 0 }, Wish { x: 0, y: 0 }],
        places: &[],
        refusal: Some(LegalError::NoRoom {
            cell: 1,
            sites: 5,
            largest: 4,
        }),
    },
    // half a site is rounded up, a millionth less down
    Case {
        sites: &[1, 1],
        wishes: &[Wish { x: 2_500_000, y: 0 }, Wish { x: 2_499_999, y: 0 }],
        places: &[(0, 3), (0, 2)],
        ..CROWD
    },
    // of equal sites the one of the lower wish is taken first
    Case {
        sites: &[6, 6],
        wishes: &[Wish { x: 0, y: 5 }, Wish { x: 0, y: 3 }],
        places: &[],
        refusal: Some(LegalError::NoRoom {
            cell: 0,
            sites: 6,
            largest: 4,
        }),
        ..CROWD
    },
    // a full segment is passed over
    Case {
        segments: &[
            Segment {
                x: 0,
                y: 0,
                sites: 2,
            },
            Segment {
                x: 0,
                y: 10_000_000,
                sites: 2,
            },
            Segment {
                x: 0,
                y: 20_000_000,
                sites: 2,
            },
        ],
        sites: &[2, 2, 2],
        wishes: &[
            Wish { x: 0, y: 9_000_000 },
            Wish { x: 0, y: 8_000_000 },
            Wish { x: 0, y: 7_000_000 },
        ],
        places: &[(2, 0), (0, 0), (1, 0)],
        refusal: None,
    },
    // left and right of the segment, and a gap between
    Case {
        sites: &[2, 3, 1],
        wishes: &[
            Wish {
                x: 40_000_000,
                y: 0,
            },
            Wish {
                x: -40_000_000,
                y: 0,
            },
            Wish { x: 5_000_000, y: 0 },
        ],
        places: &[(0, 8), (0, 0), (0, 5)],
        ..CROWD
    },
];

/// Whether a segment of sites at that distance ends in range.
fn is_good_segment(segment: &Segment) -> bool
    ensures { IsTrue result → IsGoodSegment (pos 1000000) segment.now }
{
    if segment.y < -FAR || FAR < segment.y || segment.x < -FAR || FAR < segment.x {
        return false;
    }
    if 100_000 < segment.sites {
        return false;
    }
    true
}

fn are_good_segments(list: &[Segment]) -> bool
    ensures { IsTrue result → AreGoodSegments (pos 1000000) list.now }
{
    for segment in list {
        if !is_good_segment(segment) {
            return false;
        }
    }
    true
}

/// Whether a coordinate may be wished.
fn is_near(z: i64) -> bool
    ensures { IsTrue result → IsNear z }
{
    if z < -MOST_WISH || MOST_WISH < z {
        return false;
    }
    true
}

/// Whether a cell may be put on segments.
fn is_good_cell(sites: u64, wish: &Wish) -> bool
    ensures some { IsTrue result → 1 ≤ sites }
    ensures most { IsTrue result → sites ≤ MOST_CELL_SITES }
    ensures x { IsTrue result → IsNear wish.now.x }
    ensures y { IsTrue result → IsNear wish.now.y }
{
    if sites < 1 || MOST_CELL_SITES < sites {
        return false;
    }
    if !is_near(wish.x) {
        return false;
    }
    is_near(wish.y)
}

fn are_good_cells(sites: &[u64], wishes: &[Wish]) -> bool
    ensures { IsTrue result → AreGoodCells (cells_of sites.now wishes.now) }
{
    if wishes.len() != sites.len() || sites.len() > 20 {
        return false;
    }
    for (c, wish) in wishes.iter().enumerate() {
        if !is_good_cell(sites[c], wish) {
            return false;
        }
    }
    true
}

/// These segments.
fn rows(alloc: Global, list: &[Segment]) -> Result<Segments, Memory>
    ensures { IfOk result (λ rows. rows ≡ record { pitch = pos 1000000; segments = list.now }) }
{
    let mut rows = Segments::new(alloc, PITCH);
    for segment in list {
        rows.push(*segment)?;
    }
    Ok(rows)
}

#[test]
fn cells_have_places(rt: HostRuntime) {
    for (number, case) in CASES.iter().enumerate() {
        assert!(rt; are_good_segments(case.segments));
        assert!(rt; are_good_cells(case.sites, case.wishes));
        let rows = rows(rt.alloc(), case.segments).expect(&rt, "memory");
        match legalise(rt.alloc(), &rows, case.sites, case.wishes) {
            Ok(places) => {
                assert!(rt; case.refusal.is_none(), "in case {number}");
                assert_eq!(rt;
                    places.as_slice().len(),
                    case.places.len(),
                    "in case {number}"
                );
                for (place, (segment, site)) in places.as_slice().iter().zip(case.places) {
                    assert_eq!(rt;
                        (place.segment, place.site),
                        (*segment, *site),
                        "in case {number}"
                    );
                }
            }
            Err(error) => assert_eq!(rt; Some(error), case.refusal, "in case {number}"),
        }
    }
}
