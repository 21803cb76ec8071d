//! Designs whose levels were worked by hand, and one whose levels a script found that shares no code.

use crate::cuts::{Row, are};
use crate::designs::{Texts, made};
use area_cut::whole;
use book_files::Event;
use book_outer::OpenGate;
use level_run::{
    Axis, Levels, MOST_LEVELS, MOST_PASSES, MOST_ROUNDS, Options, Solve, gap, levels_by, project,
};
use pad_reach::reach;
use relax_crew::MOST_SEATS;
use relax_system::Near;
use std::process::Abort;
use std::test::Fail;

/// A row of 10 by 10 units.
const ROW: &[u8] = b"UCLA scl 1.0\nNumRows : 1\nCoreRow Horizontal\n Coordinate : 0\n Height : 10\n\
    Sitewidth : 1\n Sitespacing : 1\n SubrowOrigin : 0 NumSites : 10\nEnd\n";

const NO_WEIGHTS: &[u8] = b"UCLA wts 1.0\n";

/// A cell between two pads.
const ONE: Texts = Texts {
    nodes: b"UCLA nodes 1.0\nNumNodes : 3\nNumTerminals : 2\na 2 10\nl 0 0 terminal\n\
        r 0 0 terminal\n",
    nets: b"UCLA nets 1.0\nNumNets : 2\nNumPins : 4\nNetDegree : 2 n0\nl B\na B\n\
        NetDegree : 2 n1\na B\nr B\n",
    wts: NO_WEIGHTS,
    pl: b"UCLA pl 1.0\na 0 0 : N\nl 0 5 : N /FIXED\nr 10 5 : N /FIXED\n",
    scl: ROW,
};

/// The cell with a second pad on its left.
const UNEVEN: Texts = Texts {
    nodes: b"UCLA nodes 1.0\nNumNodes : 4\nNumTerminals : 3\na 2 10\nl 0 0 terminal\n\
        r 0 0 terminal\nm 0 0 terminal\n",
    nets: b"UCLA nets 1.0\nNumNets : 3\nNumPins : 6\nNetDegree : 2 n0\nl B\na B\n\
        NetDegree : 2 n1\na B\nr B\nNetDegree : 2 n2\nm B\na B\n",
    wts: NO_WEIGHTS,
    pl: b"UCLA pl 1.0\na 0 0 : N\nl 0 5 : N /FIXED\nr 10 5 : N /FIXED\nm 0 5 : N /FIXED\n",
    scl: ROW,
};

/// Two cells in a chain between two pads.
const CHAIN: Texts = Texts {
    nodes: b"UCLA nodes 1.0\nNumNodes : 4\nNumTerminals : 2\na 2 10\nb 2 10\nl 0 0 terminal\n\
        r 0 0 terminal\n",
    nets: b"UCLA nets 1.0\nNumNets : 3\nNumPins : 6\nNetDegree : 2 n0\nl B\na B\n\
        NetDegree : 2 n1\na B\nb B\nNetDegree : 2 n2\nb B\nr B\n",
    wts: NO_WEIGHTS,
    pl: b"UCLA pl 1.0\na 0 0 : N\nb 0 0 : N\nl 0 5 : N /FIXED\nr 10 5 : N /FIXED\n",
    scl: ROW,
};

/// Two cells in a row of 20 by 10 units, a pad to the left of it, and a block that reaches past its right end. A net of weight
/// 3 joins the cells, one the pad, and one both cells and the block, with the block's pin at 19 and 9.5 units.
const BLOCK: Texts = Texts {
    nodes: b"UCLA nodes 1.0\nNumNodes : 4\nNumTerminals : 2\na 2 10\nb 2 10\nl 0 0 terminal\n\
        r 2 4 terminal\n",
    nets: b"UCLA nets 1.0\nNumNets : 3\nNumPins : 7\nNetDegree : 2 n0\nl B\na B\n\
        NetDegree : 2 n1\na B\nb B\nNetDegree : 3 n2\na B\nb B\nr B : -12.0 0.5\n",
    wts: b"UCLA wts 1.0\nn1 3\n",
    pl: b"UCLA pl 1.0\na 0 0 : N\nb 0 0 : N\nl -3 5 : N /FIXED\nr 30 7 : N /FIXED\n",
    scl: b"UCLA scl 1.0\nNumRows : 1\nCoreRow Horizontal\n Coordinate : 0\n Height : 10\n\
        Sitewidth : 1\n Sitespacing : 1\n SubrowOrigin : 0 NumSites : 20\nEnd\n",
};

/// Six cells in two rows of 12 by 10 units, with a net to each cell beside, one of three cells, and four pads around.
const MESH: Texts = Texts {
    nodes: b"UCLA nodes 1.0\nNumNodes : 10\nNumTerminals : 4\na 1 10\nb 2 10\nc 3 10\nd 1 10\n\
        e 2 10\nf 3 10\nl 0 0 terminal\nr 0 0 terminal\nt 0 0 terminal\ns 0 0 terminal\n",
    nets: b"UCLA nets 1.0\nNumNets : 12\nNumPins : 25\nNetDegree : 2\na B\nb B\n\
        NetDegree : 2\nb B\nc B\nNetDegree : 2\nd B\ne B\nNetDegree : 2\ne B\nf B\n\
        NetDegree : 2\na B\nd B\nNetDegree : 2\nb B\ne B\nNetDegree : 2\nc B\nf B\n\
        NetDegree : 2\nl B\na B\nNetDegree : 2\nf B\nr B\nNetDegree : 2\nd B\nt B\n\
        NetDegree : 2\ns B\nc B\nNetDegree : 3\na B\nc B\ne B\n",
    wts: NO_WEIGHTS,
    pl: b"UCLA pl 1.0\nl 0 5 : N /FIXED\nr 12 15 : N /FIXED\nt 6 20 : N /FIXED\n\
        s 9 0 : N /FIXED\n",
    scl: b"UCLA scl 1.0\nNumRows : 2\nCoreRow Horizontal\n Coordinate : 0\n Height : 10\n\
        Sitewidth : 1\n Sitespacing : 1\n SubrowOrigin : 0 NumSites : 12\nEnd\n\
        CoreRow Horizontal\n Coordinate : 10\n Height : 10\n\
        Sitewidth : 1\n Sitespacing : 1\n SubrowOrigin : 0 NumSites : 12\nEnd\n",
};

/// The least and the greatest vector of a solve, and the mids.
type Vectors = (&'static [u64], &'static [u64], &'static [u64]);

/// A design, how often it is cut and each level is solved, and its last round: the regions, and what is solved there on x and on y;
/// and the gap of all rounds.
type Case = (
    Texts<'static>,
    (u32, u32),
    &'static [Row],
    Vectors,
    Vectors,
    u64,
);

const CASES: &[Case] = &[
    (
        ONE,
        (4, 1),
        &[(
            1_000_000_000_000,
            1_000_010_000_000,
            1_000_000_000_000,
            1_000_010_000_000,
            &[0],
        )],
        (
            &[1_000_005_000_000],
            &[1_000_005_000_000],
            &[1_000_005_000_000],
        ),
        (
            &[1_000_005_000_000],
            &[1_000_005_000_000],
            &[1_000_005_000_000],
        ),
        0,
    ),
    (
        UNEVEN,
        (4, 1),
        &[(
            1_000_000_000_000,
            1_000_010_000_000,
            1_000_000_000_000,
            1_000_010_000_000,
            &[0],
        )],
        (
            &[1_000_003_333_333],
            &[1_000_003_333_334],
            &[1_000_003_333_333],
        ),
        (
            &[1_000_005_000_000],
            &[1_000_005_000_000],
            &[1_000_005_000_000],
        ),
        1,
    ),
    (
        CHAIN,
        (0, 1),
        &[(
            1_000_000_000_000,
            1_000_010_000_000,
            1_000_000_000_000,
            1_000_010_000_000,
            &[0, 1],
        )],
        (
            &[1_000_003_333_333, 1_000_006_666_666],
            &[1_000_003_333_334, 1_000_006_666_667],
            &[1_000_003_333_333, 1_000_006_666_666],
        ),
        (
            &[1_000_004_999_999, 1_000_004_999_999],
            &[1_000_005_000_001, 1_000_005_000_001],
            &[1_000_005_000_000, 1_000_005_000_000],
        ),
        2,
    ),
    // each cell has a half of the core, and stands between its pad and the line
    (
        CHAIN,
        (1, 1),
        &[
            (
                1_000_000_000_000,
                1_000_005_000_000,
                1_000_000_000_000,
                1_000_010_000_000,
                &[0],
            ),
            (
                1_000_005_000_000,
                1_000_010_000_000,
                1_000_000_000_000,
                1_000_010_000_000,
                &[1],
            ),
        ],
        (
            &[1_000_002_500_000, 1_000_007_500_000],
            &[1_000_002_500_000, 1_000_007_500_000],
            &[1_000_002_500_000, 1_000_007_500_000],
        ),
        (
            &[1_000_005_000_000, 1_000_005_000_000],
            &[1_000_005_000_000, 1_000_005_000_000],
            &[1_000_005_000_000, 1_000_005_000_000],
        ),
        2,
    ),
    // found by a script that shares no code
    (
        MESH,
        (3, 1),
        &[
            (
                1_000_000_000_000,
                1_000_006_000_000,
                1_000_000_000_000,
                1_000_003_333_333,
                &[0],
            ),
            (
                1_000_000_000_000,
                1_000_006_000_000,
                1_000_003_333_333,
                1_000_010_000_000,
                &[1],
            ),
            (
                1_000_006_000_000,
                1_000_012_000_000,
                1_000_000_000_000,
                1_000_010_000_000,
                &[2],
            ),
            (
                1_000_000_000_000,
                1_000_006_000_000,
                1_000_010_000_000,
                1_000_016_666_666,
                &[4],
            ),
            (
                1_000_000_000_000,
                1_000_006_000_000,
                1_000_016_666_666,
                1_000_020_000_000,
                &[3],
            ),
            (
                1_000_006_000_000,
                1_000_012_000_000,
                1_000_010_000_000,
                1_000_020_000_000,
                &[5],
            ),
        ],
        (
            &[
                1_000_004_211_328,
                1_000_005_357_357,
                1_000_007_374_534,
                1_000_005_357_357,
                1_000_005_535_427,
                1_000_008_480_465,
            ],
            &[
                1_000_004_211_329,
                1_000_005_357_357,
                1_000_007_374_535,
                1_000_005_357_357,
                1_000_005_535_428,
                1_000_008_480_465,
            ],
            &[
                1_000_004_211_328,
                1_000_005_357_357,
                1_000_007_374_534,
                1_000_005_357_357,
                1_000_005_535_427,
                1_000_008_480_465,
            ],
        ),
        (
            &[
                1_000_003_333_333,
                1_000_006_710_239,
                1_000_006_225_489,
                1_000_017_777_777,
                1_000_012_208_333,
                1_000_012_166_666,
            ],
            &[
                1_000_003_333_333,
                1_000_006_710_240,
                1_000_006_225_490,
                1_000_017_777_778,
                1_000_012_208_333,
                1_000_012_166_667,
            ],
            &[
                1_000_003_333_333,
                1_000_006_710_239,
                1_000_006_225_489,
                1_000_017_777_777,
                1_000_012_208_333,
                1_000_012_166_666,
            ],
        ),
        8,
    ),
    (
        MESH,
        (2, 3),
        &[
            (
                1_000_000_000_000,
                1_000_006_000_000,
                1_000_000_000_000,
                1_000_010_000_000,
                &[0, 1],
            ),
            (
                1_000_006_000_000,
                1_000_012_000_000,
                1_000_000_000_000,
                1_000_010_000_000,
                &[2],
            ),
            (
                1_000_000_000_000,
                1_000_006_000_000,
                1_000_010_000_000,
                1_000_020_000_000,
                &[3, 4],
            ),
            (
                1_000_006_000_000,
                1_000_012_000_000,
                1_000_010_000_000,
                1_000_020_000_000,
                &[5],
            ),
        ],
        (
            &[
                1_000_004_043_214,
                1_000_005_170_874,
                1_000_007_370_116,
                1_000_005_190_941,
                1_000_005_396_174,
                1_000_008_458_178,
            ],
            &[
                1_000_004_043_215,
                1_000_005_170_875,
                1_000_007_370_117,
                1_000_005_190_942,
                1_000_005_396_175,
                1_000_008_458_178,
            ],
            &[
                1_000_004_043_214,
                1_000_005_170_874,
                1_000_007_370_116,
                1_000_005_190_941,
                1_000_005_396_174,
                1_000_008_458_178,
            ],
        ),
        (
            &[
                1_000_007_908_496,
                1_000_008_235_293,
                1_000_006_797_385,
                1_000_013_833_333,
                1_000_011_499_999,
                1_000_012_166_666,
            ],
            &[
                1_000_007_908_497,
                1_000_008_235_294,
                1_000_006_797_386,
                1_000_013_833_334,
                1_000_011_500_000,
                1_000_012_166_667,
            ],
            &[
                1_000_007_908_496,
                1_000_008_235_293,
                1_000_006_797_385,
                1_000_013_833_333,
                1_000_011_499_999,
                1_000_012_166_666,
            ],
        ),
        8,
    ),
];

/// The seats that each design is solved with.
const SEATS: &[usize] = &[1, 2, 7];

/// Whether these are the solve's vectors and mids.
fn is_solved(solve: &Solve, vectors: Vectors) -> bool {
    solve.lo.as_slice() == vectors.0
        && solve.hi.as_slice() == vectors.1
        && solve.mid.as_slice() == vectors.2
}

/// Whether the rounds are as many, and the last of them and their gap are the case's.
fn are_levels(rt: &impl Abort, levels: &Levels, case: &Case) {
    let (_, (count, passes), rows, x, y, widest) = case;
    let all = levels.as_slice();
    assert!(rt; *count <= MOST_LEVELS && *passes <= MOST_PASSES);
    assert!(rt; all.len() == ((*count + 1) * *passes) as usize);
    let last = all.last().expect(rt, "a round");
    are(rt, &last.regions, rows);
    assert!(rt; is_solved(&last.x, *x) && is_solved(&last.y, *y));
    assert_eq!(rt; gap(levels), *widest);
}

/// Schedules: without events; of one seat; of outdated means; and of seats and points that aren't there.
const SCHEDULES: &[&[Event]] = &[
    &[],
    &[
        Event::Renew { seat: 0, point: 0 },
        Event::Load { seat: 0, point: 1 },
        Event::Renew { seat: 0, point: 1 },
    ],
    &[
        Event::Renew { seat: 1, point: 1 },
        Event::Renew { seat: 6, point: 0 },
        Event::Load { seat: 1, point: 0 },
        Event::Renew { seat: 1, point: 1 },
    ],
    &[
        Event::Load { seat: 7, point: 0 },
        Event::Renew {
            seat: 0,
            point: 4_294_967_295,
        },
    ],
];

#[test]
fn designs_have_rounds(rt: HostRuntime) -> Result<(), Fail> {
    for case in CASES {
        let network = made(&rt, rt.alloc(), &case.0).expect(&rt, "a network");
        let reach = reach(rt.alloc(), &network)?;
        for seats in SEATS {
            let (levels, passes) = case.1;
            assert!(rt; levels <= MOST_LEVELS && 1 <= passes && passes <= MOST_PASSES);
            assert!(rt;
                (levels + 1) * passes <= MOST_ROUNDS && 1 <= *seats && *seats <= MOST_SEATS
            );
            let options = Options {
                levels,
                passes,
                seats: *seats,
            };
            let rounds = level_run::levels(&rt, rt.alloc(), &network, &reach, options, &OpenGate)?;
            are_levels(&rt, &rounds, case);
            for events in SCHEDULES {
                let rounds = levels_by(rt.alloc(), &network, &reach, options, events)?;
                are_levels(&rt, &rounds, case);
            }
        }
    }
    Ok(())
}

/// The upper end of the boxes, and of each point the anchor, the anchored sum, and the neighbours.
type Constants = (Axis, u64, &'static [(u64, u128, &'static [Near])]);

const A_TO_B: &[Near] = &[Near {
    point: 1,
    weight: 2_940,
}];

const B_TO_A: &[Near] = &[Near {
    point: 0,
    weight: 2_940,
}];

const CONSTANTS: &[Constants] = &[
    // the pad is moved to the lower end
    (
        Axis::X,
        1_000_020_000_000,
        &[
            (1_260, 1_260_007_980_000_000, A_TO_B),
            (420, 420_007_980_000_000, B_TO_A),
        ],
    ),
    (
        Axis::Y,
        1_000_010_000_000,
        &[
            (1_260, 1_260_008_190_000_000, A_TO_B),
            (420, 420_003_990_000_000, B_TO_A),
        ],
    ),
];

#[test]
fn the_core_has_a_system_on_each_axis(rt: HostRuntime) -> Result<(), Fail> {
    let network = made(&rt, rt.alloc(), &BLOCK).expect(&rt, "a network");
    reach(rt.alloc(), &network)?;
    let core = (1_000_000_000_000, 1_000_020_000_000, 1_000_010_000_000);
    let regions = whole(rt.alloc(), network.points(), core.0, core.1, core.0, core.2)?;
    let mids = vec![in rt.alloc(); 0; network.points()]?;
    for (axis, high, points) in CONSTANTS {
        let system = project(rt.alloc(), &network, *axis, &regions, &mids)?;
        assert_eq!(rt; system.points(), points.len());
        for (i, (anchor, anchored, near)) in points.iter().enumerate() {
            assert!(rt; i < system.points());
            let point = system.point(i);
            assert_eq!(rt; (point.lo, point.hi), (core.0, *high));
            assert_eq!(rt; (point.anchor, point.anchored), (*anchor, *anchored));
            assert!(rt; point.near.as_slice() == *near);
        }
    }
    Ok(())
}
