//! Networks of small designs, which are joined from their texts.

use crate::designs::{Texts, made};
use book_design::Core;
use net_model::{FixedPin, Near, NetError, NetFault};
use pad_reach::{ReachError, reach};
use std::alloc::{AllocError, Global};

/// Two cells, a macro over two rows and pads beside the core.
const B: Texts = Texts {
    nodes: b"UCLA nodes 1.0\nNumNodes : 5\nNumTerminals : 3\n\tu\t3\t12\n\tv\t5\t12\n\
        \tm\t6\t24\tterminal\n\ti\t1\t1\tterminal\n\tq\t1\t1\tterminal\n",
    nets: b"UCLA nets 1.0\n\nNumNets : 3\nNumPins : 7\nNetDegree : 2 n0\n\
        \ti\tO : 0.500000\t0.000000\n\tu\tI : -1.500000\t0.000000\nNetDegree : 3 n1\n\
        \tu\tO : 0.000000\t0.000000\n\tv\tI : 0.000000\t0.000000\n\
        \tm\tI : -3.000000\t0.000000\nNetDegree : 2 n2\n\tv\tO : 0.000000\t0.000000\n\
        \tq\tI : -0.500000\t0.000000\n",
    wts: b"UCLA wts 1.0\nn2 2\n",
    pl: b"UCLA pl 1.0\nu\t0\t0\t: N\nv\t0\t0\t: N\nm\t14\t0\t: N /FIXED\n\
        i\t-1\t18\t: N /FIXED\nq\t20\t30\t: N /FIXED\n",
    scl: b"UCLA scl 1.0\nNumRows : 3\n\
        CoreRow Horizontal\n Coordinate : 0\n Height : 12\n Sitewidth : 1\n\
        SubrowOrigin : 0\tNumSites : 20\nEnd\n\
        CoreRow Horizontal\n Coordinate : 12\n Height : 12\n Sitewidth : 1\n\
        SubrowOrigin : 0\tNumSites : 20\nEnd\n\
        CoreRow Horizontal\n Coordinate : 24\n Height : 12\n Sitewidth : 1\n\
        SubrowOrigin : 0\tNumSites : 20\nEnd\n",
};

/// Three cells and a pad in one row, without nets.
const C: Texts = Texts {
    nodes: b"UCLA nodes 1.0\nNumNodes : 4\nNumTerminals : 1\na 2 10\nb 2 10\nc 2 10\n\
        l 0 0 terminal\n",
    nets: b"UCLA nets 1.0\nNumNets : 0\nNumPins : 0\n",
    wts: b"UCLA wts 1.0\n",
    pl: b"UCLA pl 1.0\nl 4 5 : N /FIXED\n",
    scl: b"UCLA scl 1.0\nNumRows : 1\nCoreRow Horizontal\nCoordinate : 0\nHeight : 10\n\
        Sitewidth : 1\nSubrowOrigin : 0 NumSites : 10\nEnd\n",
};

/// A point of design B, its neighbours, its fixed pins, and its area.
const B_POINTS: &[(u32, &[Near], &[FixedPin], u64)] = &[
    (
        0,
        &[Near {
            point: 1,
            weight: 420,
        }],
        &[
            FixedPin {
                weight: 840,
                x: 0,
                y: 18_500_000,
            },
            FixedPin {
                weight: 420,
                x: 14_000_000,
                y: 12_000_000,
            },
        ],
        3,
    ),
    (
        1,
        &[Near {
            point: 0,
            weight: 420,
        }],
        &[
            FixedPin {
                weight: 420,
                x: 14_000_000,
                y: 12_000_000,
            },
            FixedPin {
                weight: 1680,
                x: 20_000_000,
                y: 30_500_000,
            },
        ],
        5,
    ),
];

const B_CORE: Core = Core {
    xlo: 0,
    xhi: 20_000_000,
    ylo: 0,
    yhi: 36_000_000,
};

#[test]
fn the_network_of_a_design_is_made(rt: HostRuntime) {
    let found = made(&rt, rt.alloc(), &B).expect(&rt, "design B");
    assert_eq!(rt; found.points(), B_POINTS.len());
    for (i, near, pins, area) in B_POINTS {
        assert!(rt; (*i as usize) < found.points());
        assert!(rt; found.near(*i) == *near && found.pins(*i) == *pins);
        assert_eq!(rt; found.area(*i), *area);
    }
    assert!(rt; found.core() == B_CORE);
}

/// Nets and weights over the three cells and the pad; what cell a then has of the others, and of the pad; and the first cell
/// without a chain.
type Joined = (
    &'static [u8],
    &'static [u8],
    &'static [Near],
    &'static [FixedPin],
    u32,
);

const JOINED: &[Joined] = &[
    // a pair counts once, though a node has two pins
    (
        b"UCLA nets 1.0\nNumNets : 1\nNumPins : 3\nNetDegree : 3\na B\nb B\na B\n",
        b"UCLA wts 1.0\n",
        &[Near {
            point: 1,
            weight: 840,
        }],
        &[],
        0,
    ),
    // two nets of one pair
    (
        b"UCLA nets 1.0\nNumNets : 2\nNumPins : 5\nNetDegree : 2\na B\nb B\n\
            NetDegree : 3\nb B\na B\nc B\n",
        b"UCLA wts 1.0\n",
        &[
            Near {
                point: 1,
                weight: 1260,
            },
            Near {
                point: 2,
                weight: 420,
            },
        ],
        &[],
        0,
    ),
    // the first pin of a fixed node decides
    (
        b"UCLA nets 1.0\nNumNets : 1\nNumPins : 3\nNetDegree : 3\nl B : 1 0\na B\nl B : 2 0\n",
        b"UCLA wts 1.0\n",
        &[],
        &[FixedPin {
            weight: 840,
            x: 5_000_000,
            y: 5_000_000,
        }],
        1,
    ),
    // a net of weight 0 joins nothing
    (
        b"UCLA nets 1.0\nNumNets : 1\nNumPins : 3\nNetDegree : 3 n\nl B\na B\nb B\n",
        b"UCLA wts 1.0\nn 0\n",
        &[],
        &[],
        0,
    ),
    // nor does one of a single node
    (
        b"UCLA nets 1.0\nNumNets : 1\nNumPins : 2\nNetDegree : 2 n\na B\na B\n",
        b"UCLA wts 1.0\nn 9\n",
        &[],
        &[],
        0,
    ),
    // a cell leads another one to the pad
    (
        b"UCLA nets 1.0\nNumNets : 2\nNumPins : 4\nNetDegree : 2\nl B\na B\nNetDegree : 2\na B\nb B\n",
        b"UCLA wts 1.0\n",
        &[Near {
            point: 1,
            weight: 840,
        }],
        &[FixedPin {
            weight: 840,
            x: 4_000_000,
            y: 5_000_000,
        }],
        2,
    ),
];

#[test]
fn the_nets_of_two_nodes_are_summed(rt: HostRuntime) {
    for (nets, wts, near, pins, loose) in JOINED {
        let found = made(&rt, rt.alloc(), &Texts { nets, wts, ..C }).expect(&rt, "three cells");
        assert_eq!(rt; found.points(), 3);
        assert!(rt;
            found.near(0) == *near && found.pins(0) == *pins,
            "with {nets:?}"
        );
        let found = reach(rt.alloc(), &found).err();
        assert_eq!(rt; found, Some(ReachError::Unanchored(*loose)));
    }
}

/// So many nets of the pad and cell b, all of one name.
fn repeated_nets(alloc: Global, count: u16) -> Result<String, AllocError> {
    let pins = 2 * u32::from(count);
    let mut text = format!(in alloc; "UCLA nets 1.0\nNumNets : {count}\nNumPins : {pins}\n")?;
    for _ in 0..count {
        text.push_str("NetDegree : 2 n\nl B\nb B\n")?;
    }
    Ok(text)
}

/// How many nets there are, and the fault, if there is one.
const REPEATED: &[(u16, Option<NetError>)] = &[
    (19_973, None),
    (19_974, Some(NetError::Fault(NetFault::Heavy(1)))),
];

#[test]
fn a_heavy_point_is_named(rt: HostRuntime) {
    for (count, fault) in REPEATED {
        let nets = repeated_nets(rt.alloc(), *count).expect(&rt, "memory");
        let texts = Texts {
            nets: nets.as_bytes(),
            wts: b"UCLA wts 1.0\nn 65535\n",
            ..C
        };
        assert_eq!(rt; made(&rt, rt.alloc(), &texts).err(), *fault);
    }
}
