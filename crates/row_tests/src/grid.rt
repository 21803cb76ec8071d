//! The texts of generated designs, and the words that ask for them.

use grid_design::{Grid, grid_texts, read_grid};
use std::test::Fail;

/// The texts of one cell with the number 1, by hand.
const NODES: &[u8] = b"UCLA nodes 1.0
NumNodes : 5
NumTerminals : 4
c0 2 10
l0 0 0 terminal
r0 0 0 terminal
b0 0 0 terminal
t0 0 0 terminal
";

const NETS: &[u8] = b"UCLA nets 1.0
NumNets : 4
NumPins : 8
NetDegree : 2 n0
l0 B
c0 B
NetDegree : 2 n1
r0 B
c0 B
NetDegree : 2 n2
b0 B
c0 B
NetDegree : 2 n3
t0 B
c0 B
";

const WTS: &[u8] = b"UCLA wts 1.0
n0 3
n1 2
n2 1
n3 3
";

const PL: &[u8] = b"UCLA pl 1.0
c0 0 0 : N
l0 0 5 : N /FIXED
r0 4 5 : N /FIXED
b0 2 0 : N /FIXED
t0 2 10 : N /FIXED
";

const SCL: &[u8] = b"UCLA scl 1.0
NumRows : 1
CoreRow Horizontal
Coordinate : 0
Height : 10
Sitewidth : 1
Sitespacing : 1
SubrowOrigin : 0 NumSites : 4
End
";

#[test]
fn one_cell_has_these_texts(rt: HostRuntime) -> Result<(), Fail> {
    let texts = grid_texts(rt.alloc(), 1, 1, 1)?;
    assert_eq!(rt; texts.nodes.as_slice(), NODES);
    assert_eq!(rt; texts.nets.as_slice(), NETS);
    assert_eq!(rt; texts.wts.as_slice(), WTS);
    assert_eq!(rt; texts.pl.as_slice(), PL);
    assert_eq!(rt; texts.scl.as_slice(), SCL);
    Ok(())
}

const GOOD: [(&str, Grid); 4] = [
    (
        "1,1,0",
        Grid {
            rows: 1,
            columns: 1,
            number: 0,
        },
    ),
    (
        "2,3,7",
        Grid {
            rows: 2,
            columns: 3,
            number: 7,
        },
    ),
    (
        "64,10,1",
        Grid {
            rows: 64,
            columns: 10,
            number: 1,
        },
    ),
    (
        "64,64,18446744073709551615",
        Grid {
            rows: 64,
            columns: 64,
            number: u64::MAX,
        },
    ),
];

const BAD: [&str; 20] = [
    "",
    ",",
    ",,",
    "2",
    "2,2",
    "2,2,",
    ",2,2",
    "0,1,1",
    "1,0,1",
    "65,1,1",
    "1,65,1",
    "01,1,1",
    "1,01,1",
    "1,1,01",
    "1,1,1,",
    " 1,1,1",
    "1,1,18446744073709551616",
    "+1,1,1",
    "1,1,-1",
    "4294967297,1,1",
];

#[test]
fn words_of_the_form_ask_for_a_grid(rt: HostRuntime) {
    for (word, grid) in GOOD {
        assert_eq!(rt; read_grid(word), Some(grid));
    }
    for word in BAD {
        assert!(rt; read_grid(word).is_none());
    }
}
