use super::Faulty;
use book_files::{RowBlock, SubrowLine, TextKind, read_scl};
use book_text::Micro;

/// A subrow's origin in millionths and its sites.
type SubrowRow = (i64, u64);

/// A row's coordinate, height and pitch in millionths, and its subrows.
type RowRow = (i64, i64, i64, &'static [SubrowRow]);

const ROWS: &[(&[u8], &[RowRow])] = &[
    (
        b"UCLA scl 1.0\nNumRows : 1\nCoreRow Horizontal\n Coordinate : 0\n Height : 10\n\
            \x20Sitewidth : 1\n Sitespacing : 1\n SubrowOrigin : 0 NumSites : 10\nEnd\n",
        &[(0, 10_000_000, 1_000_000, &[(0, 10)])],
    ),
    (
        b"UCLA scl 1.0\nNumRows : 3\nCoreRow Horizontal\n  Coordinate    :   0\n\
            \x20 Height        :   12\n  Sitewidth     :   1\n  Sitespacing   :   1\n\
            \x20 Siteorient    :   1\n  Sitesymmetry  :   1\n\
            \x20 SubrowOrigin  :   0\tNumSites  :  20\nEnd\nCoreRow Horizontal\n\
            \x20 Coordinate    :   12\n  Height        :   12\n  Sitewidth     :   1\n\
            \x20 Sitespacing   :   1\n  Siteorient    :   1\n  Sitesymmetry  :   1\n\
            \x20 SubrowOrigin  :   0\tNumSites  :  20\nEnd\nCoreRow Horizontal\n\
            \x20 Coordinate    :   24\n  Height        :   12\n  Sitewidth     :   1\n\
            \x20 Sitespacing   :   1\n  Siteorient    :   1\n  Sitesymmetry  :   1\n\
            \x20 SubrowOrigin  :   0\tNumSites  :  20\nEnd\n",
        &[
            (0, 12_000_000, 1_000_000, &[(0, 20)]),
            (12_000_000, 12_000_000, 1_000_000, &[(0, 20)]),
            (24_000_000, 12_000_000, 1_000_000, &[(0, 20)]),
        ],
    ),
    (
        b"UCLA scl 1.0\nnumrows: 1\ncorerow horizontal\ncoordinate: 10\nheight: 10\n\
            sitewidth: 1\nsubroworigin: 0 numsites: 0\nend\n",
        &[(10_000_000, 10_000_000, 1_000_000, &[(0, 0)])],
    ),
    (
        b"\r\n# by hand\r\n\tucla SCL 1.0 of late\r\nCOREROW\tHORIZONTAL\r\n\
            SiteOrient:\r\n\r\nSUBROWORIGIN :\t-2.5 NUMSITES: 3\r\n\
            Sitesymmetry : Y N S\r\n# 4\r\nsiteSPACING\t: 0.5\r\n\
            SubrowOrigin: 1e1\tnumsites :1099511627776\r\nSITEWIDTH : 2\r\n\
            Height : 0.000001\r\ncoordinate : -1000000\r\nEND\r\nnumROWS : 2\r\n\
            CoreRow Horizontal\r\nHeight : 1\r\nCoordinate : 0.0000009\r\n\
            Sitespacing : 3\r\nEnd",
        &[
            (
                -1_000_000_000_000,
                1,
                500_000,
                &[(-2_500_000, 3), (10_000_000, 1_099_511_627_776)],
            ),
            (0, 1_000_000, 3_000_000, &[]),
        ],
    ),
    (b"UCLA scl 1.0\nNumRows : 0", &[]),
];

fn are_subrows(lines: &[SubrowLine], rows: &[SubrowRow]) -> bool {
    for (line, (x, sites)) in lines.iter().zip(rows) {
        if !(line.x == Micro(*x) && line.sites == *sites) {
            return false;
        }
    }
    lines.len() == rows.len()
}

fn are_rows(blocks: &[RowBlock], rows: &[RowRow]) -> bool {
    for (block, (y, height, pitch, subrows)) in blocks.iter().zip(rows) {
        let sizes = (Micro(*y), Micro(*height), Micro(*pitch));
        let is_sized = (block.y, block.height, block.pitch) == sizes;
        if !(is_sized && are_subrows(block.subrows.as_slice(), subrows)) {
            return false;
        }
    }
    blocks.len() == rows.len()
}

#[test]
fn rows_files_are_read(rt: HostRuntime) {
    for (text, rows) in ROWS {
        let file = read_scl(rt.alloc(), text).expect(&rt, "a rows file");
        assert!(rt; are_rows(file.as_slice(), rows), "{text:?}");
    }
}

pub const FAULTY_ROWS: [Faulty; 54] = [
    (b"", 1, TextKind::BadHeader),
    (b"\n\r\n# nothing\n", 4, TextKind::BadHeader),
    (b"\nUCLA nodes 1.0\n", 2, TextKind::BadHeader),
    (b"UCLA scl 1.00\n", 1, TextKind::BadHeader),
    (b"NumRows : 0\nUCLA scl 1.0\n", 1, TextKind::BadHeader),
    (b"UCLA scl 1.0\nCoordinate : 0\n", 2, TextKind::BadLine),
    (b"UCLA scl 1.0\nEnd\n", 2, TextKind::BadLine),
    (b"UCLA scl 1.0\nCoreRow\n", 2, TextKind::BadLine),
    (b"UCLA scl 1.0\nCoreRow Vertical\n", 2, TextKind::BadLine),
    (
        b"UCLA scl 1.0\nCoreRow Horizontal 1\n",
        2,
        TextKind::BadLine,
    ),
    (b"UCLA scl 1.0\nNumRows 1\n", 2, TextKind::BadLine),
    (b"UCLA scl 1.0\nNumRows :\n", 2, TextKind::BadLine),
    (b"UCLA scl 1.0\nNumRows : 1 2\n", 2, TextKind::BadLine),
    (
        b"UCLA scl 1.0\nNumRows : 1\nNumRows : x\n",
        3,
        TextKind::BadLine,
    ),
    (b"UCLA scl 1.0\nNumRows : 1.0\n", 2, TextKind::BadNumber),
    (
        b"UCLA scl 1.0\nNumRows : 1099511627777\n",
        2,
        TextKind::BadNumber,
    ),
    (b"UCLA scl 1.0\nUCLA scl 1.0\n", 2, TextKind::BadLine),
    (
        b"UCLA scl 1.0\nCoreRow Horizontal\nNumRows : 1\n",
        3,
        TextKind::BadLine,
    ),
    (
        b"UCLA scl 1.0\nCoreRow Horizontal\nCoreRow Horizontal\n",
        3,
        TextKind::BadLine,
    ),
    (
        b"UCLA scl 1.0\nCoreRow Horizontal\nCoordinate 0\n",
        3,
        TextKind::BadLine,
    ),
    (
        b"UCLA scl 1.0\nCoreRow Horizontal\nCoordinate :\n",
        3,
        TextKind::BadLine,
    ),
    (
        b"UCLA scl 1.0\nCoreRow Horizontal\nCoordinate : 0 0\n",
        3,
        TextKind::BadLine,
    ),
    (
        b"UCLA scl 1.0\nCoreRow Horizontal\nCoordinate : x\n",
        3,
        TextKind::BadNumber,
    ),
    (
        b"UCLA scl 1.0\nCoreRow Horizontal\nCoordinate : 1000000.000001\n",
        3,
        TextKind::BadNumber,
    ),
    (
        b"UCLA scl 1.0\nCoreRow Horizontal\nCoordinate : 0\nCoordinate : x\n",
        4,
        TextKind::BadLine,
    ),
    (
        b"UCLA scl 1.0\nCoreRow Horizontal\nHeight : 0\n",
        3,
        TextKind::BadNumber,
    ),
    (
        b"UCLA scl 1.0\nCoreRow Horizontal\nHeight : 0.0000001\n",
        3,
        TextKind::BadNumber,
    ),
    (
        b"UCLA scl 1.0\nCoreRow Horizontal\nHeight : -1\n",
        3,
        TextKind::BadNumber,
    ),
    (
        b"UCLA scl 1.0\nCoreRow Horizontal\nHeight : 1\nHeight : 0\n",
        4,
        TextKind::BadLine,
    ),
    (
        b"UCLA scl 1.0\nCoreRow Horizontal\nHeight : 1 2\n",
        3,
        TextKind::BadLine,
    ),
    (
        b"UCLA scl 1.0\nCoreRow Horizontal\nSitewidth : 0\n",
        3,
        TextKind::BadNumber,
    ),
    (
        b"UCLA scl 1.0\nCoreRow Horizontal\nSitewidth : 1\nSitewidth : 0\n",
        4,
        TextKind::BadLine,
    ),
    (
        b"UCLA scl 1.0\nCoreRow Horizontal\nSitespacing : -1\n",
        3,
        TextKind::BadNumber,
    ),
    (
        b"UCLA scl 1.0\nCoreRow Horizontal\nSitespacing : 1\nsitespacing : x\n",
        4,
        TextKind::BadLine,
    ),
    (
        b"UCLA scl 1.0\nCoreRow Horizontal\nSiteorient N\n",
        3,
        TextKind::BadLine,
    ),
    (
        b"UCLA scl 1.0\nCoreRow Horizontal\nSiteorient :\nSiteorient : 1\n",
        4,
        TextKind::BadLine,
    ),
    (
        b"UCLA scl 1.0\nCoreRow Horizontal\nSitesymmetry : Y\nSitesymmetry :\n",
        4,
        TextKind::BadLine,
    ),
    (
        b"UCLA scl 1.0\nCoreRow Horizontal\nSubrowOrigin : 0\n",
        3,
        TextKind::BadLine,
    ),
    (
        b"UCLA scl 1.0\nCoreRow Horizontal\nSubrowOrigin : x Sites : y\n",
        3,
        TextKind::BadLine,
    ),
    (
        b"UCLA scl 1.0\nCoreRow Horizontal\nSubrowOrigin : x NumSites y :\n",
        3,
        TextKind::BadLine,
    ),
    (
        b"UCLA scl 1.0\nCoreRow Horizontal\nSubrowOrigin : 0 NumSites : 1 2\n",
        3,
        TextKind::BadLine,
    ),
    (
        b"UCLA scl 1.0\nCoreRow Horizontal\nSubrowOrigin : x NumSites : 1\n",
        3,
        TextKind::BadNumber,
    ),
    (
        b"UCLA scl 1.0\nCoreRow Horizontal\nSubrowOrigin : 0 NumSites : -1\n",
        3,
        TextKind::BadNumber,
    ),
    (
        b"UCLA scl 1.0\nCoreRow Horizontal\nSubrowOrigin : 0 NumSites : 1.0\n",
        3,
        TextKind::BadNumber,
    ),
    (
        b"UCLA scl 1.0\nCoreRow Horizontal\nNumSites : 1\n",
        3,
        TextKind::BadLine,
    ),
    (
        b"UCLA scl 1.0\nCoreRow Horizontal\nEnd 1\n",
        3,
        TextKind::BadLine,
    ),
    (
        b"UCLA scl 1.0\nCoreRow Horizontal\nHeight : 1\nSitewidth : 1\nEnd\n",
        5,
        TextKind::BadLine,
    ),
    (
        b"UCLA scl 1.0\nCoreRow Horizontal\nCoordinate : 0\nSitewidth : 1\nEnd\n",
        5,
        TextKind::BadLine,
    ),
    (
        b"UCLA scl 1.0\nCoreRow Horizontal\nCoordinate : 0\nHeight : 1\n\nEnd\n",
        6,
        TextKind::BadLine,
    ),
    (b"UCLA scl 1.0\n", 2, TextKind::BadLine),
    (
        b"UCLA scl 1.0\nNumRows : 1\nCoreRow Horizontal\nCoordinate : 0\nHeight : 1\n\
            Sitewidth : 1\n\n# end\n",
        9,
        TextKind::BadLine,
    ),
    (
        b"UCLA scl 1.0\nCoreRow Horizontal\nCoordinate : 0\nHeight : 1\nSitewidth : 1\nEnd\n",
        7,
        TextKind::BadLine,
    ),
    (
        b"UCLA scl 1.0\nNumRows : 2\nCoreRow Horizontal\nCoordinate : 0\nHeight : 1\n\
            Sitewidth : 1\nEnd\n",
        8,
        TextKind::CountMismatch { told: 2, found: 1 },
    ),
    (
        b"UCLA scl 1.0\nNumRows : 0\nCoreRow Horizontal\nCoordinate : 0\nHeight : 1\n\
            Sitewidth : 1\nEnd\n\n\n",
        10,
        TextKind::CountMismatch { told: 0, found: 1 },
    ),
];
