//! Designs, as the texts of their files.

use proud_top::FileKind;

/// The texts of a design, and of a schedule beside it. That of the weights is read only where the aux file names it, and the
/// schedule only where the words do.
#[derive(Clone, Copy)]
pub struct Texts<'a> {
    pub aux: &'a [u8],
    pub nodes: &'a [u8],
    pub nets: &'a [u8],
    pub wts: &'a [u8],
    pub pl: &'a [u8],
    pub scl: &'a [u8],
    pub schedule: &'a [u8],
}

impl<'a> Texts<'a> {
    /// The text of a file.
    pub fn text(&self, kind: FileKind) -> &'a [u8] {
        match kind {
            FileKind::Aux => self.aux,
            FileKind::Nodes => self.nodes,
            FileKind::Nets => self.nets,
            FileKind::Wts => self.wts,
            FileKind::Pl => self.pl,
            FileKind::Scl => self.scl,
            FileKind::Schedule => self.schedule,
        }
    }

    /// The same design with another text in one of its files.
    pub fn with(self, kind: FileKind, text: &'a [u8]) -> Texts<'a> {
        match kind {
            FileKind::Aux => Texts { aux: text, ..self },
            FileKind::Nodes => Texts {
                nodes: text,
                ..self
            },
            FileKind::Nets => Texts { nets: text, ..self },
            FileKind::Wts => Texts { wts: text, ..self },
            FileKind::Pl => Texts { pl: text, ..self },
            FileKind::Scl => Texts { scl: text, ..self },
            FileKind::Schedule => Texts {
                schedule: text,
                ..self
            },
        }
    }
}

/// One cell between two terminals.
pub const ONE_CELL: Texts = Texts {
    aux: b"RowBasedPlacement : a.nodes a.nets a.pl a.scl\n",
    nodes: b"UCLA nodes 1.0\nNumNodes : 3\nNumTerminals : 2\n\
        a 2 10\nl 0 0 terminal\nr 0 0 terminal\n",
    nets: b"UCLA nets 1.0\nNumNets : 2\nNumPins : 4\n\
        NetDegree : 2 n0\nl B\na B\nNetDegree : 2 n1\na B\nr B\n",
    wts: b"UCLA wts 1.0\n",
    pl: b"UCLA pl 1.0\na 0 0 : N\nl 0 5 : N /FIXED\nr 10 5 : N /FIXED\n",
    scl: b"UCLA scl 1.0\nNumRows : 1\nCoreRow Horizontal\n Coordinate : 0\n Height : 10\n \
        Sitewidth : 1\n Sitespacing : 1\n SubrowOrigin : 0 NumSites : 10\nEnd\n",
    schedule: b"",
};

/// Two cells in a chain between two terminals.
pub const TWO_CELLS: Texts = Texts {
    nodes: b"UCLA nodes 1.0\nNumNodes : 4\nNumTerminals : 2\n\
        a 2 10\nb 2 10\nl 0 0 terminal\nr 0 0 terminal\n",
    nets: b"UCLA nets 1.0\nNumNets : 3\nNumPins : 6\n\
        NetDegree : 2\nl B\na B\nNetDegree : 2\na B\nb B\nNetDegree : 2\nb B\nr B\n",
    pl: b"UCLA pl 1.0\na 0 0 : N\nb 0 0 : N\nl 0 5 : N /FIXED\nr 10 5 : N /FIXED\n",
    ..ONE_CELL
};

/// One cell between three terminals, of which two stand on the left.
pub const THREE_PADS: Texts = Texts {
    nodes: b"UCLA nodes 1.0\nNumNodes : 4\nNumTerminals : 3\n\
        a 2 10\nl 0 0 terminal\nr 0 0 terminal\nm 0 0 terminal\n",
    nets: b"UCLA nets 1.0\nNumNets : 3\nNumPins : 6\n\
        NetDegree : 2\nl B\na B\nNetDegree : 2\na B\nr B\nNetDegree : 2\nm B\na B\n",
    pl: b"UCLA pl 1.0\na 0 0 : N\nl 0 5 : N /FIXED\nr 10 5 : N /FIXED\nm 0 5 : N /FIXED\n",
    ..ONE_CELL
};

/// One cell between two terminals with other spellings, an offset, and a second row without sites.
pub const SPELT_ANEW: Texts = Texts {
    nodes: b"UCLA nodes 1.0\r\n# a comment\r\nnumnodes: 3\r\nNumTerminals : 2\r\na 2 10\r\n\
        l 0 0 terminal\r\nr 0 0 terminal\r\n",
    nets: b"UCLA nets 1.0\r\n# a comment\r\nNumNets : 2\r\nNumPins : 4\r\nNetDegree : 2 n0\r\n\
        l B : -0.500000 0.0\r\na B\r\nNetDegree : 2 n1\r\na B\r\nr B\r\n",
    pl: b"UCLA pl 1.0\r\n# a comment\r\na 0 0 : N\r\nl 0 5 : N /FIXED\r\n\
        r 1e+01 5.000000 : n /fixed\r\n",
    scl: b"UCLA scl 1.0\r\n# a comment\r\nNumRows : 2\r\nCoreRow Horizontal\r\n Coordinate : 0\r\n\
        Height : 10\r\n Sitewidth : 1\r\n Sitespacing : 1\r\n\
        SubrowOrigin : 0 NumSites : 10\r\nEnd\r\ncorerow horizontal\r\ncoordinate: 10\r\n\
        height: 10\r\nsitewidth: 1\r\nsubroworigin: 0 numsites: 0\r\nend\r\n",
    ..ONE_CELL
};

/// One terminal, and no net.
pub const NO_CELL: Texts = Texts {
    nodes: b"UCLA nodes 1.0\nNumNodes : 1\nNumTerminals : 1\np 0 0 terminal\n",
    nets: b"UCLA nets 1.0\nNumNets : 0\nNumPins : 0\n",
    pl: b"UCLA pl 1.0\np 3 4 : N /FIXED\n",
    ..ONE_CELL
};

/// A design as such files usually are: offsets, pads beside the core, a macro over two rows, a net with a weight.
pub const USUAL: Texts = Texts {
    aux: b"RowBasedPlacement : a.nodes a.nets a.wts a.pl a.scl\n",
    nodes: b"UCLA nodes 1.0\n# a comment\n\nNumNodes : 5\nNumTerminals : 3\n\tu\t3\t12\n\tv\t5\t12\n\
        \tm\t6\t24\tterminal\n\ti\t1\t1\tterminal\n\tq\t1\t1\tterminal\n",
    nets: b"UCLA nets 1.0\n\nNumNets : 3\nNumPins : 7\nNetDegree : 2 n0\n\
        \ti\tO : 0.500000\t0.000000\n\tu\tI : -1.500000\t0.000000\nNetDegree : 3 n1\n\
        \tu\tO : 0.000000\t0.000000\n\tv\tI : 0.000000\t0.000000\n\
        \tm\tI : -3.000000\t0.000000\nNetDegree : 2 n2\n\
        \tv\tO : 0.000000\t0.000000\n\tq\tI : -0.500000\t0.000000\n",
    wts: b"UCLA wts 1.0\nn2 2\n",
    pl: b"UCLA pl 1.0\nu\t0\t0\t: N\nv\t0\t0\t: N\nm\t14\t0\t: N /FIXED\n\
        i\t-1\t18\t: N /FIXED\nq\t20\t30\t: N /FIXED\n",
    scl: b"UCLA scl 1.0\nNumRows : 3\nCoreRow Horizontal\n Coordinate : 0\n Height : 12\n \
        Sitewidth : 1\n Sitespacing : 1\n Siteorient : 1\n Sitesymmetry : 1\n \
        SubrowOrigin : 0\tNumSites : 20\nEnd\nCoreRow Horizontal\n Coordinate : 12\n \
        Height : 12\n Sitewidth : 1\n Sitespacing : 1\n SubrowOrigin : 0\tNumSites : 20\nEnd\n\
        CoreRow Horizontal\n Coordinate : 24\n Height : 12\n Sitewidth : 1\n Sitespacing : 1\n \
        SubrowOrigin : 0\tNumSites : 20\nEnd\n",
    schedule: b"",
};

/// Two cells of two widths beside a macro that takes the middle of both rows, and a net with a weight.
pub const TWO_ROWS: Texts = Texts {
    aux: b"RowBasedPlacement : a.nodes a.nets a.wts a.pl a.scl\n",
    nodes: b"UCLA nodes 1.0\nNumNodes : 5\nNumTerminals : 3\n\
        a 2 10\nb 3 10\nm 4 20 terminal\nl 0 0 terminal\nr 0 0 terminal\n",
    nets: b"UCLA nets 1.0\nNumNets : 3\nNumPins : 7\nNetDegree : 2 n0\nl B\na B\n\
        NetDegree : 3 n1\na B\nm B : -2 0\nb B\nNetDegree : 2 n2\nb B\nr B\n",
    wts: b"UCLA wts 1.0\nn2 3\n",
    pl: b"UCLA pl 1.0\nm 8 0 : N /FIXED\nl 0 5 : N /FIXED\nr 20 15 : N /FIXED\n",
    scl: b"UCLA scl 1.0\nNumRows : 2\nCoreRow Horizontal\n Coordinate : 0\n Height : 10\n \
        Sitewidth : 1\n SubrowOrigin : 0 NumSites : 20\nEnd\nCoreRow Horizontal\n Coordinate : 10\n \
        Height : 10\n Sitewidth : 1\n SubrowOrigin : 0 NumSites : 20\nEnd\n",
    schedule: b"",
};

/// One cell between two terminals, where the aux file names the weights.
pub const WEIGHTED: Texts = Texts {
    aux: b"RowBasedPlacement : a.nodes a.nets a.wts a.pl a.scl\n",
    ..ONE_CELL
};

/// The placement of one cell between two terminals, and its report.
pub const MIDDLE: &[u8] = b"UCLA pl 1.0\na 4 0 : N\nl 0 5 : N /FIXED\nr 10 5 : N /FIXED\n";

pub const MIDDLE_REPORT: &[u8] = b"cells 1 terminals 2 nets 2 pins 4\nlevels 4 gap 0\nwire 10\n";
