//! What is told of what a step made, so that the same by hand can be compared.

/// How many there are of what was made, and a sum over all of it: 31 times the sum before each number is added, mod 2^64.
#[derive(Clone, Copy)]
pub struct Told {
    pub count: u64,
    pub sum: u64,
}

impl Told {
    /// So many, and nothing added yet.
    pub fn new(count: usize) -> Told {
        Told {
            count: count as u64,
            sum: 0,
        }
    }

    /// Adds a number.
    pub fn add(&mut self, number: u64) {
        self.sum = self.sum.wrapping_mul(31).wrapping_add(number);
    }

    /// Adds how far a number is from 0.
    pub fn add_size(&mut self, number: i64) {
        self.add(number.unsigned_abs());
    }
}

/// What a step made.
pub trait Made {
    /// What is told of it.
    fn told(&self) -> Told;
}

/// So many points, of which nothing else is told.
#[derive(Clone, Copy)]
pub struct Points(pub usize);

impl Made for Points {
    fn told(&self) -> Told {
        Told::new(self.0)
    }
}

/// The wire length of so many nets.
#[derive(Clone, Copy)]
pub struct Wire {
    pub nets: usize,
    pub length: u128,
}

impl Made for Wire {
    fn told(&self) -> Told {
        let mut told = Told::new(self.nets);
        told.add((self.length % (1 << 64)) as u64);
        told
    }
}

impl Made for Vec<u8> {
    fn told(&self) -> Told {
        let mut told = Told::new(self.len());
        for byte in self {
            told.add(u64::from(*byte));
        }
        told
    }
}
