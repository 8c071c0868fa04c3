// Windows over planes: the six sums under a kernel at each centre. They are made a side at a time:
// `columns` sums down the columns of one centre row into lent scratch, `row` sums along them at each centre.
#![tactic(auto)]

pub mod columns;
pub mod row;

// Five sums under a window: of a, b, a², ab and b².
#[derive(Clone, Copy, Debug, PartialEq, Eq)]
pub struct FiveSums {
    pub mux: u64,
    pub muy: u64,
    pub x2: u64,
    pub xy: u64,
    pub y2: u64,
}

// The six moments at a centre: the five sums, and the weight of the taps inside.
#[derive(Clone, Copy, Debug, PartialEq, Eq)]
pub struct Moments {
    pub mux: u64,
    pub muy: u64,
    pub x2: u64,
    pub xy: u64,
    pub y2: u64,
    pub w: u64,
}
