//! Three numbers.

/// The numbers of a record of three columns.
#[derive(Clone, Copy)]
pub struct Triple {
    pub first: u32,
    pub second: u32,
    pub third: u32,
}
