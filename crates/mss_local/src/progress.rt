//! Who is told how far a search is.

/// Who is told how far a search is.
pub trait Progress {
    /// So many percent of the tries are made, and the best cycle so far peaks at most at this number of patients.
    fn tell(&self, percent: u32, upper: u32);
}

/// Tells nobody.
#[derive(Clone, Copy, Debug)]
pub struct Silent;

impl Progress for Silent {
    fn tell(&self, _percent: u32, _upper: u32) {}
}
