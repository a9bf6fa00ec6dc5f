//! What the children of a prefix share.

use mss_model::MOST_OPTIONS;

/// The most watched wards times days.
pub const MOST_PLACES: usize = 224;

/// What is known of the child of a prefix whose last slot is idle. From it the bounds of its siblings go on: each of them
/// differs from it on one ward, and forces other blocks of one specialty, which are those of its last option.
#[derive(Drop)]
pub struct IdleChild {
    /// Its low numbers at the watched wards and all days, in their order.
    pub lows: [u32; MOST_PLACES],
    /// How many blocks it forces of each specialty, at the place of its number.
    pub blocks: [u32; MOST_OPTIONS],
}
