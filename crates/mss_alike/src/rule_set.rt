//! The sets of rules between which a command chooses.

/// Over which cycles a plan is searched and a certificate is checked. What either proves holds of every legal cycle.
#[derive(Clone, Copy, Debug, PartialEq, Eq)]
pub enum RuleSet {
    /// All legal cycles.
    Legal,
    /// The canonical cycles alone.
    Canonical,
}
