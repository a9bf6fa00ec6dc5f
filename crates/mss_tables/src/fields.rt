//! The numbers in the fields of a record.
ghost use Rattle.std.specs.Prelude.{◌≡◌, ◌<◌, ◌+◌, ◌-◌, IfOk};
ghost use Rattle.mss_grid.specs.Columns.{whole};

use mss_grid::Column;
use mss_model::Kind;

/// The number of a field that may be one from `low` to `high`, counted from `low`.
pub(crate) fn whole(field: &[u8], low: u32, high: u32) -> Result<u32, Kind>
    ensures value { result ≡ (whole low high).find field.now }
    ensures within { IfOk result (λ number. number < high + 1 - low) }
{
    Column::Whole { low, high }.find(field)
}
