//! Slots that are alike.
ghost use Rattle.std.specs.Prelude.{◌≡◌, ◌↔◌, ◌<◌, IsTrue};
ghost use Rattle.mss_model.specs.PartsOf.{parts_of};
ghost use Rattle.mss_model.specs.TableWords.{slot_count};
ghost use Rattle.mss_alike.specs.Alike.{AreAlike, is_alike};

use crate::rooms::suit_number;
use mss_model::Tables;

/// Whether two slots are of one day, with the same minutes, the same fixed option or none, and rooms that suit the same
/// specialties. It takes no memory.
pub fn alike(tables: &Tables, s: u32, t: u32) -> bool
    requires first { s < slot_count (parts_of tables.now) }
    requires second { t < slot_count (parts_of tables.now) }
    ensures value { result ≡ is_alike (parts_of tables.now) s t }
    ensures meaning { IsTrue result ↔ AreAlike (parts_of tables.now) s t }
{
    are_alike(tables, s, t)
}

#[tactic(auto, using(crate::proofs::SuitNumbers::same_suits))]
fn are_alike(tables: &Tables, s: u32, t: u32) -> bool
    requires first { s < slot_count (parts_of tables.now) }
    requires second { t < slot_count (parts_of tables.now) }
    ensures { result ≡ is_alike (parts_of tables.now) s t }
{
    tables.day_of(s) == tables.day_of(t)
        && tables.minutes(s) == tables.minutes(t)
        && tables.fixed(s) == tables.fixed(t)
        && suit_number(tables, tables.room_of(s)) == suit_number(tables, tables.room_of(t))
}
