//! The specialties that rooms suit, as numbers.
ghost use Rattle.std.specs.Prelude.{◌≡◌};
ghost use Rattle.mss_model.specs.Limits.{Between};
ghost use Rattle.mss_model.specs.PartsOf.{parts_of};
ghost use Rattle.mss_model.specs.TableWords.{room_count};
ghost use Rattle.mss_alike.specs.SuitNumbers.{AreSuitNumbers, suit_number};

use mss_model::Tables;

/// A number for each room, from 0 on, which two rooms share where they suit the same specialties.
#[tactic(auto, using(crate::proofs::Loops::loop_rules))]
pub(crate) fn suit_numbers(tables: &Tables) -> [u32; 16]
    ensures { AreSuitNumbers (parts_of tables.now) result }
{
    let mut numbers = [0u32; 16];
    for room in 0..tables.rooms() {
        numbers[usize::from(room)] = suit_number(tables, room + 1);
    }
    numbers
}

/// The number of the specialties that a room suits.
#[tactic(auto, using(crate::proofs::Loops::loop_rules))]
pub(crate) fn suit_number(tables: &Tables, room: u8) -> u32
    requires { Between 1 (room_count (parts_of tables.now)) room }
    ensures { result ≡ suit_number (parts_of tables.now) room }
{
    let mut number = 0;
    for place in 0..tables.specialties() {
        number = number * 2 + u32::from(tables.suits(place + 1, room));
    }
    number
}
