//! The order of the options of alike slots.
ghost use Rattle.std.specs.Prelude.{◌≡◌, ℕ, ◌+◌, ◌%◌, ◌<◌, ◌≤◌, ◌&&◌, length, nat_lt};
ghost use Rattle.mss_model.specs.Legality.{option_at};
ghost use Rattle.mss_model.specs.PartsOf.{parts_of};
ghost use Rattle.mss_model.specs.TableWords.{room_count, slot_count};
ghost use Rattle.mss_alike.specs.Alike.{breaks_order, falls, is_alike};
ghost use Rattle.mss_alike.specs.SuitNumbers.{AreSuitNumbers};

use crate::rooms::suit_numbers;
use mss_model::Tables;

/// Whether the earlier one of two decided alike slots has the greater option.
#[tactic(auto, using(crate::proofs::Loops::loop_rules))]
pub(crate) fn breaks_order(tables: &Tables, prefix: &[u8]) -> bool
    requires long { length prefix.now ≤ slot_count (parts_of tables.now) }
    ensures { result ≡ breaks_order (parts_of tables.now) prefix.now }
{
    let numbers = suit_numbers(tables);
    let rooms = usize::from(tables.rooms());
    let mut room = 0;
    for later in 0..prefix.len() {
        if falls(tables, &numbers, prefix, later, room) {
            return true;
        }
        room = next_room(rooms, room);
    }
    false
}

/// The room of the next slot, from 0 on.
fn next_room(rooms: usize, room: usize) -> usize
    requires { room < rooms }
    ensures next { (slot : ℕ) → slot % rooms ≡ room → (slot + 1) % rooms ≡ result }
    ensures within { result < rooms }
{
    if room + 1 == rooms { 0 } else { room + 1 }
}

/// Whether an earlier alike slot has a greater option than this one, which is of this room, from 0 on. Slots of other days
/// aren't alike.
#[tactic(auto, using(crate::proofs::Loops::loop_rules))]
fn falls(tables: &Tables, numbers: &[u32; 16], prefix: &[u8], later: usize, room: usize) -> bool
    requires long { length prefix.now ≤ slot_count (parts_of tables.now) }
    requires numbers { AreSuitNumbers (parts_of tables.now) numbers.now }
    requires decided { later < length prefix.now }
    requires room { later % room_count (parts_of tables.now) ≡ room }
    requires within { room < room_count (parts_of tables.now) }
    ensures { result ≡ falls (parts_of tables.now) prefix.now later }
{
    let first = later - room;
    for earlier in first..later {
        if is_falling(tables, numbers, prefix, earlier, later, room) {
            return true;
        }
    }
    false
}

/// Whether two slots of one day are alike and the later one, which is of this room, from 0 on, has the lesser option. What
/// tells most pairs apart is asked first.
fn is_falling(
    tables: &Tables,
    numbers: &[u32; 16],
    prefix: &[u8],
    earlier: usize,
    later: usize,
    room: usize,
) -> bool
    requires long { length prefix.now ≤ slot_count (parts_of tables.now) }
    requires numbers { AreSuitNumbers (parts_of tables.now) numbers.now }
    requires order { earlier < later }
    requires day { later ≤ earlier + room }
    requires decided { later < length prefix.now }
    requires room { later % room_count (parts_of tables.now) ≡ room }
    requires within { room < room_count (parts_of tables.now) }
    ensures { result ≡ (nat_lt (option_at prefix.now later) (option_at prefix.now earlier) && is_alike (parts_of tables.now) earlier later) }
{
    let _rooms = tables.rooms();
    tables.minutes(earlier as u32) == tables.minutes(later as u32)
        && prefix[later] < prefix[earlier]
        && numbers[earlier + room - later] == numbers[room]
        && tables.fixed(earlier as u32) == tables.fixed(later as u32)
}
