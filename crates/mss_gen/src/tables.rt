//! The texts of the generated tables.
ghost use Rattle.std.specs.Prelude.{◌≡◌, ◌<◌, ◌≤◌, ◌∷◌, ◌++◌, [], codes, decimal, length, map, IfOk};
ghost use Rattle.std.specs.List.{All};
ghost use Rattle.mss_gen.specs.Modest.{IsModest};
ghost use Rattle.mss_gen.specs.Rows.{barred_rows, by_specialty, day_rows, needs_rows, patients_rows, room_rows, rooms_rows, specialty_rows, stays_rows, unsuited_rows};
ghost use Rattle.mss_rows.specs.Written.{text_of};
ghost use Rattle.mss_tables.specs.Equipment.{equipment_header};
ghost use Rattle.mss_tables.specs.Patients.{patients_header};
ghost use Rattle.mss_tables.specs.Restrictions.{barred_header, needs_header, unsuited_header};
ghost use Rattle.mss_tables.specs.Rooms.{rooms_header};
ghost use Rattle.mss_tables.specs.SpecialtyFile.{specialties_header};
ghost use Rattle.mss_tables.specs.Stays.{stays_header};

use crate::rows::{Barred, Needs, Patients, SpecialtyRows, Stays, Targets, Unsuited, named};
use crate::specialty::Specialty;
use mss_model::{MOST_DAYS, MOST_ROOMS, MOST_SPECIALTIES, NoMemory, Text};
use mss_rows::push_row;
use std::alloc::Global;

/// The text of a table: its header, and then the records of the specialties one after the other.
fn table_text<T: SpecialtyRows>(
    alloc: Global,
    table: &T,
    header: &[&[u8]],
    specialties: &[Specialty],
) -> Result<Vec<u8>, NoMemory>
    requires modest { All IsModest specialties.now }
    requires few { length specialties.now ≤ MOST_SPECIALTIES }
    ensures { IfOk result (λ text. text.items ≡ text_of (map (λ field. field.now) header.now ∷ by_specialty (T.rows table.now) 1 specialties.now)) }
{
    let mut text = Text::make(alloc);
    push_row(alloc, &mut text, header)?;
    for place in 0..specialties.len() {
        table.write(alloc, &mut text, place as u32 + 1, &specialties[place])?;
    }
    Ok(text.into_bytes())
}

/// The text of the specialties, with so many wards in turn.
pub(crate) fn targets_text(
    alloc: Global,
    wards: u32,
    specialties: &[Specialty],
) -> Result<Vec<u8>, NoMemory>
    requires some { 0 < wards }
    requires modest { All IsModest specialties.now }
    requires few { length specialties.now ≤ MOST_SPECIALTIES }
    ensures { IfOk result (λ text. text.items ≡ text_of (specialties_header ∷ by_specialty (specialty_rows wards) 1 specialties.now)) }
{
    let header: [&[u8]; 5] = [b"specialty", b"ward", b"daily", b"low", b"high"];
    table_text(alloc, &Targets { wards }, &header, specialties)
}

/// The text of the counts of patients.
pub(crate) fn patients_text(alloc: Global, specialties: &[Specialty]) -> Result<Vec<u8>, NoMemory>
    requires modest { All IsModest specialties.now }
    requires few { length specialties.now ≤ MOST_SPECIALTIES }
    ensures { IfOk result (λ text. text.items ≡ text_of (patients_header ∷ by_specialty patients_rows 1 specialties.now)) }
{
    table_text(
        alloc,
        &Patients,
        &[b"specialty", b"patients", b"chance"],
        specialties,
    )
}

/// The text of the stays.
pub(crate) fn stays_text(alloc: Global, specialties: &[Specialty]) -> Result<Vec<u8>, NoMemory>
    requires modest { All IsModest specialties.now }
    requires few { length specialties.now ≤ MOST_SPECIALTIES }
    ensures { IfOk result (λ text. text.items ≡ text_of (stays_header ∷ by_specialty stays_rows 1 specialties.now)) }
{
    table_text(
        alloc,
        &Stays,
        &[b"specialty", b"age", b"chance"],
        specialties,
    )
}

/// The text of the needs.
pub(crate) fn needs_text(alloc: Global, specialties: &[Specialty]) -> Result<Vec<u8>, NoMemory>
    requires modest { All IsModest specialties.now }
    requires few { length specialties.now ≤ MOST_SPECIALTIES }
    ensures { IfOk result (λ text. text.items ≡ text_of (needs_header ∷ by_specialty needs_rows 1 specialties.now)) }
{
    table_text(
        alloc,
        &Needs,
        &[b"specialty", b"equipment", b"units"],
        specialties,
    )
}

/// The text of the rooms that don't suit.
pub(crate) fn unsuited_text(alloc: Global, specialties: &[Specialty]) -> Result<Vec<u8>, NoMemory>
    requires modest { All IsModest specialties.now }
    requires few { length specialties.now ≤ MOST_SPECIALTIES }
    ensures { IfOk result (λ text. text.items ≡ text_of (unsuited_header ∷ by_specialty unsuited_rows 1 specialties.now)) }
{
    table_text(alloc, &Unsuited, &[b"specialty", b"room"], specialties)
}

/// The text of the barred days.
pub(crate) fn barred_text(alloc: Global, specialties: &[Specialty]) -> Result<Vec<u8>, NoMemory>
    requires modest { All IsModest specialties.now }
    requires few { length specialties.now ≤ MOST_SPECIALTIES }
    ensures { IfOk result (λ text. text.items ≡ text_of (barred_header ∷ by_specialty barred_rows 1 specialties.now)) }
{
    table_text(alloc, &Barred, &[b"specialty", b"day"], specialties)
}

/// Writes the minutes of a room on a day, where it is worked.
#[tactic(auto, unfolding(mss_rows::specs::Written::text_of))]
fn write_day(
    alloc: Global,
    text: &mut Text,
    room: u32,
    day: u32,
    works: bool,
) -> Result<(), NoMemory>
    ensures { IfOk result (λ _. text.new ≡ text.old ++ text_of (day_rows room day works)) }
{
    if !works {
        return Ok(());
    }
    let room = named(alloc, b'R', room)?;
    let day = format!(in alloc; "{day}")?;
    push_row(alloc, text, &[&room, day.as_bytes(), b"480"])?;
    Ok(())
}

/// Writes the minutes of a room on its working days.
fn write_room(alloc: Global, text: &mut Text, room: u32, days: u32) -> Result<(), NoMemory>
    requires { days ≤ MOST_DAYS }
    ensures { IfOk result (λ _. text.new ≡ text.old ++ text_of (room_rows room days)) }
{
    for day in 0..days {
        write_day(alloc, text, room, day + 1, day % 7 < 5)?;
    }
    Ok(())
}

/// The text of the rooms.
pub(crate) fn rooms_text(alloc: Global, rooms: u32, days: u32) -> Result<Vec<u8>, NoMemory>
    requires rooms { rooms ≤ MOST_ROOMS }
    requires days { days ≤ MOST_DAYS }
    ensures { IfOk result (λ text. text.items ≡ text_of (rooms_header ∷ rooms_rows rooms days)) }
{
    let mut text = Text::make(alloc);
    push_row(alloc, &mut text, &[b"room", b"day", b"minutes"])?;
    for room in 0..rooms {
        write_room(alloc, &mut text, room + 1, days)?;
    }
    Ok(text.into_bytes())
}

/// The text of the one kind of equipment.
#[tactic(auto, unfolding(mss_rows::specs::Written::text_of))]
pub(crate) fn equipment_text(alloc: Global, units: u32) -> Result<Vec<u8>, NoMemory>
    ensures { IfOk result (λ text. text.items ≡ text_of (equipment_header ∷ (codes "Scope" ∷ decimal units ∷ []) ∷ [])) }
{
    let mut text = Text::make(alloc);
    push_row(alloc, &mut text, &[b"equipment", b"units"])?;
    let units = format!(in alloc; "{units}")?;
    push_row(alloc, &mut text, &[b"Scope", units.as_bytes()])?;
    Ok(text.into_bytes())
}

/// The text of a table with no record but its header.
#[tactic(auto, unfolding(mss_rows::specs::Written::text_of))]
pub(crate) fn header_text(alloc: Global, header: &[&[u8]]) -> Result<Vec<u8>, NoMemory>
    ensures { IfOk result (λ text. text.items ≡ text_of (map (λ field. field.now) header.now ∷ [])) }
{
    let mut text = Text::make(alloc);
    push_row(alloc, &mut text, header)?;
    Ok(text.into_bytes())
}
