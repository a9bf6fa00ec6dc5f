//! The records of a specialty.
ghost use Rattle.std.specs.Prelude.{◌≡◌, ◌<◌, ◌++◌, ◌≤◌, length, ℕ, List, IfOk};
ghost use Rattle.csv.specs.Writing.{default_writer, row_text};
ghost use Rattle.mss_gen.specs.declared.specialty.Specialty.{Specialty};
ghost use Rattle.mss_gen.specs.Modest.{IsModest};
ghost use Rattle.mss_gen.specs.Rows.{ages_rows, barred_rows, count_row, named, needs_rows, patients_rows, specialty_rows, stays_rows, unsuited_row, unsuited_rows};
ghost use Rattle.mss_rows.specs.Written.{text_of};

use crate::specialty::Specialty;
use mss_model::{NoMemory, Text};
use mss_rows::push_row;
use std::alloc::Global;

/// A table that has some records of each specialty.
pub(crate) trait SpecialtyRows {
    /// The records of a specialty with its number.
    ghost rows: { Self → ℕ → Specialty → List (List (List ℕ)) };

    /// Writes the records of a specialty.
    fn write(
        &self,
        alloc: Global,
        text: &mut Text,
        number: u32,
        specialty: &Specialty,
    ) -> Result<(), NoMemory>
        requires first { 1 ≤ number }
        requires modest { IsModest specialty.now }
        ensures { IfOk result (λ _. text.new ≡ text.old ++ text_of (rows self.now number specialty.now)) };
}

/// A letter and a number.
pub(crate) fn named(alloc: Global, letter: u8, number: u32) -> Result<Vec<u8>, NoMemory>
    ensures { IfOk result (λ name. name.items ≡ named letter number) }
{
    let mut name = Vec::from_slice(alloc, &[letter])?;
    let digits = format!(in alloc; "{number}")?;
    name.extend_from_slice(digits.as_bytes())?;
    Ok(name)
}

/// Writes a count or an age of a specialty, and its chance.
fn write_count(
    alloc: Global,
    text: &mut Text,
    specialty: u32,
    count: u32,
    chance: u32,
) -> Result<(), NoMemory>
    ensures { IfOk result (λ _. text.new ≡ text.old ++ row_text default_writer (count_row specialty count chance)) }
{
    let name = named(alloc, b'S', specialty)?;
    let count = format!(in alloc; "{count}")?;
    let chance = format!(in alloc; "{chance}")?;
    push_row(alloc, text, &[&name, count.as_bytes(), chance.as_bytes()])
}

/// The wards, daily numbers and targets.
#[derive(Drop)]
pub(crate) struct Targets {
    pub wards: u32,
    ghost some: { 0 < wards },
}

impl SpecialtyRows for Targets {
    ghost rows = { λ table number s. specialty_rows table.wards number s };

    #[tactic(auto, unfolding(mss_rows::specs::Written::text_of))]
    fn write(
        &self,
        alloc: Global,
        text: &mut Text,
        number: u32,
        specialty: &Specialty,
    ) -> Result<(), NoMemory> {
        let name = named(alloc, b'S', number)?;
        let ward = named(alloc, b'W', (number - 1) % self.wards + 1)?;
        let daily = format!(in alloc; "{}", specialty.daily)?;
        let low = format!(in alloc; "{}", specialty.low)?;
        let high = format!(in alloc; "{}", specialty.high)?;
        push_row(
            alloc,
            text,
            &[
                &name,
                &ward,
                daily.as_bytes(),
                low.as_bytes(),
                high.as_bytes(),
            ],
        )?;
        Ok(())
    }
}

/// The chances of counts of patients.
#[derive(Drop)]
pub(crate) struct Patients;

impl SpecialtyRows for Patients {
    ghost rows = { λ _ number s. patients_rows number s };

    #[tactic(auto, unfolding(mss_rows::specs::Written::text_of))]
    fn write(
        &self,
        alloc: Global,
        text: &mut Text,
        number: u32,
        specialty: &Specialty,
    ) -> Result<(), NoMemory> {
        let left = 1_000_000 - specialty.chance - specialty.next_chance;
        write_count(alloc, text, number, specialty.least, specialty.chance)?;
        write_count(
            alloc,
            text,
            number,
            specialty.least + 1,
            specialty.next_chance,
        )?;
        write_count(alloc, text, number, specialty.least + 2, left)
    }
}

/// The discharge chances by age.
#[derive(Drop)]
pub(crate) struct Stays;

impl SpecialtyRows for Stays {
    ghost rows = { λ _ number s. stays_rows number s };

    #[tactic(auto, unfolding(mss_rows::specs::Written::text_of))]
    fn write(
        &self,
        alloc: Global,
        text: &mut Text,
        number: u32,
        specialty: &Specialty,
    ) -> Result<(), NoMemory> {
        let chances = specialty.discharges.as_slice();
        for age in 0..chances.len() {
            write_count(alloc, text, number, age as u32, chances[age])?;
        }
        write_count(alloc, text, number, chances.len() as u32, 1_000_000)?;
        Ok(())
    }
}

/// The need for the one kind of equipment.
#[derive(Drop)]
pub(crate) struct Needs;

impl SpecialtyRows for Needs {
    ghost rows = { λ _ number s. needs_rows number s };

    #[tactic(auto, unfolding(mss_rows::specs::Written::text_of))]
    fn write(
        &self,
        alloc: Global,
        text: &mut Text,
        number: u32,
        specialty: &Specialty,
    ) -> Result<(), NoMemory> {
        if !specialty.needs_scope {
            return Ok(());
        }
        let name = named(alloc, b'S', number)?;
        push_row(alloc, text, &[&name, b"Scope", b"1"])?;
        Ok(())
    }
}

/// Writes a specialty and a room that doesn't suit it.
fn write_room(alloc: Global, text: &mut Text, specialty: u32, room: u32) -> Result<(), NoMemory>
    ensures { IfOk result (λ _. text.new ≡ text.old ++ row_text default_writer (unsuited_row specialty room)) }
{
    let room = named(alloc, b'R', room)?;
    let name = named(alloc, b'S', specialty)?;
    push_row(alloc, text, &[&name, &room])
}

/// The rooms that don't suit a specialty.
#[derive(Drop)]
pub(crate) struct Unsuited;

impl SpecialtyRows for Unsuited {
    ghost rows = { λ _ number s. unsuited_rows number s };

    #[tactic(auto, unfolding(mss_rows::specs::Written::text_of))]
    fn write(
        &self,
        alloc: Global,
        text: &mut Text,
        number: u32,
        specialty: &Specialty,
    ) -> Result<(), NoMemory> {
        let rooms = specialty.unsuited.as_slice();
        for place in 0..rooms.len() {
            write_room(alloc, text, number, rooms[place])?;
        }
        Ok(())
    }
}

/// The days on which a specialty is barred.
#[derive(Drop)]
pub(crate) struct Barred;

impl SpecialtyRows for Barred {
    ghost rows = { λ _ number s. barred_rows number s };

    #[tactic(auto, unfolding(mss_rows::specs::Written::text_of))]
    fn write(
        &self,
        alloc: Global,
        text: &mut Text,
        number: u32,
        specialty: &Specialty,
    ) -> Result<(), NoMemory> {
        let Some(day) = specialty.barred else {
            return Ok(());
        };
        let name = named(alloc, b'S', number)?;
        let day = format!(in alloc; "{day}")?;
        push_row(alloc, text, &[&name, day.as_bytes()])?;
        Ok(())
    }
}
