//! The generated files.
ghost use Rattle.std.specs.Prelude.{◌≡◌, ◌≤◌, None, length, IfOk};
ghost use Rattle.std.specs.List.{All};
ghost use Rattle.mss_gen.specs.Generated.{files_of, generated};
ghost use Rattle.mss_gen.specs.Modest.{IsModest};
ghost use Rattle.mss_tables.specs.TablesMeaning.{AreWithin, tables_fault};

use crate::draws::Draws;
use crate::size::Size;
use crate::specialty::{Specialty, draw_specialties};
use crate::tables::{
    barred_text, equipment_text, header_text, needs_text, patients_text, rooms_text, stays_text,
    targets_text, unsuited_text,
};
use mss_model::{
    BARRED_FILE, EQUIPMENT_FILE, FIXED_FILE, MOST_SPECIALTIES, NEEDS_FILE, NoMemory, PATIENTS_FILE,
    ROOMS_FILE, SETTINGS_FILE, SPECIALTIES_FILE, STAYS_FILE, UNSUITED_FILE,
};
use mss_tables::TableFiles;
use std::alloc::Global;

/// The files of these specialties and so many units of equipment.
fn files_of(
    alloc: Global,
    size: Size,
    specialties: &[Specialty],
    units: u32,
) -> Result<TableFiles, NoMemory>
    requires modest { All IsModest specialties.now }
    requires few { length specialties.now ≤ MOST_SPECIALTIES }
    ensures { IfOk result (λ files. files ≡ files_of size specialties.now units) }
{
    let shape = size.shape();
    let mut files = TableFiles::make(alloc);
    files.set(SETTINGS_FILE, Vec::from_slice(alloc, size.settings())?);
    files.set(ROOMS_FILE, rooms_text(alloc, shape.rooms, shape.days)?);
    files.set(
        SPECIALTIES_FILE,
        targets_text(alloc, shape.wards, specialties)?,
    );
    files.set(PATIENTS_FILE, patients_text(alloc, specialties)?);
    files.set(STAYS_FILE, stays_text(alloc, specialties)?);
    files.set(EQUIPMENT_FILE, equipment_text(alloc, units)?);
    files.set(NEEDS_FILE, needs_text(alloc, specialties)?);
    files.set(UNSUITED_FILE, unsuited_text(alloc, specialties)?);
    files.set(
        FIXED_FILE,
        header_text(alloc, &[b"day", b"room", b"specialty"])?,
    );
    files.set(BARRED_FILE, barred_text(alloc, specialties)?);
    Ok(files)
}

/// The files that are drawn from a number. They are accepted, and each is within its limit.
pub fn tables_from(alloc: Global, number: u64, size: Size) -> Result<TableFiles, NoMemory>
    ensures files { IfOk result (λ files. files ≡ generated number size) }
    ensures accepted { IfOk result (λ files. tables_fault files ≡ None) }
    ensures within { IfOk result AreWithin }
{
    let mut draws = Draws { word: number };
    let specialties = draw_specialties(alloc, &mut draws, size.shape())?;
    let units = 1 + draws.draw(2);
    let files = files_of(alloc, size, &specialties, units)?;
    Ok(files)
}
