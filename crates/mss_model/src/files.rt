//! The files that have a number: the ten that a set of tables is read from, and block.csv.
ghost use Rattle.std.specs.Prelude.{◌≡◌};
ghost use Rattle.mss_model.specs.Files.{file_name};

/// The names of the files, by their numbers. The first ten are read and judged in this order; they are the tables.
pub const FILE_NAMES: [&str; 11] = [
    "settings.toml",
    "rooms.csv",
    "specialties.csv",
    "patients.csv",
    "stays.csv",
    "equipment.csv",
    "needs.csv",
    "unsuited.csv",
    "fixed.csv",
    "barred.csv",
    "block.csv",
];

/// The most bytes of such a file, and of cycle.csv: 4 MiB.
pub const MOST_BYTES: usize = 4_194_304;

/// How many files a set of tables is read from.
pub const TABLE_FILES: u8 = 10;

pub const SETTINGS_FILE: u8 = 0;

pub const ROOMS_FILE: u8 = 1;

pub const SPECIALTIES_FILE: u8 = 2;

pub const PATIENTS_FILE: u8 = 3;

pub const STAYS_FILE: u8 = 4;

pub const EQUIPMENT_FILE: u8 = 5;

pub const NEEDS_FILE: u8 = 6;

pub const UNSUITED_FILE: u8 = 7;

pub const FIXED_FILE: u8 = 8;

pub const BARRED_FILE: u8 = 9;

pub const BLOCK_FILE: u8 = 10;

/// The name of the file with this number; no name above the last.
pub fn file_name(file: u8) -> &'static str
    ensures { result.now ≡ file_name file }
{
    match FILE_NAMES.get(usize::from(file)) {
        Some(name) => name,
        None => "",
    }
}
