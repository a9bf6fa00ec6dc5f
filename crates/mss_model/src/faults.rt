//! The faults of the files that the planner reads: their kinds, and where they lie.
ghost use Rattle.std.specs.Prelude.{◌≡◌, ◌<◌};

/// The kinds of fault in the files that the planner reads, numbered from 1 in this order (docs/FORMATS.md, "Faults").
#[derive(Clone, Copy, Debug, PartialEq, Eq)]
pub enum Kind {
    /// The file is longer than its limit.
    TooLong,
    /// The settings aren't TOML.
    Toml,
    /// A key of the settings is unknown, missing or of another type.
    Key,
    /// The settings are of a version that isn't known.
    Version,
    /// A number is outside its range.
    Range,
    /// A level isn't from 1 to 999,999 millionths, or their number isn't from 1 to 8.
    Level,
    /// The number of watched wards isn't from 1 to 8.
    Watch,
    /// The first record isn't the header, or there is none.
    Header,
    /// A record has another number of fields than the header.
    Columns,
    /// A number field isn't 1 to 10 digits.
    Number,
    /// A name field breaks the name rule.
    Name,
    /// There are more rooms, specialties, wards or equipment kinds than the planner takes.
    TooMany,
    /// No earlier table has this name.
    Unknown,
    /// The record's key was given before.
    Twice,
    /// The low minutes are above the high minutes.
    HoursOrder,
    /// The chances of a block don't sum to the whole.
    ChanceSum,
    /// There are no stays, or the last discharge chance isn't the whole.
    StayEnd,
    /// A stay follows one with a certain discharge.
    StayAfterEnd,
    /// The age of a stay isn't the number of the stays before it.
    StayOrder,
    /// A table that needs a record has only its header.
    NoRecord,
    /// The kind of a record of block.csv is neither `patients` nor `stay`.
    Word,
}

/// The names of the kinds of fault, in their order (docs/FORMATS.md, "Faults").
pub const KIND_NAMES: [&str; 21] = [
    "TooLong",
    "Toml",
    "Key",
    "Version",
    "Range",
    "Level",
    "Watch",
    "Header",
    "Columns",
    "Number",
    "Name",
    "TooMany",
    "Unknown",
    "Twice",
    "HoursOrder",
    "ChanceSum",
    "StayEnd",
    "StayAfterEnd",
    "StayOrder",
    "NoRecord",
    "Word",
];

impl Kind {
    ghost use Rattle.mss_model.specs.Faults.{kind_name, kind_number};

    /// The number of the kind, from 1 to 21.
    pub fn number(&self) -> u8
        ensures { result ≡ kind_number self.now }
    {
        *self as u8 + 1
    }

    /// The name of the kind, as refusals have it.
    pub fn name(&self) -> &'static str
        ensures { result.now ≡ kind_name self.now }
    {
        KIND_NAMES[*self as usize]
    }
}

/// A fault of the tables or of block.csv, with its place.
#[derive(Clone, Copy, Debug, PartialEq, Eq)]
pub struct TableFault {
    /// The number of the file, as in `FILE_NAMES`.
    pub file: u8,
    /// The number of the record after the header, from 1; 0 for the header and for tests on the whole file.
    pub row: u32,
    /// The item of a key in the settings, the number of a specialty in tests on whole files, and 0 otherwise.
    pub item: u32,
    pub kind: Kind,
}

/// A fault of the file of a cycle, with its place.
#[derive(Clone, Copy, Debug, PartialEq, Eq)]
pub struct CycleFault {
    /// The number of the record after the header, from 1; 0 for the header and for tests on the whole file.
    pub row: u32,
    pub kind: Kind,
}
