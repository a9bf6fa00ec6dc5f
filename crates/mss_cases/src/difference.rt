//! How what came differs from what must come.
ghost use Rattle.std.specs.Prelude.{◌≡◌, ◌↔◌, IfOk, IsNone};

use std::alloc::{AllocError, Global};
use std::fmt;

/// The first difference between what came and what must come.
#[derive(Drop)]
pub enum Difference {
    Status { came: u8, wanted: u8 },
    Calls { came: u32, wanted: u32 },
    Convolutions { came: u32, least: u32 },
    /// The text that was said, by the first of its lines that differ.
    Said(Change),
    /// A line that wasn't said.
    Line(String),
    File { name: String, change: Change },
    /// A file that isn't there.
    NoFile(String),
    /// A file that is there and mustn't be.
    NewFile(String),
}

/// Where two texts differ: the number of the first line that does, and this line as it came.
#[derive(Drop)]
pub struct Change {
    line: usize,
    came: String,
}

impl fmt::Display for Change {
    fn fmt<W: fmt::Write>(&self, f: &mut fmt::Formatter<W>) -> fmt::Result {
        let line = self.line;
        let came = self.came.as_str();
        write!(f, "line {line} is {came:?}")
    }
}

impl fmt::Display for Difference {
    fn fmt<W: fmt::Write>(&self, f: &mut fmt::Formatter<W>) -> fmt::Result {
        match self {
            Difference::Status { came, wanted } => write!(f, "status {came} and not {wanted}"),
            Difference::Calls { came, wanted } => write!(f, "{came} calls and not {wanted}"),
            Difference::Convolutions { came, least } => {
                write!(f, "{came} convolutions and not at least {least}")
            }
            Difference::Said(change) => write!(f, "of the text said {change}"),
            Difference::Line(line) => write!(f, "not said is {line:?}"),
            Difference::File { name, change } => write!(f, "of {name} {change}"),
            Difference::NoFile(name) => write!(f, "{name} isn't there"),
            Difference::NewFile(name) => write!(f, "{name} is there"),
        }
    }
}

/// Where a text that came differs from what must come, or `None` where they have the same bytes.
pub fn change_of(alloc: Global, came: &[u8], wanted: &[u8]) -> Result<Option<Change>, AllocError>
    ensures { IfOk result (λ change. IsNone change ↔ (came.now ≡ wanted.now)) }
{
    if came == wanted {
        return Ok(None);
    }
    let mut lines = wanted.split(|byte| *byte == b'\n');
    let mut number = 0usize;
    for line in came.split(|byte| *byte == b'\n') {
        number = number.saturating_add(1);
        if lines.next() != Some(line) {
            let came = String::from_utf8_lossy(alloc, line)?;
            return Ok(Some(Change { line: number, came }));
        }
    }
    // What came is the first lines of what must come.
    let change = Change {
        line: number.saturating_add(1),
        came: String::new(alloc),
    };
    Ok(Some(change))
}
