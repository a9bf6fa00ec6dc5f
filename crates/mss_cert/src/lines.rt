//! A list of lines in little memory.
ghost use Rattle.std.specs.Prelude.{◌≡◌, ℕ, ◌<◌, ◌≤◌, List, [], ◌∷◌, ◌++◌, length, slice_get, Some, IfOk, IsTrue, ◌↔◌, OnOk, OnErr};
ghost use Rattle.mss_cert.specs.KeptLines.{IsKept, Keeps, judged_at, left_at, line_of};

use crate::certificate::Line;
use mss_model::{MOST_MEMBERS, NoMemory};
use std::alloc::Global;
use std::marker::Model;

/// A line as it is kept: with its one number, or with the place of its numbers beside, so that short lines, of which a
/// text has most, take little memory.
#[derive(Clone, Copy, Debug, PartialEq, Eq)]
enum Kept {
    Branch { turn: u32 },
    Dead { rule: u32 },
    Full { place: u32 },
    Closed { place: u32 },
    OpenAt { place: u32 },
}

/// The numbers of a full or closed line.
#[derive(Clone, Copy, Debug, PartialEq, Eq)]
struct Judged {
    turn: u32,
    number: u32,
    ward: u32,
    day: u32,
}

/// The numbers of an open line.
#[derive(Clone, Copy, Debug, PartialEq, Eq)]
struct Left {
    number: u32,
    ward: u32,
    day: u32,
}

/// The numbers of the lines that have more than one.
#[derive(Debug, Drop)]
struct Numbers {
    judged: Vec<Judged>,
    left: Vec<Left>,
}

impl Numbers {
    /// A line as it is kept, its numbers beside where it has more than one. What was kept before stays as it was.
    fn keep(&mut self, line: Line) -> Result<Kept, NoMemory>
        ensures kept { IfOk result (λ kept. IsKept self.new kept × (line_of self.new kept ≡ line)) }
        ensures before { Keeps self.old self.new }
    {
        match line {
            Line::Branch { turn } => Ok(Kept::Branch { turn }),
            Line::Dead { rule } => Ok(Kept::Dead { rule }),
            Line::Full {
                turn,
                number,
                ward,
                day,
            } => {
                let place = self.judge(Judged {
                    turn,
                    number,
                    ward,
                    day,
                })?;
                Ok(Kept::Full { place })
            }
            Line::Closed {
                turn,
                number,
                ward,
                day,
            } => {
                let place = self.judge(Judged {
                    turn,
                    number,
                    ward,
                    day,
                })?;
                Ok(Kept::Closed { place })
            }
            Line::OpenAt { number, ward, day } => {
                let place = self.leave(Left { number, ward, day })?;
                Ok(Kept::OpenAt { place })
            }
        }
    }

    /// Keeps the numbers of a full or closed line, and answers their place.
    fn judge(&mut self, judged: Judged) -> Result<u32, NoMemory>
        ensures place { IfOk result (λ place. (place < length self.new.judged.items) × (judged_at self.new place ≡ judged)) }
        ensures before { Keeps self.old self.new }
    {
        let place = place_of(self.judged.len())?;
        self.judged.push(judged)?;
        Ok(place)
    }

    /// Keeps the numbers of an open line, and answers their place.
    fn leave(&mut self, left: Left) -> Result<u32, NoMemory>
        ensures place { IfOk result (λ place. (place < length self.new.left.items) × (left_at self.new place ≡ left)) }
        ensures before { Keeps self.old self.new }
    {
        let place = place_of(self.left.len())?;
        self.left.push(left)?;
        Ok(place)
    }

    /// The line that is kept so.
    fn line(&self, kept: Kept) -> Line
        requires { IsKept self.now kept }
        ensures { result ≡ line_of self.now kept }
    {
        match kept {
            Kept::Branch { turn } => Line::Branch { turn },
            Kept::Dead { rule } => Line::Dead { rule },
            Kept::Full { place } => {
                let Judged {
                    turn,
                    number,
                    ward,
                    day,
                } = self.judged[place as usize];
                Line::Full {
                    turn,
                    number,
                    ward,
                    day,
                }
            }
            Kept::Closed { place } => {
                let Judged {
                    turn,
                    number,
                    ward,
                    day,
                } = self.judged[place as usize];
                Line::Closed {
                    turn,
                    number,
                    ward,
                    day,
                }
            }
            Kept::OpenAt { place } => {
                let Left { number, ward, day } = self.left[place as usize];
                Line::OpenAt { number, ward, day }
            }
        }
    }
}

/// The place behind so many others.
fn place_of(count: usize) -> Result<u32, NoMemory>
    ensures { IfOk result (λ place. place ≡ count) }
{
    match u32::try_from(count) {
        Ok(place) => Ok(place),
        Err(_) => Err(NoMemory),
    }
}

/// A list of lines, which grows at its end.
#[derive(Debug, Drop)]
pub struct Lines {
    kept: Vec<Kept>,
    numbers: Numbers,
}

impl Model for Lines {
    ghost use Rattle.std.specs.Prelude.{List, map};
    ghost use Rattle.mss_cert.specs.declared.certificate.Line.{Line};
    ghost use Rattle.mss_cert.specs.KeptLines.{AreKept, line_of};

    ghost Value = { List Line };

    ghost view = { λ l. map (line_of l.numbers) l.kept.items };

    ghost invariant = { λ l. AreKept l.numbers l.kept.items };
}

impl Lines {
    /// The empty list. It takes no memory.
    pub fn make(alloc: Global) -> Lines
        ensures { result ≡ [] }
    {
        Lines {
            kept: Vec::new(alloc),
            numbers: Numbers {
                judged: Vec::new(alloc),
                left: Vec::new(alloc),
            },
        }
    }

    /// Adds a line at the end.
    pub fn push(&mut self, line: Line) -> Result<(), NoMemory>
        requires room { length self.old < MOST_MEMBERS }
        ensures ok { OnOk result (self.new ≡ self.old ++ line ∷ []) }
        ensures err { OnErr result (self.new ≡ self.old) }
    {
        let kept = self.numbers.keep(line)?;
        self.kept.push(kept)?;
        Ok(())
    }

    pub fn len(&self) -> u32
        ensures value { result ≡ length self.now }
        ensures few { result ≤ MOST_MEMBERS }
    {
        self.kept.len() as u32
    }

    pub fn is_empty(&self) -> bool
        ensures { IsTrue result ↔ (self.now ≡ []) }
    {
        self.kept.is_empty()
    }

    /// The line at a place, from 0.
    pub fn get(&self, place: u32) -> Line
        requires { place < length self.now }
        ensures { slice_get self.now place ≡ Some result }
    {
        self.numbers.line(self.kept[place as usize])
    }
}
