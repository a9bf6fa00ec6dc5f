//! The desk of a program: the files of the current folder, and standard output. No clause says what the system does
//! with them; the loops over its calls are safe and end.
ghost use Rattle.std.specs.Prelude.{◌≡◌, ◌≢◌, ◌≤◌, [], None, IfOk, IfErr};
ghost use Rattle.mss_desk.specs.Desk.{ReadBound, Rose};

use crate::{Desk, ReadAnswer, WriteAnswer};
use std::fs::{File, OpenFile};
use std::io::{ErrorKind, Read, Write};
use std::rt::Files;
use std::{fs, io};

/// The file of the current folder that a put writes before it gives it its name. One that is left behind was never
/// whole: no command reads it, and the next put replaces it.
pub const UNFINISHED: &str = "mss.unfinished";

// The bytes of one reading.
const PIECE: usize = 65536;

/// The desk over the files of the current folder and standard output. It tells neither, counts its faults up to the
/// greatest `u64`, and says each on standard error as `PROGRAM: NAME: REASON`. At most one file is open at a time.
#[derive(Drop)]
pub struct FolderDesk<R: Files + Print + Eprint + Drop> {
    rt: R,
    program: &'static str,
    read_faults: u64,
    write_faults: u64,
}

impl<R: Files + Print + Eprint + Drop> FolderDesk<R> {
    /// A desk that has not failed yet, for the program of this name. It takes no memory.
    pub fn make(rt: R, program: &'static str) -> FolderDesk<R>
        ensures read_faults { result.read_faults ≡ 0 }
        ensures write_faults { result.write_faults ≡ 0 }
    {
        FolderDesk {
            rt,
            program,
            read_faults: 0,
            write_faults: 0,
        }
    }

    // Says on standard error why a file or the output failed. Where that fails too, nobody can be told.
    fn tell(&self, name: &str, reason: io::Error) {
        let _ = eprintln!(self.rt; "{}: {name}: {reason}", self.program);
    }

    // What came of a reading. A fault is told and counted.
    fn after_reading(&mut self, name: &str, given: io::Result<ReadAnswer>) -> ReadAnswer
        ensures answer { IfOk given (λ answer. result ≡ answer) }
        ensures fault { IfErr given (λ _. result ≡ ReadAnswer.Failed) }
        ensures write_faults { self.new.write_faults ≡ self.old.write_faults }
        ensures later { self.old.read_faults ≤ self.new.read_faults }
        ensures cause { IfErr given (λ _. Rose self.old.read_faults self.new.read_faults) }
    {
        match given {
            Ok(answer) => answer,
            Err(reason) => {
                self.tell(name, reason);
                self.read_faults = self.read_faults.saturating_add(1);
                ReadAnswer::Failed
            }
        }
    }

    // What came of a writing. A fault is told and counted.
    fn after_writing(&mut self, name: &str, written: io::Result<()>) -> WriteAnswer
        ensures read_faults { self.new.read_faults ≡ self.old.read_faults }
        ensures later { self.old.write_faults ≤ self.new.write_faults }
        ensures cause { result ≡ WriteAnswer.Failed → Rose self.old.write_faults self.new.write_faults }
    {
        match written {
            Ok(()) => WriteAnswer::Done,
            Err(reason) => {
                self.tell(name, reason);
                self.write_faults = self.write_faults.saturating_add(1);
                WriteAnswer::Failed
            }
        }
    }
}

// Reads a file of the folder to its end, or to `limit + 1` bytes.
fn read_file<R: Files>(
    rt: &R,
    name: &str,
    limit: usize,
    out: &mut Vec<u8>,
) -> io::Result<ReadAnswer>
    requires { out.old.items ≡ [] }
    ensures bound { IfOk result (λ answer. ReadBound limit answer out.new.items) }
    ensures given { IfOk result (λ answer. answer ≢ ReadAnswer.Failed) }
{
    let mut file = File::open(rt, name)?;
    read_to(&mut file, limit, out)
}

// Reads from where the file stands to its end, or to `limit + 1` bytes. An interrupted reading is tried again.
fn read_to<F: Read>(file: &mut F, limit: usize, out: &mut Vec<u8>) -> io::Result<ReadAnswer>
    requires { out.old.items ≡ [] }
    ensures bound { IfOk result (λ answer. ReadBound limit answer out.new.items) }
    ensures given { IfOk result (λ answer. answer ≢ ReadAnswer.Failed) }
{
    let mut piece = [0; PIECE];
    for _ in 0..u64::MAX {
        let left = limit - out.len();
        let wanted = if left < PIECE { left + 1 } else { PIECE };
        match file.read(&mut piece[..wanted]) {
            Ok(0) => return Ok(ReadAnswer::Done),
            Ok(count) => {
                if out.extend_from_slice(&piece[..count]).is_err() {
                    return Ok(ReadAnswer::NoMemory);
                }
                if count > left {
                    return Ok(ReadAnswer::More);
                }
            }
            Err(e) if e.kind() == ErrorKind::Interrupted => {}
            Err(e) => return Err(e),
        }
    }
    Err(io::Error::from(ErrorKind::Interrupted))
}

// Writes all bytes. An interrupted writing is tried again, and one that takes nothing is a fault.
fn write_to<W: Write>(out: &mut W, bytes: &[u8]) -> io::Result<()> {
    let mut rest = bytes;
    for _ in 0..u64::MAX {
        if rest.is_empty() {
            return Ok(());
        }
        match out.write(rest) {
            Ok(0) => return Err(io::Error::from(ErrorKind::WriteZero)),
            Ok(count) => rest = &rest[count..],
            Err(e) if e.kind() == ErrorKind::Interrupted => {}
            Err(e) => return Err(e),
        }
    }
    Err(io::Error::from(ErrorKind::Interrupted))
}

// Makes a file hold these bytes: either it holds them all in the end, or it is as it was.
fn replace<R: Files>(rt: &R, name: &str, bytes: &[u8]) -> io::Result<()> {
    let replaced = write_and_name(rt, name, bytes);
    if replaced.is_err() {
        let _ = fs::remove_file(rt, UNFINISHED);
    }
    replaced
}

// Writes the bytes under another name, and gives the file its own once they are on the disk.
fn write_and_name<R: Files>(rt: &R, name: &str, bytes: &[u8]) -> io::Result<()> {
    write_unfinished(rt, bytes)?;
    fs::rename(rt, UNFINISHED, name)?;
    sync_folder(rt);
    Ok(())
}

// Writes and syncs the unfinished file, in place of one that an earlier run left. It is made anew, so that a link of
// its name is not followed.
fn write_unfinished<R: Files>(rt: &R, bytes: &[u8]) -> io::Result<()> {
    match fs::remove_file(rt, UNFINISHED) {
        Err(e) if e.kind() != ErrorKind::NotFound => return Err(e),
        _ => {}
    }
    let mut file = File::create_new(rt, UNFINISHED)?;
    write_to(&mut file, bytes)?;
    file.sync_all()
}

// Syncs the names of the folder. Where a file system can't, the file has its name all the same.
fn sync_folder<R: Files>(rt: &R) {
    if let Ok(folder) = File::open(rt, ".") {
        let _ = folder.sync_all();
    }
}

// Standard output as a writer that takes a part at a time.
#[derive(Drop)]
struct Printed<'a, R: Print> {
    rt: &'a R,
}

impl<'a, R: Print> Write for Printed<'a, R> {
    fn write(&mut self, bytes: &[u8]) -> io::Result<usize> {
        self.rt.write_some(bytes)
    }

    fn flush(&mut self) -> io::Result<()> {
        Ok(())
    }
}

impl<R: Files + Print + Eprint + Drop> Desk for FolderDesk<R> {
    ghost seen = { λ d. record { told = None; read_faults = d.read_faults; write_faults = d.write_faults } };

    fn read(&mut self, name: &str, limit: usize, out: &mut Vec<u8>) -> ReadAnswer {
        let given = read_file(&self.rt, name, limit, out);
        self.after_reading(name, given)
    }

    fn put(&mut self, name: &str, bytes: &[u8]) -> WriteAnswer {
        let put = replace(&self.rt, name, bytes);
        self.after_writing(name, put)
    }

    fn say(&mut self, bytes: &[u8]) -> WriteAnswer {
        let said = write_to(&mut Printed { rt: &self.rt }, bytes);
        self.after_writing("standard output", said)
    }
}
