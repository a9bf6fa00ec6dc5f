//! The generated files: read back as tables, and put under their names.
ghost use Rattle.std.specs.Prelude.{◌≡◌, ◌<◌, [], None, Ok, get_or, map, IfOk};
ghost use Rattle.mss_model.specs.Files.{file_name};
ghost use Rattle.mss_model.specs.PartsOf.{parts_of};
ghost use Rattle.mss_command.specs.Outcome.{put_of};
ghost use Rattle.mss_tables.specs.TablesMeaning.{AreWithin, tables_at, tables_fault};
ghost use Rattle.mss_generate.specs.Puts.{table_puts};

use mss_command::Put;
use mss_model::{NoMemory, TABLE_FILES, Tables, Text, file_name};
use mss_tables::{TableFiles, TableRefusal, read_tables};
use std::alloc::Global;

/// The tables that accepted files mean.
pub(crate) fn tables_of(alloc: Global, files: &TableFiles) -> Result<Tables, NoMemory>
    requires accepted { tables_fault files.now ≡ None }
    requires within { AreWithin files.now }
    ensures { IfOk result (λ tables. tables_at files.now ≡ Ok (parts_of tables)) }
{
    match read_tables(alloc, files) {
        Ok(tables) => Ok(tables),
        Err(TableRefusal::NoMemory) => Err(NoMemory),
        Err(TableRefusal::Fault(_)) => unreachable!(),
    }
}

/// The files as they are put: each under its name, in the order of their numbers.
pub(crate) fn puts_of(alloc: Global, files: &TableFiles) -> Result<Vec<Put>, NoMemory>
    ensures { IfOk result (λ puts. map put_of puts.items ≡ table_puts files.now) }
{
    let mut puts = Vec::new(alloc);
    for file in 0..TABLE_FILES {
        puts.push(put_file(alloc, files, file)?)?;
    }
    Ok(puts)
}

/// A file as it is put.
fn put_file(alloc: Global, files: &TableFiles, file: u8) -> Result<Put, NoMemory>
    requires { file < TABLE_FILES }
    ensures { IfOk result (λ put. put_of put ≡ (file_name file, get_or files.now file [])) }
{
    let mut bytes = Text::make(alloc);
    bytes.push(files.bytes(file))?;
    Ok(Put {
        name: file_name(file),
        bytes,
    })
}
