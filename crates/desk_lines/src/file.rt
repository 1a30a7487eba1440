// The table in a file. The answers are kept aside until the new table is on disk under the file's name: a crash leaves the old table or the new one,
// and no answer is printed whose table is not on disk.
ghost use Rattle.std.specs.Prelude.{◌≡◌, false, ◌+◌, ◌*◌, ◌≤◌, ◌<◌, length, take, drop, is_ok, IfOk, IfSome, OnOk};
ghost use Rattle.std.specs.Io.KnownBytes.{Consumes, IsAtEnd};
ghost use Rattle.std.specs.Str.{IsCharBoundary};
ghost use Rattle.window.specs.PasswordAt.{password_at};
ghost use Rattle.script.specs.Script.{stage_of};
ghost use Rattle.desk_lines.specs.Input.{ServesInput, ServesAll};
ghost use Rattle.desk_lines.specs.File.{IsBeside, file_stage};

use crate::arguments::{PATH_MAX, argument};
use crate::input::serve_input;
use arrayvec::ArrayString;
use row::ROW_BYTES;
use script::state::{Stage, Table};
use std::env::Env;
use std::fs::{Files, OpenFile, OpenOptions};
use std::io::{Error, ErrorKind, Read, Seek, Write};
use std::os::unix::fs::OpenOptionsExt;
use std::random::RandomSource;
use std::{fs, io, str};

// A path, and behind it the letters that make it the name of a new file. That a path fits is one clause: a type for paths is no plainer.
const NAME: usize = PATH_MAX + 7;

// Reads the table in a file.
fn load<R: Files>(rt: &R, path: &str, table: &mut Table) -> io::Result<()>
    ensures { OnOk result (table.new.stage.fresh ≡ false) }
{
    let mut file = fs::open(rt, path)?;
    read_table(&mut file, table)
}

// Reads the table: it has no rows if the file has no right length.
fn read_table<F: Read>(file: &mut F, table: &mut Table) -> io::Result<()>
    ensures stands { OnOk result (table.new.stage.fresh ≡ false) }
    ensures value { OnOk result (IfSome (F.remaining file.old) (λ xs. stage_of table.new ≡ file_stage xs)) }
{
    let len = read_full(file, &mut table.bytes)?;
    let mut more = [0u8; 1];
    let got = file.read(&mut more)?;
    table.stage = Stage {
        fresh: false,
        rows: 0,
    };
    if (0 < got) | (len % ROW_BYTES != 0) {
        return Ok(());
    }
    let rows = len / ROW_BYTES;
    table.stage = Stage { fresh: false, rows };
    Ok(())
}

// Reads until the table is full or the file ends, and answers how many bytes that are.
fn read_full<F: Read>(file: &mut F, table: &mut [u8]) -> io::Result<usize>
    ensures upper_bound { IfOk result (λ len. len ≤ length table.new) }
    ensures taken { IfOk result (λ len. Consumes (F.remaining file.old) (F.remaining file.new) (take len table.new)) }
    ensures end { IfOk result (λ len. len < length table.new → IsAtEnd (F.remaining file.new)) }
{
    let mut len = 0;
    // A `while`, since each turn reads as much as the file gives.
    while len < table.len() {
        let got = read_behind(file, table, len)?;
        if got == 0 {
            return Ok(len);
        }
        len += got;
    }
    Ok(len)
}

// Reads behind the first len bytes of the table, and answers how many bytes it read, none at the end of the file.
fn read_behind<F: Read>(file: &mut F, table: &mut [u8], len: usize) -> io::Result<usize>
    requires { len < length table.old }
    ensures front { take len table.new ≡ take len table.old }
    ensures upper_bound { IfOk result (λ got. len + got ≤ length table.new) }
    ensures taken { IfOk result (λ got. Consumes (F.remaining file.old) (F.remaining file.new) (take got (drop len table.new))) }
    ensures end { IfOk result (λ got. got ≡ 0 → IsAtEnd (F.remaining file.new)) }
{
    file.read(&mut table[len..])
}

// A new file that is open for reading and writing, and its name.
#[derive(Drop)]
pub(crate) struct Made<F> {
    pub(crate) file: F,
    pub(crate) name: ArrayString<NAME>,
}

// A path with a dot and six letters behind it.
fn name_beside(path: &str, letters: [u8; 6]) -> ArrayString<NAME>
    requires { length path.now ≤ 4096 }
    ensures { IsBeside path.now result.bytes }
{
    let mut name = ArrayString::new();
    name.push_str(path);
    name.push('.');
    for letter in letters {
        name.push(char::from(b'a' + letter % 26));
    }
    name
}

// How many names are tried until one is new.
const TRIES: usize = 62 * 62 * 62;

// Makes a file beside path, which its owner alone can read.
fn create_beside<R: Files + RandomSource>(rt: &R, path: &str) -> io::Result<Made<R::File>>
    requires { length path.now ≤ 4096 }
    ensures { IfOk result (λ made. IsBeside path.now made.name.bytes) }
{
    for _ in 0..TRIES {
        let mut letters = [0u8; 6];
        rt.fill_bytes(&mut letters)?;
        let name = name_beside(path, letters);
        match create_new(rt, name.as_str()) {
            Ok(file) => return Ok(Made { file, name }),
            Err(error) => {
                if error.kind() != ErrorKind::AlreadyExists {
                    return Err(error);
                }
            }
        }
    }
    Err(Error::from(ErrorKind::AlreadyExists))
}

fn create_new<R: Files>(rt: &R, name: &str) -> io::Result<R::File> {
    OpenOptions::new()
        .read(true)
        .write(true)
        .create_new(true)
        .mode(0o600)
        .open(rt, name)
}

// A file for the answers that no folder lists, so that it goes with the program.
fn open_answers<R: Files + RandomSource>(rt: &R, path: &str) -> io::Result<R::File>
    requires { length path.now ≤ 4096 }
{
    let made = create_beside(rt, path)?;
    fs::remove_file(rt, made.name.as_str())?;
    Ok(made.file)
}

// Writes all of the table, and waits until it is on disk.
fn write_table<F: Write + OpenFile>(file: &mut F, table: &[u8]) -> io::Result<()> {
    file.write_all(table)?;
    file.sync_all()
}

// How many bytes of a path name its folder: those up to the last slash.
fn folder_length(path: &str) -> usize
    ensures upper_bound { result ≤ length path.now }
    ensures boundary { IsCharBoundary path.now result }
{
    match path.rfind('/') {
        Some(slash) => slash + 1,
        None => 0,
    }
}

// Waits until the folder's new entry is on disk.
fn flush_folder<R: Files>(rt: &R, path: &str) -> io::Result<()> {
    let n = folder_length(path);
    let folder = if n == 0 {
        fs::open(rt, ".")?
    } else {
        fs::open(rt, &path[0..n])?
    };
    folder.sync_all()
}

// Replaces the file whole by a new one with the table.
fn replace<R: Files + RandomSource>(rt: &R, path: &str, table: &[u8]) -> io::Result<()>
    requires { length path.now ≤ 4096 }
{
    let mut made = create_beside(rt, path)?;
    let written = write_table(&mut made.file, table);
    if written.is_err() {
        return discard(rt, made.name.as_str(), written);
    }
    let renamed = fs::rename(rt, made.name.as_str(), path);
    if renamed.is_err() {
        return discard(rt, made.name.as_str(), renamed);
    }
    flush_folder(rt, path)
}

// Removes a new file that was of no use, and answers why it was not.
fn discard(rt: &impl Files, name: &str, why: io::Result<()>) -> io::Result<()>
    ensures { result ≡ why }
{
    let _ = fs::remove_file(rt, name);
    why
}

// Serves the input on the table that the file held, keeps the answers aside and saves the table.
fn serve_file<R: Files + RandomSource, I: Read>(
    rt: &R,
    input: &mut I,
    path: &str,
    table: &mut Table,
    answers: &mut R::File,
) -> io::Result<()>
    requires path_len_bound { length path.now ≤ 4096 }
    requires stands { table.old.stage.fresh ≡ false }
    ensures serves_input { ServesInput password_at (is_ok result) (stage_of table.old) (stage_of table.new) }
    ensures serves_all { OnOk result (ServesAll password_at (I.remaining input.old) (R.File.contents answers.old) (R.File.contents answers.new) (stage_of table.old) (stage_of table.new)) }
{
    serve_input(input, answers, table)?;
    let rows = table.stage.rows;
    // A file that is no table stays as it is.
    if rows == 0 {
        return Ok(());
    }
    replace(rt, path, &table.bytes[..ROW_BYTES * rows])
}

// Prints the answers that were kept aside.
fn print_answers<F: Read + Seek, W: Write>(answers: &mut F, output: &mut W) -> io::Result<()> {
    let mut piece = [0u8; PATH_MAX];
    answers.rewind()?;
    for _ in 0..u64::MAX {
        let count = answers.read(&mut piece)?;
        if count == 0 {
            return Ok(());
        }
        output.write_all(&piece[0..count])?;
    }
    Err(Error::from(ErrorKind::TimedOut))
}

// Serves the input on the table in the file and saves it, and answers the file of the answers.
fn serve_saved<R: Files + RandomSource, I: Read>(
    rt: &R,
    input: &mut I,
    path: &str,
    table: &mut Table,
) -> io::Result<R::File>
    requires { length path.now ≤ 4096 }
{
    let mut answers = open_answers(rt, path)?;
    load(rt, path, table)?;
    serve_file(rt, input, path, table, &mut answers)?;
    Ok(answers)
}

// Serves the input on the table in the file that the program's argument names.
pub(crate) fn serve_argument<R: Files + Env + RandomSource + Eprint, I: Read, W: Write>(
    rt: &R,
    input: &mut I,
    output: &mut W,
    table: &mut Table,
) -> io::Result<()> {
    let mut name = [0u8; PATH_MAX];
    let n = argument(rt, 1, &mut name).unwrap_or(0);
    let Ok(path) = str::from_utf8(&name[0..n]) else {
        return not_saved(
            rt,
            output,
            "desk_lines",
            Error::from(ErrorKind::InvalidFilename),
        );
    };
    let mut answers = match serve_saved(rt, input, path, table) {
        Ok(answers) => answers,
        Err(error) => return not_saved(rt, output, path, error),
    };
    match print_answers(&mut answers, output) {
        Ok(()) => Ok(()),
        Err(error) => eprintln!(rt; "standard output: {error}"),
    }
}

// Tells why, and prints what no answer looks like in the place of all answers.
fn not_saved<W: Write>(rt: &impl Eprint, output: &mut W, path: &str, why: Error) -> io::Result<()> {
    let told = eprintln!(rt; "{path}: {why}");
    output.write_all(b"not saved\n")?;
    told
}
