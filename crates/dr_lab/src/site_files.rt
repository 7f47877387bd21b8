//! Files of a site: read whole, and replaced whole.

ghost use Rattle.std.specs.Prelude.{◌≡◌, ◌≢◌, ◌+◌, ◌≤◌, ◌++◌, Some, None, Ok, Err, IfOk, IfErr, length, codes, decimal};
ghost use Rattle.std.specs.IoError.{error_kind};
ghost use Rattle.arrayvec.specs.ArrayString.{array_string_len};
ghost use Rattle.dr_base.specs.Memory.{failed};
ghost use Rattle.dr_lab.specs.FileNames.{pair_file, machine_file, kept_file, beside};

use crate::fields::SmallText;
use crate::kept_lines::code_read;
use crate::kept_text::write_kept;
use crate::machine_text::{read_machine, write_machine};
use crate::opening::{opening_machine, opening_pair};
use crate::pair_text::{read_pair, write_pair};
use arrayvec::ArrayString;
use dr_base::Failed;
use dr_outside::{Kept, Pair, Post, Sides};
use itoa::Buffer;
use std::fs::{OpenFile, OpenOptions};
use std::io::{ErrorKind, Read, Write};
use std::rt::Files;
use std::{fs, io};

/// The name of a file.
pub(crate) type FileName = ArrayString<32>;

/// The length of the longest text of a file that is read whole.
const TEXT_MOST: u64 = 512;

fn push_text(name: &mut FileName, text: &str)
    requires { array_string_len name.old + length text.now ≤ 32 }
    ensures { name.new.bytes ≡ name.old.bytes ++ text.now }
{
    match name.try_push_str(text) {
        Ok(()) => {}
        Err(_) => unreachable!(),
    }
}

fn numbered(front: &str, number: u32, end: &str) -> FileName
    requires { length front.now + length end.now ≤ 18 }
    ensures text { result.bytes ≡ front.now ++ (decimal number ++ end.now) }
    ensures short { array_string_len result ≤ 28 }
{
    let mut name = FileName::new();
    let mut buffer = Buffer::new();
    push_text(&mut name, front);
    push_text(&mut name, buffer.format(number));
    push_text(&mut name, end);
    name
}

// The name of the file beside, which takes this one's place once it is written.
fn name_beside(name: &FileName) -> FileName
    requires { array_string_len name.now ≤ 28 }
    ensures { result.bytes ≡ beside name.now.bytes }
{
    let mut out = FileName::new();
    push_text(&mut out, name.as_str());
    push_text(&mut out, ".new");
    out
}

fn pair_file(pair: u32) -> FileName
    ensures text { result.bytes ≡ pair_file pair }
    ensures short { array_string_len result ≤ 28 }
{
    numbered("pair-", pair, ".site")
}

fn machine_file(machine: u32) -> FileName
    ensures text { result.bytes ≡ machine_file machine }
    ensures short { array_string_len result ≤ 28 }
{
    numbered("machine-", machine, ".site")
}

/// The name of the file of the commands that a machine ran.
pub(crate) fn kept_file(machine: u32) -> FileName
    ensures text { result.bytes ≡ kept_file machine }
    ensures short { array_string_len result ≤ 28 }
{
    numbered("machine-", machine, ".kept")
}

/// The name of the file of the commands of plans that ran.
pub(crate) fn runner_file() -> FileName
    ensures text { result.bytes ≡ codes "runner.kept" }
    ensures short { array_string_len result ≤ 28 }
{
    let mut name = FileName::new();
    push_text(&mut name, "runner.kept");
    name
}

// What the system made of a look for a file. `None` only where it told that there is none.
fn found<T: Drop>(look: io::Result<T>) -> Result<Option<T>, Failed>
    ensures there { IfOk look (λ file. result ≡ Ok (Some file)) }
    ensures none { IfErr look (λ e. error_kind e ≡ ErrorKind.NotFound → result ≡ Ok None) }
    ensures refused { IfErr look (λ e. error_kind e ≢ ErrorKind.NotFound → result ≡ Err failed) }
{
    match look {
        Ok(file) => Ok(Some(file)),
        Err(error) if error.kind() == ErrorKind::NotFound => Ok(None),
        Err(_) => Err(Failed),
    }
}

// The file of this name, open for reading. `None` where there is none.
fn open<F: Files>(rt: &F, name: &str) -> Result<Option<F::File>, Failed> {
    let mut how = OpenOptions::new();
    how.read(true);
    found(how.open(rt, name))
}

fn length_of<H: OpenFile>(file: &H) -> Result<u64, Failed> {
    match file.metadata() {
        Ok(data) => Ok(data.len()),
        Err(_) => Err(Failed),
    }
}

// The whole text of a file. One that is too long for the form is refused.
fn read_open<H: Read + OpenFile>(file: &mut H) -> Result<SmallText, Failed> {
    let len = length_of(file)?;
    if len > TEXT_MOST {
        return Err(Failed);
    }
    let mut bytes = [0; 512];
    let front = &mut bytes[..len as usize];
    if file.read_exact(front).is_err() {
        return Err(Failed);
    }
    let mut text = SmallText::new();
    match text.try_extend_from_slice(front) {
        Ok(()) => Ok(text),
        Err(_) => Err(Failed),
    }
}

// Writes a text to its end, and has the system keep it.
fn write_open<H: Write + OpenFile>(file: &mut H, text: &[u8]) -> Result<(), Failed> {
    match file.write_all(text) {
        Ok(()) => match file.sync_all() {
            Ok(()) => Ok(()),
            Err(_) => Err(Failed),
        },
        Err(_) => Err(Failed),
    }
}

// Has the system keep the names of the current folder's files. Without that a loss of power after a
// rename could bring the old file back.
fn sync_folder<F: Files>(rt: &F) -> Result<(), Failed> {
    let Some(folder) = open(rt, ".")? else {
        return Err(Failed);
    };
    match folder.sync_all() {
        Ok(()) => Ok(()),
        Err(_) => Err(Failed),
    }
}

// Puts the file beside in the file's place, for good.
fn replace<F: Files>(rt: &F, beside: &str, name: &str) -> Result<(), Failed> {
    match fs::rename(rt, beside, name) {
        Ok(()) => sync_folder(rt),
        Err(_) => Err(Failed),
    }
}

// A new file beside, for writing.
fn create<F: Files>(rt: &F, beside: &str) -> Result<F::File, Failed> {
    match fs::create(rt, beside) {
        Ok(file) => Ok(file),
        Err(_) => Err(Failed),
    }
}

// Writes a text beside the file and puts it in its place, so that a stop leaves the old text or the
// new one.
fn write_whole<F: Files>(rt: &F, name: &FileName, text: &[u8]) -> Result<(), Failed>
    requires { array_string_len name.now ≤ 28 }
{
    let beside = name_beside(name);
    let mut file = create(rt, beside.as_str())?;
    write_open(&mut file, text)?;
    drop(file);
    replace(rt, beside.as_str(), name.as_str())
}

/// A pair as its file says, or as it opens where there is none. `Failed` where the system refuses to
/// read it, or it isn't in the form.
pub(crate) fn read_pair_file<F: Files>(rt: &F, pair: u32) -> Result<Pair, Failed> {
    let Some(mut file) = open(rt, pair_file(pair).as_str())? else {
        return Ok(opening_pair());
    };
    let text = read_open(&mut file)?;
    match read_pair(text.as_slice()) {
        Some(pair) => Ok(pair),
        None => Err(Failed),
    }
}

/// Makes a pair's file say this. A stop leaves the old file or the new one.
pub(crate) fn write_pair_file<F: Files>(rt: &F, pair: u32, state: &Pair) -> Result<(), Failed> {
    write_whole(rt, &pair_file(pair), write_pair(state).as_slice())
}

/// A machine's posts as its file says, or as it opens where there is none.
pub(crate) fn read_machine_file<F: Files>(rt: &F, machine: u32) -> Result<Sides<Post>, Failed> {
    let Some(mut file) = open(rt, machine_file(machine).as_str())? else {
        return Ok(opening_machine());
    };
    let text = read_open(&mut file)?;
    match read_machine(text.as_slice()) {
        Some(sides) => Ok(sides),
        None => Err(Failed),
    }
}

/// Makes a machine's file say this. A stop leaves the old file or the new one.
pub(crate) fn write_machine_file<F: Files>(
    rt: &F,
    machine: u32,
    sides: &Sides<Post>,
) -> Result<(), Failed> {
    write_whole(rt, &machine_file(machine), write_machine(sides).as_slice())
}

// The code that an open file keeps for a token. The whole file must be in the form.
fn code_in<H: Read + OpenFile>(file: &mut H, token: u64) -> Result<Option<u8>, Failed> {
    let len = length_of(file)?;
    code_read(file, len, token)
}

/// The code that is kept for a token in the file of this name. There is none where there is no file.
pub(crate) fn code_kept<F: Files>(
    rt: &F,
    name: &FileName,
    token: u64,
) -> Result<Option<u8>, Failed> {
    match open(rt, name.as_str())? {
        Some(mut file) => code_in(&mut file, token),
        None => Ok(None),
    }
}

// A copy of the file beside it, open for writing at its end. It is empty where there is no file.
fn copy_beside<F: Files>(rt: &F, beside: &str, name: &str) -> Result<F::File, Failed> {
    if found(fs::copy(rt, name, beside))?.is_none() {
        return create(rt, beside);
    }
    let mut how = OpenOptions::new();
    how.append(true);
    match how.open(rt, beside) {
        Ok(file) => Ok(file),
        Err(_) => Err(Failed),
    }
}

/// Keeps one more command in the file of this name. A stop leaves the old file or the new one.
pub(crate) fn keep<F: Files>(rt: &F, name: &FileName, kept: &Kept) -> Result<(), Failed>
    requires { array_string_len name.now ≤ 28 }
{
    let beside = name_beside(name);
    let mut file = copy_beside(rt, beside.as_str(), name.as_str())?;
    write_open(&mut file, write_kept(kept).as_slice())?;
    drop(file);
    replace(rt, beside.as_str(), name.as_str())
}
