//! Disks.

ghost use Rattle.std.specs.Prelude.{◌≡◌, ◌≤◌, length, IfSome};

use super::random::{CALLS, Random, SEQUENCES};
use crate::folder::{Folder, Here};
use dr_base::Failed;
use dr_disk::{Disk, FileDisk, MemDisk};
use std::alloc::Global;
use std::fs::OpenFile;
use std::io::{Read, Seek, Write};

// The limit of the disk in memory; the file stays below it too.
const LIMIT: u32 = 64;

// How many bytes a call takes at most.
const MOST: u32 = 16;

// Whether both read the same bytes from some place on.
fn read_alike<H: Read + Write + Seek + OpenFile>(
    random: &mut Random,
    at: u32,
    len: u64,
    memory: &mut MemDisk,
    file: &mut FileDisk<H>,
) -> Result<bool, Failed>
    requires len { length memory.old.bytes ≡ len }
    requires inside { at ≤ len }
    ensures { memory.new.limit ≡ memory.old.limit }
{
    let size = (random.below(MOST + 1) as u64).min(len - at as u64) as usize;
    let mut one = [0; 16];
    let mut other = [0; 16];
    memory.read_at(at as u64, &mut one[..size])?;
    file.read_at(at as u64, &mut other[..size])?;
    Ok(one == other)
}

fn some_bytes(random: &mut Random) -> [u8; 16] {
    let mut bytes = [0; 16];
    for k in 0..16 {
        bytes[k] = random.below(256) as u8;
    }
    bytes
}

// Writes the same random bytes to both.
fn write_both<H: Read + Write + Seek + OpenFile>(
    random: &mut Random,
    at: u32,
    memory: &mut MemDisk,
    file: &mut FileDisk<H>,
) -> Result<(), Failed>
    requires limit { memory.old.limit ≡ 64 }
    requires within { at ≤ 64 }
    requires inside { at ≤ length memory.old.bytes }
    ensures { memory.new.limit ≡ 64 }
{
    let bytes = some_bytes(random);
    let size = random.below(MOST + 1).min(LIMIT - at) as usize;
    memory.write_at(at as u64, &bytes[..size])?;
    file.write_at(at as u64, &bytes[..size])
}

// Whether both answer one random call alike.
fn agree_once<H: Read + Write + Seek + OpenFile>(
    random: &mut Random,
    memory: &mut MemDisk,
    file: &mut FileDisk<H>,
) -> Result<bool, Failed>
    requires { memory.old.limit ≡ 64 }
    ensures { memory.new.limit ≡ 64 }
{
    let len = memory.len()?;
    let at = random.below(len as u32 + 1);
    match random.below(5) {
        0 => return Ok(file.len()? == len),
        1 => return read_alike(random, at, len, memory, file),
        2 => write_both(random, at, memory, file)?,
        3 => {
            memory.cut(at as u64)?;
            file.cut(at as u64)?;
        }
        _ => {
            memory.sync()?;
            file.sync()?;
        }
    }
    Ok(true)
}

// Whether both hold the same bytes.
fn are_alike<H: Read + Write + Seek + OpenFile>(
    memory: &mut MemDisk,
    file: &mut FileDisk<H>,
) -> Result<bool, Failed>
    requires { memory.old.limit ≡ 64 }
{
    let len = memory.len()?;
    if file.len()? != len {
        return Ok(false);
    }
    let mut one = [0; 64];
    let mut other = [0; 64];
    memory.read_at(0, &mut one[..len as usize])?;
    file.read_at(0, &mut other[..len as usize])?;
    Ok(one == other)
}

fn agree<H: Read + Write + Seek + OpenFile>(
    random: &mut Random,
    memory: &mut MemDisk,
    file: &mut FileDisk<H>,
) -> Result<bool, Failed>
    requires { memory.old.limit ≡ 64 }
{
    for _ in 0..CALLS {
        if !agree_once(random, memory, file)? {
            return Ok(false);
        }
    }
    are_alike(memory, file)
}

fn in_memory(alloc: Global) -> Option<MemDisk>
    ensures { IfSome result (λ disk. disk.limit ≡ 64) }
{
    MemDisk::new(alloc, Vec::new(alloc), LIMIT as u64, None).ok()
}

// Whether disks answer a sequence of calls alike, and end alike.
fn a_sequence_agrees(alloc: Global, random: &mut Random) -> bool {
    let folder = Folder::new(alloc);
    let (Some(mut memory), Ok(mut file)) = (
        in_memory(alloc),
        FileDisk::open(&Here { folder: &folder }, "disk"),
    ) else {
        return false;
    };
    agree(random, &mut memory, &mut file) == Ok(true)
}

#[test]
fn a_file_does_what_a_disk_in_memory_does(rt: HostRuntime) {
    let mut random = Random::new(45);
    for k in 0..SEQUENCES {
        assert!(rt; a_sequence_agrees(rt.alloc(), &mut random), "{k}");
    }
}
