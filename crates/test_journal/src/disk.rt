//! Disks in memory and in files.

ghost use Rattle.std.specs.Prelude.{◌≡◌, ◌+◌, ◌≤◌, length, OnOk, IfSome};

use crate::samples::{disk_of, is_image};
use dr_base::Failed;
use dr_disk::{Disk, FileDisk, GREATEST_LIMIT, MemDisk};
use std::alloc::Global;
use std::fs;
use std::fs::{OpenFile, OpenOptions};
use std::io::{Read, Seek, Write};

fn write_cut_and_sync(disk: &mut MemDisk) -> Result<(), Failed>
    requires length { length disk.old.bytes ≡ 6 }
    requires limit { 17 ≤ disk.old.limit }
{
    disk.write_at(4, b"XYZ")?;
    disk.cut(5)?;
    disk.sync()
}

// Whether a disk of six bytes, stopped after so many calls, has these images.
fn stops_with(alloc: Global, calls: u64, images: [&[u8]; 3]) -> bool {
    let Some(mut disk) = disk_of(alloc, b"abcdef", 17, Some(calls)) else {
        return false;
    };
    write_cut_and_sync(&mut disk).is_ok() == (calls == 3)
        && disk.sync() == Err(Failed)
        && is_image(alloc, &disk, 0, images[0])
        && is_image(alloc, &disk, 1, images[1])
        && is_image(alloc, &disk, 2, images[2])
}

#[test]
fn a_restart_finds_three_images_wherever_the_fuse_stops_the_disk(rt: HostRuntime) {
    let images: [[&[u8]; 3]; 4] = [
        [b"abcdef", b"abcdef", b"abcdef"],
        [b"abcdXYZ", b"abcdef", b"abcd\xA5\xA5\xA5"],
        [b"abcdX", b"abcdef", b"abcd\xA5"],
        [b"abcdX", b"abcdX", b"abcdX"],
    ];
    for calls in 0..4 {
        assert!(rt;
            stops_with(rt.alloc(), calls, images[calls as usize]),
            "after {calls}"
        );
    }
}

// The length, and four bytes from the second on, once four are written.
fn written(disk: &mut MemDisk) -> Result<(u64, [u8; 4]), Failed>
    requires length { length disk.old.bytes ≡ 3 }
    requires limit { 17 ≤ disk.old.limit }
{
    let mut buf = [b'.'; 4];
    disk.write_at(2, b"defg")?;
    let length = disk.len()?;
    disk.read_at(1, &mut buf)?;
    Ok((length, buf))
}

#[test]
fn a_disk_in_memory_without_a_fuse_never_fails(rt: HostRuntime) {
    let mut disk = disk_of(rt.alloc(), b"abc", 17, None).expect(&rt, "memory");
    assert!(rt; disk.limit() == 17);
    assert!(rt; written(&mut disk) == Ok((6, *b"bdef")));
    assert!(rt; disk.read_calls() == 1);
}

// A disk of so many zeros, which is full.
fn of_zeros(alloc: Global, size: u64) -> Option<MemDisk>
    requires least { 17 ≤ size }
    requires most { size ≤ GREATEST_LIMIT }
    ensures length { IfSome result (λ disk. length disk.bytes ≡ size) }
    ensures limit { IfSome result (λ disk. disk.limit ≡ size) }
{
    match vec![in alloc; 0; size as usize] {
        Ok(bytes) => MemDisk::new(alloc, bytes, size, None).ok(),
        Err(_) => None,
    }
}

fn write_both_ends_and_sync(disk: &mut MemDisk, last: u64) -> Result<(), Failed>
    requires last { last + 1 ≡ length disk.old.bytes }
    requires fits { last + 1 ≤ disk.old.limit }
    ensures length { OnOk result (length disk.new.bytes ≡ length disk.old.bytes) }
    ensures limit { OnOk result (disk.new.limit ≡ disk.old.limit) }
{
    disk.write_at(0, b"a")?;
    disk.write_at(last, b"z")?;
    disk.sync()?;
    Ok(())
}

// The last byte, once both ends are written and synced so often.
fn sync_often(disk: &mut MemDisk, last: u64) -> Result<[u8; 1], Failed>
    requires last { last + 1 ≡ length disk.old.bytes }
    requires fits { last + 1 ≤ disk.old.limit }
{
    for _ in 0..100_000 {
        write_both_ends_and_sync(disk, last)?;
    }
    let mut buf = [b'.'; 1];
    disk.read_at(last, &mut buf)?;
    Ok(buf)
}

// Copying the disk whole at each sync, this would take minutes.
#[test]
fn a_sync_costs_what_was_written_since_the_last(rt: HostRuntime) {
    let size: u64 = 16_777_216;
    let mut disk = of_zeros(rt.alloc(), size).expect(&rt, "memory");
    assert!(rt; sync_often(&mut disk, size - 1) == Ok(*b"z"));
}

// The length of the file at this path, opened anew.
fn length_of(rt: &HostRuntime, path: &str) -> Result<u64, Failed> {
    FileDisk::open(rt, path)?.len()
}

// Whether the file at this path can be opened as a disk.
fn opens(rt: &HostRuntime, path: &str) -> bool {
    FileDisk::open(rt, path).is_ok()
}

// Whether the file at this path, opened anew, tells this length.
fn has_length(rt: &HostRuntime, path: &str, length: Result<u64, Failed>) -> bool {
    length_of(rt, path) == length
}

// Four bytes from here on.
fn four_at<H: Read + Write + Seek + OpenFile>(
    disk: &mut FileDisk<H>,
    at: u64,
) -> Result<[u8; 4], Failed> {
    let mut buf = [b'.'; 4];
    disk.read_at(at, &mut buf)?;
    Ok(buf)
}

// Writes five bytes to an empty disk, by way of seven. Its length before.
fn write_five<H: Read + Write + Seek + OpenFile>(disk: &mut FileDisk<H>) -> Result<u64, Failed> {
    let length = disk.len()?;
    disk.write_at(0, b"abcdef")?;
    disk.write_at(4, b"XYZ")?;
    disk.cut(5)?;
    disk.sync()?;
    Ok(length)
}

// Whether five bytes can be written and read, and no byte behind them.
fn holds_five<H: Read + Write + Seek + OpenFile>(disk: &mut FileDisk<H>) -> bool {
    write_five(disk) == Ok(0) && four_at(disk, 1) == Ok(*b"bcdX") && four_at(disk, 2) == Err(Failed)
}

#[test]
fn a_file_of_the_system_is_a_disk(rt: HostRuntime) {
    let path = "a_file_of_the_system_is_a_disk";
    let mut disk = FileDisk::open(&rt, path).expect(&rt, "a file");
    assert!(rt; disk.limit() == GREATEST_LIMIT);
    assert!(rt; holds_five(&mut disk));
    assert!(rt; has_length(&rt, path, Ok(5)));
    assert!(rt; fs::remove_file(&rt, path).is_ok());
    assert!(rt; !opens(&rt, "no_such_folder/file"));
}

// Whether the file at this path could be made so long.
fn lengthen(rt: &HostRuntime, path: &str, length: u64) -> bool {
    match OpenOptions::new().write(true).open(rt, path) {
        Ok(file) => file.set_len(length).is_ok(),
        Err(_) => false,
    }
}

// What a disk of the file at this path tells of its length, once the file is so long.
fn grown(rt: &HostRuntime, path: &str, length: u64) -> Result<u64, Failed> {
    let mut disk = FileDisk::open(rt, path)?;
    if !lengthen(rt, path, length) {
        return Ok(0);
    }
    disk.len()
}

// Whether an open disk tells this of its length, once the file at its path is so long.
fn grows(rt: &HostRuntime, path: &str, length: u64, told: Result<u64, Failed>) -> bool {
    grown(rt, path, length) == told
}

#[test]
fn a_file_longer_than_the_limit_is_no_disk(rt: HostRuntime) {
    let path = "a_file_longer_than_the_limit_is_no_disk";
    assert!(rt; grows(&rt, path, GREATEST_LIMIT, Ok(GREATEST_LIMIT)));
    assert!(rt; has_length(&rt, path, Ok(GREATEST_LIMIT)));
    assert!(rt; grows(&rt, path, GREATEST_LIMIT + 1, Err(Failed)));
    assert!(rt; !opens(&rt, path));
    assert!(rt; fs::remove_file(&rt, path).is_ok());
}
