//! Which calls of a disk over a file reach the system, and what a sync that fails leaves.

use crate::watched::{Syncs, WatchedFile, WatchedFiles};
use dr_base::Failed;
use dr_disk::{Disk, FileDisk};
use std::fs;
use std::fs::{OpenFile, OpenOptions};

type WatchedDisk<'a> = FileDisk<WatchedFile<'a>>;

// The files of the current folder.
fn files_of<'a>(
    rt: &'a HostRuntime,
    folder_syncs: &'a Syncs,
    file_syncs: &'a Syncs,
) -> WatchedFiles<'a> {
    WatchedFiles {
        rt,
        folder: ".",
        folder_syncs,
        file_syncs,
        tells_length: true,
    }
}

fn write_and_sync(disk: &mut WatchedDisk<'_>) -> Result<(), Failed> {
    disk.write_at(0, b"abc")?;
    disk.sync()
}

// Whether each call fails.
fn is_failed(disk: &mut WatchedDisk<'_>) -> bool {
    let mut buf = [b'.'; 1];
    disk.len() == Err(Failed)
        && disk.read_at(0, &mut buf) == Err(Failed)
        && disk.write_at(0, b"d") == Err(Failed)
        && disk.cut(0) == Err(Failed)
        && disk.sync() == Err(Failed)
}

// The first three bytes.
fn three(disk: &mut WatchedDisk<'_>) -> Result<[u8; 3], Failed> {
    let mut buf = [b'.'; 3];
    disk.read_at(0, &mut buf)?;
    Ok(buf)
}

// Whether a disk is failed after its second sync, and reads and syncs again once it is opened anew.
fn fails_until_opened_anew(files: &WatchedFiles<'_>, path: &str) -> Result<bool, Failed> {
    let mut disk = FileDisk::open(files, path)?;
    write_and_sync(&mut disk)?;
    let fails = write_and_sync(&mut disk) == Err(Failed) && is_failed(&mut disk);
    let mut anew = FileDisk::open(files, path)?;
    Ok(fails && three(&mut anew) == Ok(*b"abc") && write_and_sync(&mut anew) == Ok(()))
}

#[test]
fn a_failed_sync_fails_the_disk_until_it_is_opened_anew(rt: HostRuntime) {
    let path = "a_failed_sync_fails_the_disk_until_it_is_opened_anew";
    let folder_syncs = Syncs::new(0);
    let file_syncs = Syncs::new(2);
    let files = files_of(&rt, &folder_syncs, &file_syncs);
    assert!(rt; fails_until_opened_anew(&files, path) == Ok(true));
    // One before, one that failed, none on the failed disk, one on the new one.
    assert!(rt; file_syncs.calls() == 3);
    assert!(rt; fs::remove_file(&rt, path).is_ok());
}

// Whether a call that isn't a sync and fails leaves the disk as good as it was.
fn outlives_a_failed_read(disk: &mut WatchedDisk<'_>) -> bool {
    three(disk) == Err(Failed) && write_and_sync(disk) == Ok(()) && three(disk) == Ok(*b"abc")
}

#[test]
fn each_sync_reaches_the_system(rt: HostRuntime) {
    let path = "each_sync_reaches_the_system";
    let folder_syncs = Syncs::new(0);
    let file_syncs = Syncs::new(0);
    let files = files_of(&rt, &folder_syncs, &file_syncs);
    let mut disk = FileDisk::open(&files, path).expect(&rt, "a file");
    assert!(rt; file_syncs.calls() == 0);
    assert!(rt; outlives_a_failed_read(&mut disk));
    assert!(rt; file_syncs.calls() == 1);
    assert!(rt; disk.sync() == Ok(()));
    assert!(rt; file_syncs.calls() == 2);
    assert!(rt; fs::remove_file(&rt, path).is_ok());
}

// The bytes of a disk once more are written over a part of its first ones and behind them.
fn written_over(disk: &mut WatchedDisk<'_>) -> Result<[u8; 8], Failed> {
    let mut buf = [b'.'; 8];
    disk.write_at(0, b"abc")?;
    disk.write_at(1, b"BCDEFGH")?;
    disk.read_at(0, &mut buf)?;
    Ok(buf)
}

#[test]
fn reads_and_writes_go_on_where_the_system_takes_fewer_bytes(rt: HostRuntime) {
    let path = "reads_and_writes_go_on_where_the_system_takes_fewer_bytes";
    let syncs = Syncs::new(0);
    let files = files_of(&rt, &syncs, &syncs);
    let mut disk = FileDisk::open(&files, path).expect(&rt, "a file");
    assert!(rt; written_over(&mut disk) == Ok(*b"aBCDEFGH"));
    assert!(rt; disk.len() == Ok(8));
    assert!(rt; fs::remove_file(&rt, path).is_ok());
}

// Makes the file at this path, of so many bytes.
fn make(rt: &HostRuntime, path: &str, length: u64) -> bool {
    match OpenOptions::new().write(true).create(true).open(rt, path) {
        Ok(file) => file.set_len(length).is_ok(),
        Err(_) => false,
    }
}

// How often an opening syncs this folder and anything else. `None` where it fails.
fn opening_syncs(rt: &HostRuntime, path: &str, folder: &str, fails: u64) -> Option<(u64, u64)> {
    let folder_syncs = Syncs::new(fails);
    let file_syncs = Syncs::new(0);
    let files = WatchedFiles {
        folder,
        ..files_of(rt, &folder_syncs, &file_syncs)
    };
    match FileDisk::open(&files, path) {
        Ok(_) => Some((folder_syncs.calls(), file_syncs.calls())),
        Err(Failed) => None,
    }
}

#[test]
fn an_opening_keeps_the_name_of_a_file_that_may_be_new(rt: HostRuntime) {
    let path = "an_opening_keeps_the_name_of_a_file_that_may_be_new";
    // The file is made, and its folder's sync fails. The next opening tries that again.
    assert!(rt; opening_syncs(&rt, path, ".", 1).is_none());
    assert!(rt; opening_syncs(&rt, path, ".", 0) == Some((1, 0)));
    assert!(rt; make(&rt, path, 17));
    assert!(rt; opening_syncs(&rt, path, ".", 0) == Some((1, 0)));
    assert!(rt; make(&rt, path, 18));
    assert!(rt; opening_syncs(&rt, path, ".", 1) == Some((0, 0)));
    assert!(rt; fs::remove_file(&rt, path).is_ok());
}

#[test]
fn the_folder_of_a_file_is_its_parent(rt: HostRuntime) {
    let folder = "the_folder_of_a_file_is_its_parent";
    let path = "the_folder_of_a_file_is_its_parent/file";
    assert!(rt; fs::create_dir(&rt, folder).is_ok());
    assert!(rt; opening_syncs(&rt, path, folder, 0) == Some((1, 0)));
    assert!(rt; fs::remove_file(&rt, path).is_ok());
    assert!(rt; fs::remove_dir(&rt, folder).is_ok());
}

// Whether a file whose length the system doesn't tell is opened.
fn opens_untold(rt: &HostRuntime, path: &str) -> bool {
    let syncs = Syncs::new(0);
    let files = WatchedFiles {
        tells_length: false,
        ..files_of(rt, &syncs, &syncs)
    };
    FileDisk::open(&files, path).is_ok()
}

#[test]
fn a_file_without_a_length_is_no_disk(rt: HostRuntime) {
    let path = "a_file_without_a_length_is_no_disk";
    assert!(rt; !opens_untold(&rt, path));
    assert!(rt; fs::remove_file(&rt, path).is_ok());
}
