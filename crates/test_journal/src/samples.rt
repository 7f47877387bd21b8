//! Disks in memory, and what a restart finds of them.

ghost use Rattle.std.specs.Prelude.{◌≡◌, ◌≤◌, length, IfSome};

use dr_disk::{GREATEST_LIMIT, MemDisk};
use std::alloc::Global;

/// A disk in memory that reads these bytes. With a fuse it fails after so many calls.
pub fn disk_of(alloc: Global, bytes: &[u8], limit: u64, fuse: Option<u64>) -> Option<MemDisk>
    requires least { 17 ≤ limit }
    requires most { limit ≤ GREATEST_LIMIT }
    requires fits { length bytes.now ≤ limit }
    ensures bytes { IfSome result (λ disk. disk.bytes ≡ bytes.now) }
    ensures limit { IfSome result (λ disk. disk.limit ≡ limit) }
{
    match bytes.to_vec(alloc) {
        Ok(file) => MemDisk::new(alloc, file, limit, fuse).ok(),
        Err(_) => None,
    }
}

/// Whether a disk's image of this number is these bytes.
pub fn is_image(alloc: Global, disk: &MemDisk, pick: u32, bytes: &[u8]) -> bool
    requires { pick ≤ 2 }
{
    match disk.image(alloc, pick) {
        Ok(file) => file.as_slice() == bytes,
        Err(_) => false,
    }
}
