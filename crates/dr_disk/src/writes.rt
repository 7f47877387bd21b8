ghost use Rattle.std.specs.Prelude.{◌≡◌, ◌+◌, ◌≤◌, length, replicate, vec_len, vec_capacity};
ghost use Rattle.dr_disk.specs.Disk.{written};

// Puts bytes over what stands at a place and past the end, within the room.
pub(crate) fn put(file: &mut Vec<u8>, at: usize, bytes: &[u8])
    requires inside { at ≤ vec_len file.old }
    requires room { at + length bytes.now ≤ vec_capacity file.old }
    ensures items { file.new.items ≡ written at bytes.now file.old.items }
    ensures capacity { vec_capacity file.old ≤ vec_capacity file.new }
{
    let over = bytes.len().min(file.len() - at);
    let (front, back) = bytes.split_at(over);
    file[at..at + over].copy_from_slice(front);
    if file.extend_from_slice(back).is_err() {
        unreachable!();
    }
}

// Puts 0xA5 there in place of each of these bytes.
pub(crate) fn blot(file: &mut Vec<u8>, at: usize, bytes: &[u8])
    requires inside { at ≤ vec_len file.old }
    requires room { at + length bytes.now ≤ vec_capacity file.old }
    ensures items { file.new.items ≡ written at (replicate (length bytes.now) 165) file.old.items }
    ensures capacity { vec_capacity file.old ≤ vec_capacity file.new }
{
    put(file, at, bytes);
    file[at..at + bytes.len()].fill(0xA5);
}
