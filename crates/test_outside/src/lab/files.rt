//! Files of tests. Each test has pairs and machines of its own, since the tests share a folder.

use std::alloc::{AllocError, Global};
use std::fs;

/// Removes a file, if it is there.
pub fn remove(rt: &HostRuntime, name: &str) {
    let _ = fs::remove_file(rt, name);
}

/// Whether a file is there.
pub fn is_there(rt: &HostRuntime, name: &str) -> bool {
    match fs::exists(rt, name) {
        Ok(there) => there,
        Err(_) => false,
    }
}

/// Whether a file could be written.
pub fn writes(rt: &HostRuntime, name: &str, text: &str) -> bool {
    fs::write(rt, name, text).is_ok()
}

/// Whether a file has this text.
pub fn holds(rt: &HostRuntime, name: &str, text: &str) -> bool {
    match fs::read_to_string(rt, name) {
        Ok(found) => found.as_str() == text,
        Err(_) => false,
    }
}

/// Whether a folder could be put in the place of a file to be written, where the write then fails.
pub fn blocks(rt: &HostRuntime, name: &str) -> bool {
    let _ = fs::remove_dir(rt, name);
    fs::create_dir(rt, name).is_ok()
}

/// Whether such a folder could be taken away.
pub fn frees(rt: &HostRuntime, name: &str) -> bool {
    fs::remove_dir(rt, name).is_ok()
}

/// The text with the first `from` in it made `to`.
pub fn changed(alloc: Global, text: &str, from: &str, to: &str) -> Result<String, AllocError> {
    let Some((front, back)) = text.split_once(from) else {
        return String::from_str(alloc, text);
    };
    let mut out = String::from_str(alloc, front)?;
    out.push_str(to)?;
    out.push_str(back)?;
    Ok(out)
}
