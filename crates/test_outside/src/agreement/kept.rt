//! The files of kept commands.

use crate::folder::Folder;
use dr_base::Side;
use dr_outside::Kept;
use std::alloc::{AllocError, Global};
use std::str;

fn side_word(side: Option<Side>) -> &'static str {
    match side {
        None => "none",
        Some(Side::A) => "A",
        Some(Side::B) => "B",
    }
}

// The line of a command. Its name is plain text.
fn line(alloc: Global, kept: &Kept) -> Result<String, AllocError> {
    let name = str::from_utf8(kept.name.bytes()).unwrap_or("");
    format!(in alloc;
        "token {} code {} side {} name {name}\n",
        kept.token,
        kept.code,
        side_word(kept.side)
    )
}

fn lines(alloc: Global, kept: &[Kept]) -> Result<String, AllocError> {
    let mut lines = String::new(alloc);
    for command in kept {
        let line = line(alloc, command)?;
        lines.push_str(line.as_str())?;
    }
    Ok(lines)
}

/// Whether a file has the lines of these commands alone, in this order.
pub fn keeps(alloc: Global, folder: &Folder, file: &str, kept: &[Kept]) -> bool {
    match lines(alloc, kept) {
        Ok(lines) => folder.holds(file, lines.as_bytes()),
        Err(_) => false,
    }
}
