//! Files of many kept commands, which are read in pieces.

use crate::folder::{Folder, Here};
use dr_base::Side;
use dr_lab::FilePort;
use dr_outside::{Port, PortFail};
use std::alloc::{AllocError, Global};
use std::fs;

// How many commands there are: their lines have more than 20,000 bytes.
const COMMANDS: u64 = 200;

// The longest name.
const NAME: &str = "a123456789b123456789c123456789d123456789e123456789f123456789-123";

const FILE: &str = "machine-7.kept";

// The token of a command. The last one is the greatest of all.
fn token(k: u64) -> u64 {
    18_446_744_073_709_551_615 - COMMANDS + 1 + k.min(COMMANDS - 1)
}

// The lines of the commands, of the greatest length.
fn lines(alloc: Global) -> Result<String, AllocError> {
    let mut text = String::new(alloc);
    for k in 0..COMMANDS {
        text.push_str(&format!(in alloc;
            "token {} code {} side none name {NAME}\n",
            token(k),
            100 + k % 156
        )?)?;
    }
    Ok(text)
}

// Whether a folder's file could be written.
fn writes(folder: &Folder, text: &str) -> bool {
    fs::write(&Here { folder }, FILE, text).is_ok()
}

// Whether the code of every seventh command is found, the last one's too, and none of a token that
// no command has.
fn finds_codes(folder: &Folder) -> bool {
    let mut port = FilePort::new(Here { folder }, 7);
    for step in 0..29 {
        let k = 3 + 7 * step;
        if port.ran(Side::A, token(k)) != Ok(Some((100 + k % 156) as u8)) {
            return false;
        }
    }
    port.ran(Side::B, 1) == Ok(None)
}

// Whether no code is found, since the file isn't in the form.
fn is_refused(folder: &Folder) -> bool {
    FilePort::new(Here { folder }, 7).ran(Side::A, token(0)) == Err(PortFail::Failed)
}

// Whether the file of all lines is refused with this text in place of the last line feed.
fn refuses_end(alloc: Global, folder: &Folder, lines: &str, end: &str) -> bool {
    let Some(front) = lines.strip_suffix("\n") else {
        return false;
    };
    match format!(in alloc; "{front}{end}") {
        Ok(text) => writes(folder, text.as_str()) && is_refused(folder),
        Err(_) => false,
    }
}

#[test]
fn a_token_is_looked_up_in_a_file_of_many_pieces(rt: HostRuntime) {
    let folder = Folder::new(rt.alloc());
    let lines = lines(rt.alloc()).expect(&rt, "memory");
    assert!(rt; lines.len() > 20_000);
    assert!(rt; writes(&folder, lines.as_str()));
    assert!(rt; finds_codes(&folder));
    for end in [
        "",
        " \n",
        "\n\n",
        "\ntoken 1",
        "\ntoken 1 code 0 side none name w",
    ] {
        assert!(rt;
            refuses_end(rt.alloc(), &folder, lines.as_str(), end),
            "{end}"
        );
    }
}
