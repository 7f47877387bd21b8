ghost use Rattle.std.specs.Prelude.{◌≡◌, if◌then◌else◌, length, IsTrue, ◌&&◌};
ghost use Rattle.std.specs.List.{list_all, slice_split};
ghost use Rattle.dr_base.specs.Names.{is_name};
ghost use Rattle.dr_base.specs.Paths.{is_path, is_slash};

use crate::inline_bytes::InlineBytes;
use crate::name::spells_name;
use std::marker::Model;

/// A folder: 1 to 8 names joined by `/`, at most 64 bytes in all.
#[derive(Clone, Copy, Debug, PartialEq, Eq)]
pub struct Path {
    text: InlineBytes<64>,
}

impl Model for Path {
    ghost use Rattle.std.specs.Prelude.{ℕ, List, IsTrue};
    ghost use Rattle.dr_base.specs.Paths.{is_path};

    ghost Value = { List ℕ };

    ghost view = { λ path. path.text };

    ghost invariant = { λ path. IsTrue (is_path path.text) };

    ghost inverse = { λ bytes. record { text = bytes } };
}

fn part_count(bytes: &[u8]) -> usize
    ensures { result ≡ length (slice_split is_slash bytes.now) }
{
    bytes.split(|byte| *byte == b'/').count()
}

fn all_parts_are_names(bytes: &[u8]) -> bool
    ensures { result ≡ list_all is_name (slice_split is_slash bytes.now) }
{
    bytes
        .split(|byte| *byte == b'/')
        .all(|part| spells_name(part))
}

fn spells_path(bytes: &[u8]) -> bool
    ensures { result ≡ is_path bytes.now }
{
    bytes.len() <= 64 && part_count(bytes) <= 8 && all_parts_are_names(bytes)
}

impl Path {
    /// The path that these bytes spell. `None` where they spell none.
    pub fn read(bytes: &[u8]) -> Option<Path>
        ensures { result ≡ (if is_path bytes.now then Some bytes.now else None) }
    {
        if !spells_path(bytes) {
            return None;
        }
        Some(Path {
            text: InlineBytes::new(bytes),
        })
    }

    /// The bytes of the path.
    pub fn bytes(&self) -> &[u8]
        ensures value { result.now ≡ self.now }
        ensures path { IsTrue (is_path result.now) }
    {
        self.text.as_slice()
    }
}
