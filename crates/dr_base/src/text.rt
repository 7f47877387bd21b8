ghost use Rattle.std.specs.Prelude.{◌≡◌, if◌then◌else◌, IsTrue};
ghost use Rattle.std.specs.List.{list_all};
ghost use Rattle.dr_base.specs.Texts.{is_text, is_printable};

use crate::inline_bytes::InlineBytes;
use std::marker::Model;

/// The text of a prompt: 1 to 128 bytes from space to `~`.
#[derive(Clone, Copy, Debug, PartialEq, Eq)]
pub struct Text {
    text: InlineBytes<128>,
}

impl Model for Text {
    ghost use Rattle.std.specs.Prelude.{ℕ, List, IsTrue};
    ghost use Rattle.dr_base.specs.Texts.{is_text};

    ghost Value = { List ℕ };

    ghost view = { λ text. text.text };

    ghost invariant = { λ text. IsTrue (is_text text.text) };

    ghost inverse = { λ bytes. record { text = bytes } };
}

fn all_printable(bytes: &[u8]) -> bool
    ensures { result ≡ list_all is_printable bytes.now }
{
    bytes.iter().all(|byte| b' ' <= *byte && *byte <= b'~')
}

fn spells_text(bytes: &[u8]) -> bool
    ensures { result ≡ is_text bytes.now }
{
    1 <= bytes.len() && bytes.len() <= 128 && all_printable(bytes)
}

impl Text {
    /// The text that these bytes spell. `None` where they spell none.
    pub fn read(bytes: &[u8]) -> Option<Text>
        ensures { result ≡ (if is_text bytes.now then Some bytes.now else None) }
    {
        if !spells_text(bytes) {
            return None;
        }
        Some(Text {
            text: InlineBytes::new(bytes),
        })
    }

    /// The bytes of the text.
    pub fn bytes(&self) -> &[u8]
        ensures value { result.now ≡ self.now }
        ensures text { IsTrue (is_text result.now) }
    {
        self.text.as_slice()
    }
}
