ghost use Rattle.std.specs.Prelude.{◌≡◌, ◌≤◌, length};
ghost use Rattle.dr_base.specs.Padded.{padded};

use std::cmp::Ordering;
use std::marker::Model;

/// At most `CAP` bytes that lie in the value itself, compared as slices are. Contracts see the bytes.
#[derive(Clone, Copy, Debug)]
pub struct InlineBytes<const CAP: usize> {
    bytes: [u8; CAP],
    len: usize,
}

impl<const CAP: usize> Model for InlineBytes<CAP> {
    ghost use Rattle.std.specs.Prelude.{ℕ, List, length, take};
    ghost use Rattle.dr_base.specs.Padded.{IsPadded, padded, padded-text, length-text};

    ghost Value = { List ℕ };

    ghost view = { λ text. take text.len text.bytes };

    ghost invariant = { λ text. IsPadded CAP text.bytes text.len };

    ghost inverse = { λ bytes. record { bytes = padded CAP bytes; len = length bytes } };

    ghost inverse_ok = { λ text h i. record { bytes = padded-text CAP text.bytes text.len h i; len = length-text CAP text.bytes text.len h i } };
}

// The bytes, filled up with zeros.
fn filled_up<const CAP: usize>(bytes: &[u8]) -> [u8; CAP]
    requires { length bytes.now ≤ CAP }
    ensures { result ≡ padded CAP bytes.now }
{
    let mut text = [0; CAP];
    text[..bytes.len()].copy_from_slice(bytes);
    text
}

impl<const CAP: usize> InlineBytes<CAP> {
    /// These bytes.
    pub fn new(bytes: &[u8]) -> Self
        requires { length bytes.now ≤ CAP }
        ensures { result ≡ bytes.now }
    {
        InlineBytes {
            bytes: filled_up(bytes),
            len: bytes.len(),
        }
    }

    /// The bytes.
    pub fn as_slice(&self) -> &[u8]
        ensures value { result.now ≡ self.now }
        ensures fits { length result.now ≤ CAP }
    {
        &self.bytes[..self.len]
    }
}

impl<const CAP: usize> PartialEq for InlineBytes<CAP> {
    ghost use Rattle.std.specs.Prelude.{bytes_eq};
    ghost use Rattle.std.specs.Cmp.{partial_equiv_from_equiv};
    ghost use Rattle.std.specs.Cmp.Lexicographic.{nat_list_eq_equiv};

    ghost eq = { bytes_eq };

    ghost laws = { partial_equiv_from_equiv nat_list_eq_equiv };

    fn eq(&self, other: &Self) -> bool {
        self.as_slice() == other.as_slice()
    }
}

impl<const CAP: usize> Eq for InlineBytes<CAP> {
    ghost use Rattle.std.specs.Cmp.Lexicographic.{nat_list_eq_equiv};

    ghost laws = { nat_list_eq_equiv };
}

impl<const CAP: usize> PartialOrd for InlineBytes<CAP> {
    ghost use Rattle.std.specs.Prelude.{Some};
    ghost use Rattle.std.specs.Ordering.{nat_cmp};
    ghost use Rattle.std.specs.Cmp.Lexicographic.{slice_cmp, texts_po};

    ghost partial_cmp = { λ x y. Some (slice_cmp nat_cmp x y) };

    ghost laws = { texts_po };

    fn partial_cmp(&self, other: &Self) -> Option<Ordering> {
        Some(self.cmp(other))
    }
}

impl<const CAP: usize> Ord for InlineBytes<CAP> {
    ghost use Rattle.std.specs.Prelude.{refl};
    ghost use Rattle.std.specs.Ordering.{nat_cmp};
    ghost use Rattle.std.specs.Cmp.Lexicographic.{slice_cmp, nat_list_cmp_total, texts_ties};

    ghost cmp = { slice_cmp nat_cmp };

    ghost total = { nat_list_cmp_total };

    ghost matches_partial_cmp = { λ x y. refl };

    ghost matches_eq = { texts_ties };

    fn cmp(&self, other: &Self) -> Ordering {
        self.as_slice().cmp(other.as_slice())
    }
}
