ghost use Rattle.std.specs.Prelude.{◌≡◌, ◌==◌, IsTrue, string_bytes, bytes_eq};
ghost use Rattle.std.specs.List.{list_all};
ghost use Rattle.param_expr.specs.Words.{is_letter, is_digit, is_word_byte, is_name, is_reserved, starts_with_letter};

use crate::limits::MAX_NAME_BYTES;
use std::marker::Model;

/// A name, which contracts see as its bytes.
#[derive(Clone, Debug, Drop)]
pub struct Name {
    written: String,
}

impl Model for Name {
    ghost use Rattle.std.specs.Prelude.{List, ℕ, string_bytes};

    ghost Value = { List ℕ };

    ghost view = { λ n. string_bytes n.written };
}

impl Name {
    /// A name with this text, whatever it is.
    pub fn new(text: String) -> Self
        ensures { result ≡ string_bytes text }
    {
        Name { written: text }
    }

    /// Its text.
    pub fn text(&self) -> &str
        ensures { result.now ≡ self.now }
    {
        self.written.as_str()
    }
}

impl PartialEq for Name {
    ghost use Rattle.std.specs.Str.{bytes_eq};
    ghost use Rattle.std.proofs.Common.{rules};
    ghost use Rattle.std.specs.Cmp.Rules.{comparing};

    ghost eq = { bytes_eq };

    ghost laws = { Prim.search (comparing, rules) };

    fn eq(&self, other: &Name) -> bool {
        self.text() == other.text()
    }
}

impl Eq for Name {
    ghost use Rattle.std.proofs.Common.{rules};
    ghost use Rattle.std.specs.Cmp.Rules.{comparing};

    ghost laws = { Prim.search (comparing, rules) };
}

/// An ASCII letter or `_`.
pub(crate) fn is_letter(byte: u8) -> bool
    ensures { result ≡ is_letter byte }
{
    byte.is_ascii_alphabetic() || byte == b'_'
}

/// An ASCII letter, a digit or `_`.
pub(crate) fn is_word_byte(byte: u8) -> bool
    ensures { result ≡ is_word_byte byte }
{
    is_letter(byte) || byte.is_ascii_digit()
}

fn starts_with_letter(bytes: &[u8]) -> bool
    ensures { result ≡ starts_with_letter bytes.now }
{
    match bytes {
        [] => false,
        [first, ..] => is_letter(*first),
    }
}

/// `min` and `max`, which are no names.
fn is_reserved(bytes: &[u8]) -> bool
    ensures { result ≡ is_reserved bytes.now }
{
    bytes == b"min".as_slice() || bytes == b"max".as_slice()
}

fn has_word_bytes_alone(bytes: &[u8]) -> bool
    ensures { result ≡ list_all is_word_byte bytes.now }
{
    bytes.iter().all(|byte| is_word_byte(*byte))
}

/// Whether a text is a name: one ASCII letter or `_`, then ASCII letters, digits and `_`, at most
/// `MAX_NAME_BYTES` bytes, and neither `min` nor `max`.
pub fn is_name(text: &str) -> bool
    ensures { result ≡ is_name text.now }
{
    let bytes = text.as_bytes();
    starts_with_letter(bytes)
        && has_word_bytes_alone(bytes)
        && bytes.len() <= MAX_NAME_BYTES
        && !is_reserved(bytes)
}
