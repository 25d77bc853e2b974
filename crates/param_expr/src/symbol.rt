ghost use Rattle.std.specs.Prelude.{◌≡◌, ◌-◌, ◌<◌, ◌^◌, IfOk, IsTrue, if◌then◌else◌, length};
ghost use Rattle.std.specs.List.{list_all, prefix_len};
ghost use Rattle.std.specs.Str.Parse.{digits_value};
ghost use Rattle.param_expr.specs.Words.{is_digit, is_name, is_word_byte};
ghost use Rattle.param_expr.specs.Tokens.{front, mark_of, word_token};
ghost use Rattle.param_expr.specs.Machine.{large_after, limited, symbol_of, tally_after};

use crate::name::{Name, is_letter, is_name, is_word_byte};
use crate::op::Op;
use std::alloc::{AllocError, Global};
use std::str;

/// A token, as the parser takes it.
#[derive(Drop)]
pub(crate) enum Symbol {
    /// A number, if `i64` has it.
    Number(Option<i64>),
    Word(Name),
    /// `+` and `-`.
    Additive(Op),
    /// `*`, `/` and `%`.
    Multiplicative(Op),
    /// `min` and `max`.
    Function(Op),
    Open,
    Close,
    Comma,
    /// What is no token of the grammar.
    Other,
}

/// What is asked of a text besides its grammar.
#[derive(Clone, Copy)]
pub(crate) struct Tally {
    /// Where the first number over `i64` begins.
    pub(crate) large: Option<u32>,
    /// How many parentheses are open.
    pub(crate) opened: u32,
    /// The most that were open at once.
    pub(crate) deepest: u32,
}

impl Tally {
    ghost use Rattle.param_expr.specs.Machine.{no_tally};

    pub(crate) fn none() -> Tally
        ensures { result ≡ no_tally }
    {
        Tally {
            large: None,
            opened: 0,
            deepest: 0,
        }
    }

    fn large_after(self, at: u32, symbol: &Symbol) -> Option<u32>
        ensures { result ≡ large_after self.large at symbol.now }
    {
        match symbol {
            Symbol::Number(None) => self.large.or(Some(at)),
            _ => self.large,
        }
    }

    /// After a symbol.
    pub(crate) fn after(self, at: u32, symbol: &Symbol) -> Tally
        requires { self.opened < 2 ^ 32 - 1 }
        ensures { result ≡ tally_after self at symbol.now }
    {
        let opened = match symbol {
            Symbol::Open => self.opened + 1,
            Symbol::Close => self.opened.saturating_sub(1),
            _ => self.opened,
        };
        Tally {
            large: self.large_after(at, symbol),
            opened,
            deepest: self.deepest.max(opened),
        }
    }
}

/// How many digits stand at the front.
fn digits_len(bytes: &[u8]) -> usize
    ensures { result ≡ prefix_len is_digit bytes.now }
{
    bytes
        .iter()
        .take_while(|byte| byte.is_ascii_digit())
        .count()
}

/// How many letters, digits and `_` stand at the front.
fn word_len(bytes: &[u8]) -> usize
    ensures { result ≡ prefix_len is_word_byte bytes.now }
{
    bytes.iter().take_while(|byte| is_word_byte(**byte)).count()
}

/// The number that digits write, if `i64` has it.
fn number(digits: &[u8]) -> Option<i64>
    requires digits { IsTrue (list_all is_digit digits.now) }
    requires some { 0 < length digits.now }
    ensures { result ≡ limited (digits_value 10 digits.now) }
{
    match str::from_utf8(digits) {
        Ok(text) => text.parse::<i64>().ok(),
        Err(_) => None,
    }
}

/// A name, or what is no token.
fn name(alloc: Global, text: &str) -> Result<Symbol, AllocError>
    ensures { IfOk result (λ s. s ≡ (if is_name text.now then Symbol.Word text.now else Symbol.Other)) }
{
    if is_name(text) {
        Ok(Symbol::Word(Name::new(String::from_str(alloc, text)?)))
    } else {
        Ok(Symbol::Other)
    }
}

/// What a run of letters, digits and `_` is.
fn word(alloc: Global, word: &[u8]) -> Result<Symbol, AllocError>
    ensures { IfOk result (λ s. s ≡ symbol_of (word_token word.now)) }
{
    if word == b"min".as_slice() {
        return Ok(Symbol::Function(Op::Min));
    }
    if word == b"max".as_slice() {
        return Ok(Symbol::Function(Op::Max));
    }
    match str::from_utf8(word) {
        Ok(text) => name(alloc, text),
        Err(_) => Ok(Symbol::Other),
    }
}

/// A byte that is a token by itself.
fn mark(byte: u8) -> Symbol
    ensures { result ≡ symbol_of (mark_of byte) }
{
    match byte {
        b'+' => Symbol::Additive(Op::Add),
        b'-' => Symbol::Additive(Op::Sub),
        b'*' => Symbol::Multiplicative(Op::Mul),
        b'/' => Symbol::Multiplicative(Op::Div),
        b'%' => Symbol::Multiplicative(Op::Rem),
        b'(' => Symbol::Open,
        b')' => Symbol::Close,
        b',' => Symbol::Comma,
        _ => Symbol::Other,
    }
}

/// The token at the front, and how many bytes it has.
pub(crate) fn token_at(alloc: Global, rest: &[u8]) -> Result<(Symbol, usize), AllocError>
    ensures symbol { IfOk result (λ t. t.0 ≡ symbol_of (front rest.now).token) }
    ensures length { IfOk result (λ t. t.1 ≡ length (front rest.now).bytes) }
{
    match rest {
        [] => Ok((Symbol::Other, 0)),
        [first, ..] if first.is_ascii_digit() => {
            let end = digits_len(rest);
            Ok((Symbol::Number(number(&rest[..end])), end))
        }
        [first, ..] if is_letter(*first) => {
            let end = word_len(rest);
            Ok((word(alloc, &rest[..end])?, end))
        }
        [first, ..] => Ok((mark(*first), 1)),
    }
}
