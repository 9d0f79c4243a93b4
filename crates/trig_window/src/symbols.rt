//! The symbols of a trigger expression's text.
ghost use Rattle.std.specs.Prelude.{◌≡◌, ◌≤◌, ◌<◌, ◌-◌, ◌^◌, min, length, take, IfOk, IsTrue, All};
ghost use Rattle.std.specs.List.{prefix_len};
ghost use Rattle.std.specs.Char.{is_ascii_digit};
ghost use Rattle.trig_window.specs.Coded.{symbol_of};
ghost use Rattle.trig_window.specs.Symbols.{tokens, symbol_at, mark_at, pair_of, single_of, digits_symbol, number_of};

use nd_base::Sign;
use std::alloc::{AllocError, Global};
use std::marker::Model;

/// A symbol of a text.
#[derive(Clone, Copy, Debug)]
pub(crate) enum Symbol {
    Number(i64),
    A,
    B,
    Sign(Sign),
    Not,
    Open,
    Close,
    /// What is no symbol: a byte that begins none, or digits above the greatest number.
    Unknown,
}

/// A symbol and the place of its first byte.
#[derive(Debug, Drop)]
pub(crate) struct Token {
    pub(crate) symbol: Symbol,
    pub(crate) at: u32,
}

impl Model for Token {
    ghost use Rattle.trig_window.specs.Coded.{symbol_of};
    ghost use Rattle.trig_window.specs.Marks as marks;

    ghost Value = { marks.Token };

    ghost view = { λ t. record { symbol = symbol_of t.symbol; at = t.at } };
}

/// Two bytes that are one sign.
fn pair_of(first: u8, second: u8) -> Option<Sign>
    ensures { result ≡ pair_of first second }
{
    match (first, second) {
        (b'|', b'|') => Some(Sign::Or),
        (b'&', b'&') => Some(Sign::And),
        (b'=', b'=') => Some(Sign::Equal),
        (b'!', b'=') => Some(Sign::NotEqual),
        (b'<', b'=') => Some(Sign::AtMost),
        (b'>', b'=') => Some(Sign::AtLeast),
        _ => None,
    }
}

/// A byte by itself.
fn single_of(byte: u8) -> Symbol
    ensures { symbol_of result ≡ single_of byte }
{
    match byte {
        b'<' => Symbol::Sign(Sign::Below),
        b'>' => Symbol::Sign(Sign::Above),
        b'+' => Symbol::Sign(Sign::Plus),
        b'-' => Symbol::Sign(Sign::Minus),
        b'*' => Symbol::Sign(Sign::Times),
        b'!' => Symbol::Not,
        b'(' => Symbol::Open,
        b')' => Symbol::Close,
        b'A' => Symbol::A,
        b'B' => Symbol::B,
        _ => Symbol::Unknown,
    }
}

/// The longest symbol of a text that doesn't begin with a digit, and how many bytes it has.
fn mark_at(text: &[u8]) -> (Symbol, usize)
    ensures mark { (symbol_of result.0, result.1) ≡ mark_at text.now }
    ensures positive { 1 ≤ result.1 }
    ensures within { 0 < length text.now → result.1 ≤ length text.now }
{
    match text {
        [] => (Symbol::Unknown, 1),
        [first] => (single_of(*first), 1),
        [first, second, ..] => match pair_of(*first, *second) {
            Some(sign) => (Symbol::Sign(sign), 2),
            None => (single_of(*first), 1),
        },
    }
}

/// The number that digits spell, or the greatest one of its type.
fn capped_number(digits: &[u8]) -> u64
    requires { All (λ d. IsTrue (is_ascii_digit d)) digits.now }
    ensures { result ≡ min (number_of digits.now) (2 ^ 64 - 1) }
{
    let mut number: u64 = 0;
    for digit in digits {
        number = number
            .saturating_mul(10)
            .saturating_add(u64::from(*digit - b'0'));
    }
    number
}

fn digits_symbol(digits: &[u8]) -> Symbol
    requires { All (λ d. IsTrue (is_ascii_digit d)) digits.now }
    ensures { symbol_of result ≡ digits_symbol digits.now }
{
    let number = capped_number(digits);
    if number <= i64::MAX as u64 {
        Symbol::Number(number as i64)
    } else {
        Symbol::Unknown
    }
}

/// How many digits a text begins with.
fn digit_count(text: &[u8]) -> usize
    ensures count { result ≡ prefix_len is_ascii_digit text.now }
    ensures within { result ≤ length text.now }
    ensures digits { All (λ d. IsTrue (is_ascii_digit d)) (take result text.now) }
{
    text.iter().take_while(|byte| byte.is_ascii_digit()).count()
}

/// The longest symbol that a text begins with, and how many bytes it has.
#[tactic(auto, unfolding(crate::specs::Symbols::symbol_at))]
fn symbol_at(text: &[u8]) -> (Symbol, usize)
    ensures symbol { (symbol_of result.0, result.1) ≡ symbol_at text.now }
    ensures positive { 1 ≤ result.1 }
    ensures within { 0 < length text.now → result.1 ≤ length text.now }
{
    let count = digit_count(text);
    if count == 0 {
        mark_at(text)
    } else {
        (digits_symbol(&text[..count]), count)
    }
}

/// The symbols of a text, each with its place.
pub(crate) fn tokens(alloc: Global, text: &[u8]) -> Result<Vec<Token>, AllocError>
    requires { length text.now ≤ 256 }
    ensures { IfOk result (λ v. v.items ≡ tokens text.now) }
{
    let mut tokens = Vec::new(alloc);
    let mut at = 0;
    while at < text.len() {
        let (symbol, width) = symbol_at(&text[at..]);
        if text[at] != b' ' {
            tokens.push(Token {
                symbol,
                at: at as u32,
            })?;
        }
        at += width;
    }
    Ok(tokens)
}
