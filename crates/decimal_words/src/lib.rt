//! Numbers that are written in decimal, as words of a command line.
#![tactic(auto)]

ghost use Rattle.std.specs.Prelude.{◌≡◌, ◌≤◌, true, IfSome};
ghost use Rattle.std.specs.Char.{is_ascii_digit};
ghost use Rattle.std.specs.List.{list_all};
ghost use Rattle.std.specs.Str.Parse.{digits_value};
ghost use Rattle.decimal_words.specs.Numbers.{are_digits, integer_of, number_of};

/// Whether a text is 1 to `most` decimal digits.
fn are_digits(text: &str, most: usize) -> bool
    ensures { result ≡ are_digits most text.now }
{
    !text.is_empty() && text.len() <= most && are_ascii_digits(text.as_bytes())
}

/// Whether each byte is an ASCII digit.
fn are_ascii_digits(bytes: &[u8]) -> bool
    ensures { result ≡ list_all is_ascii_digit bytes.now }
{
    bytes.iter().all(|byte| byte.is_ascii_digit())
}

/// The number that decimal digits stand for.
fn value_of(digits: &str) -> u64
    requires { are_digits 10 digits.now ≡ true }
    ensures { result ≡ digits_value 10 digits.now }
{
    match digits.parse::<u64>() {
        Ok(value) => value,
        Err(_) => unreachable!(),
    }
}

/// The number that a word of 1 to `digits` decimal digits spells, leading zeros among them; None where the word is spelled in
/// another way, or the number isn't one from `least` to `most`. `digits` is at most 10.
pub fn number(word: &str, digits: usize, least: u32, most: u32) -> Option<u32>
    requires { digits ≤ 10 }
    ensures value { result ≡ number_of digits least most word.now }
    ensures range { IfSome result (λ n. (least ≤ n) × (n ≤ most)) }
{
    if !are_digits(word, digits) {
        return None;
    }
    let number = value_of(word);
    if u64::from(least) <= number && number <= u64::from(most) {
        Some(number as u32)
    } else {
        None
    }
}

/// The number that a word of an optional `-` and 1 to 10 decimal digits spells; None where the word is spelled in another
/// way, or the number isn't one of 32 bits with a sign.
pub fn integer(word: &str) -> Option<i32>
    ensures { result ≡ integer_of word.now }
{
    match word.strip_prefix("-") {
        Some(digits) => match number(digits, 10, 0, 1 << 31) {
            Some(number) => Some((-i64::from(number)) as i32),
            None => None,
        },
        None => match number(word, 10, 0, (1 << 31) - 1) {
            Some(number) => Some(number as i32),
            None => None,
        },
    }
}
