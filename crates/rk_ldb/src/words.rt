//! Single words of commands, and the options at the front of words.
ghost use Rattle.std.specs.Prelude.{◌≡◌, ◌⊎◌, ◌↔◌, ◌<◌, IsTrue, length, slice_index, unwrap_or, if◌then◌else◌, Some, None};
ghost use Rattle.std.specs.List.{list_all};
ghost use Rattle.hex.specs.Hex.{is_hex_digit};
ghost use Rattle.std.specs.Option.{option_copied, option_map, option_and_then};
ghost use Rattle.rk_bytes.specs.Model.Grammar.{after, hex_key, number_of, hex_of, spell_bytes, key_word_of, family_option, how_option, option_at, sst_part_of, usual};
ghost use Rattle.rk_ldb.specs.Commands.{told_key};

use crate::keys::KeyWord;
use rk_bytes::Text;
use rk_bytes::model::{How, Mode, SstPart};

/// The number that the word spells in decimal, with no sign and no leading zero.
pub(crate) fn read_number(word: &str) -> Option<u64>
    ensures { result ≡ number_of word.now }
{
    if begins_otherwise(word.as_bytes()) {
        return None;
    }
    word.parse::<u64>().ok()
}

/// Whether the word begins with what no decimal number is written with: a sign, or a zero before
/// other bytes.
fn begins_otherwise(word: &[u8]) -> bool
    ensures { IsTrue result ↔ ((slice_index word.now 0 ≡ 43) ⊎ ((slice_index word.now 0 ≡ 48) × (1 < length word.now))) }
{
    match word {
        [b'+', ..] => true,
        [b'0', _, ..] => true,
        _ => false,
    }
}

/// What the word asks of a table.
pub(crate) fn read_part(word: &str) -> Option<SstPart>
    ensures { result ≡ sst_part_of word.now }
{
    match word {
        "check" => Some(SstPart::Check),
        "scan" => Some(SstPart::Scan),
        "properties" => Some(SstPart::Properties),
        _ => None,
    }
}

/// Whether the last words, which may be none, ask for hexadecimal.
pub(crate) fn read_hex(words: &[Text]) -> Option<bool>
    ensures { result ≡ hex_of words.now }
{
    match words {
        [] => Some(false),
        [word] if word.as_str() == "--hex" => Some(true),
        _ => None,
    }
}

/// The key that the word spells.
pub(crate) fn read_key<'a>(word: &'a [u8]) -> Option<KeyWord<'a>>
    ensures { option_map told_key result ≡ key_word_of word.now }
{
    match after(b"0x", word) {
        Some(digits) => read_digits(digits),
        None => Some(KeyWord::Text(word)),
    }
}

/// The key that the digits spell.
fn read_digits<'a>(digits: &'a [u8]) -> Option<KeyWord<'a>>
    ensures { option_map told_key result ≡ (if spell_bytes digits.now then Some (hex_key digits.now) else None) }
{
    if digits.len() % 2 == 0 && are_digits(digits) {
        Some(KeyWord::Hex(digits))
    } else {
        None
    }
}

/// Whether each of the bytes is a hexadecimal digit.
fn are_digits(digits: &[u8]) -> bool
    ensures { result ≡ list_all is_hex_digit digits.now }
{
    digits.iter().all(|digit| is_digit(*digit))
}

/// Whether the byte is a hexadecimal digit, of either case.
fn is_digit(byte: u8) -> bool
    ensures { result ≡ is_hex_digit byte }
{
    matches!(byte, b'A'..=b'F' | b'a'..=b'f' | b'0'..=b'9')
}

/// What stands in the word after this front.
fn after<'a>(front: &[u8], word: &'a [u8]) -> Option<&'a [u8]>
    ensures { option_copied result ≡ after front.now word.now }
{
    if word.starts_with(front) {
        Some(&word[front.len()..])
    } else {
        None
    }
}

/// The family's name, where the word is that option.
fn read_family_word<'a>(word: &'a [u8]) -> Option<&'a [u8]>
    ensures { option_copied result ≡ family_option word.now }
{
    let name = after(b"--family=", word)?;
    if name.is_empty() { None } else { Some(name) }
}

/// How the database is opened, where the word says it.
fn read_how_word(word: &str) -> Option<How>
    ensures { result ≡ how_option word.now }
{
    match word {
        "--best-efforts" => Some(How::Best),
        "--mode=0" => Some(How::Normal(Mode::TolerateTail)),
        "--mode=1" => Some(How::Normal(Mode::Absolute)),
        "--mode=2" => Some(How::Normal(Mode::PointInTime)),
        "--mode=3" => Some(How::Normal(Mode::SkipAny)),
        _ => None,
    }
}

/// A bound of a scan, where the word is the option with this front.
fn read_bound_word<'a>(front: &[u8], word: &'a [u8]) -> Option<KeyWord<'a>>
    ensures { option_map told_key result ≡ option_and_then key_word_of (after front.now word.now) }
{
    read_key(after(front, word)?)
}

/// The family, where the first word names one, and the words after it.
pub(crate) fn read_family<'a>(words: &'a [Text]) -> (Option<&'a [u8]>, &'a [Text])
    ensures value { option_copied result.0 ≡ (option_at family_option words.now).0 }
    ensures rest { result.1.now ≡ (option_at family_option words.now).1 }
{
    match words.split_first() {
        Some((word, rest)) => match read_family_word(word.as_str().as_bytes()) {
            Some(name) => (Some(name), rest),
            None => (None, words),
        },
        None => (None, words),
    }
}

/// How the database is opened, by the first word or in the usual way, and the words after it.
pub(crate) fn read_how<'a>(words: &'a [Text]) -> (How, &'a [Text])
    ensures value { result.0 ≡ unwrap_or (option_at how_option words.now).0 usual }
    ensures rest { result.1.now ≡ (option_at how_option words.now).1 }
{
    match words.split_first() {
        Some((word, rest)) => match read_how_word(word.as_str()) {
            Some(how) => (how, rest),
            None => (How::Normal(Mode::PointInTime), words),
        },
        None => (How::Normal(Mode::PointInTime), words),
    }
}

/// A bound of a scan, where the first word is the option with this front, and the words after it.
pub(crate) fn read_bound<'a>(front: &[u8], words: &'a [Text]) -> (Option<KeyWord<'a>>, &'a [Text])
    ensures value { option_map told_key result.0 ≡ (option_at (λ word. option_and_then key_word_of (after front.now word)) words.now).0 }
    ensures rest { result.1.now ≡ (option_at (λ word. option_and_then key_word_of (after front.now word)) words.now).1 }
{
    match words.split_first() {
        Some((word, rest)) => match read_bound_word(front, word.as_str().as_bytes()) {
            Some(key) => (Some(key), rest),
            None => (None, words),
        },
        None => (None, words),
    }
}
