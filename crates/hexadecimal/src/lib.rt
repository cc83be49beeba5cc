// Hexadecimal text: two digits a byte, with blanks anywhere.
#![tactic(auto)]

ghost use Rattle.std.specs.Prelude.{◌≡◌, ◌<◌, [], Some, IfErr, None, OnOk};
ghost use Rattle.std.specs.Option.{option_map};
ghost use Rattle.hexadecimal.specs.declared.BadText.TheVariants.{NoMemory};
ghost use Rattle.hexadecimal.specs.Spelling.{is_space, all_spaces, digit_of, taken, spelled, text_of, Tells, SpelledByItsText};
ghost use Rattle.hexadecimal.specs.Texts.{bad_text};

use std::alloc::{AllocError, AllocFailed, Global};
use std::error::Error;
use std::fmt;

#[derive(Clone, Copy, Debug, PartialEq, Eq, Drop)]
pub enum BadText {
    // this character is neither a digit nor a blank
    NoDigit { at: usize },
    // one digit is left over
    HalfByte,
    NoMemory,
}

impl fmt::Display for BadText {
    ghost output = { λ bad. Some (bad_text bad) };

    fn fmt<W: fmt::Write>(&self, f: &mut fmt::Formatter<W>) -> fmt::Result {
        match self {
            BadText::NoDigit { at } => write!(f, "no hexadecimal digit at character {at}"),
            BadText::HalfByte => write!(f, "half a byte is left over"),
            BadText::NoMemory => write!(f, "no memory for this line"),
        }
    }
}

impl Error for BadText {}

impl From<AllocError> for BadText {
    fn from(_: AllocError) -> BadText {
        BadText::NoMemory
    }
}

impl<T: Drop> From<AllocFailed<T>> for BadText {
    ghost from_gives = { λ _ r. r ≡ NoMemory };

    fn from(_: AllocFailed<T>) -> BadText {
        BadText::NoMemory
    }
}

pub fn is_space(b: u8) -> bool
    ensures { result ≡ is_space b }
{
    matches!(b, b' ' | b'\t' | b'\r')
}

// Bytes as text, two digits each.
#[derive(Clone, Copy)]
pub struct Digits<'a>(pub &'a [u8]);

impl fmt::Display for Digits<'_> {
    ghost output = { λ digits. Some (text_of digits.0.now) };

    fn fmt<W: fmt::Write>(&self, f: &mut fmt::Formatter<W>) -> fmt::Result {
        for &byte in self.0 {
            write!(f, "{byte:02x}")?;
        }
        Ok(())
    }
}

// Nothing but blanks.
pub fn is_blank(text: &[u8]) -> bool
    ensures { result ≡ all_spaces text.now }
{
    text.iter().all(|b| is_space(*b))
}

// What one character stands for.
#[derive(Clone, Copy)]
struct Digit {
    value: u8,
    ghost small: { value < 16 },
}

impl Digit {
    // By ranges, since `to_digit` of a char would answer a number of another width.
    fn of(b: u8) -> Option<Digit>
        ensures { option_map (λ d. d.value) result ≡ digit_of b }
    {
        let value = match b {
            b'0'..=b'9' => b - b'0',
            b'a'..=b'f' => b - b'a' + 10,
            b'A'..=b'F' => b - b'A' + 10,
            _ => return None,
        };
        Some(Digit { value })
    }
}

// What is spelled so far: the digit that waits for its second, and the bytes.
#[derive(Drop)]
struct Spelling {
    high: Option<Digit>,
    bytes: Vec<u8>,
}

impl Spelling {
    // One digit more: it waits for its second, or makes a byte with the one that waits.
    fn take(&mut self, digit: Digit) -> Result<(), BadText>
        ensures after { OnOk result ((option_map (λ d. d.value) self.new.high, self.new.bytes.items) ≡ taken digit.value (option_map (λ d. d.value) self.old.high) self.old.bytes.items) }
        ensures refused { IfErr result (λ e. e ≡ NoMemory) }
    {
        match self.high {
            None => self.high = Some(digit),
            Some(first) => {
                self.bytes.push(first.value * 16 + digit.value)?;
                self.high = None;
            }
        }
        Ok(())
    }
}

// The bytes that a text spells.
pub fn decode(heap: Global, text: &[u8]) -> Result<Vec<u8>, BadText>
    ensures value { Tells result (spelled text.now 0 None []) }
    ensures every { SpelledByItsText }
{
    let mut so_far = Spelling {
        high: None,
        bytes: Vec::new(heap),
    };
    for (at, b) in text.iter().enumerate() {
        if is_space(*b) {
            continue;
        }
        let digit = Digit::of(*b).ok_or(BadText::NoDigit { at })?;
        so_far.take(digit)?;
    }
    if so_far.high.is_some() {
        return Err(BadText::HalfByte);
    }
    Ok(so_far.bytes)
}
