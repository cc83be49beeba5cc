// The words of a line, and what they say.
use hexadecimal::{BadText, decode, is_space};
use lines::{number, without_comment};
use std::alloc::{AllocError, Global};
use std::cmp::Ordering;
use std::fmt;
use values::Refusal;

// Why a line asks for nothing that can be done.
#[derive(Clone, Copy)]
pub enum BadLine {
    UnknownWord,
    TooFewWords,
    TooManyWords,
    NotANumber,
    BadBytes,
    NoSuchBook,
    OutsideTheBook,
    NoSiteIsOpen,
}

impl fmt::Display for BadLine {
    fn fmt<W: fmt::Write>(&self, f: &mut fmt::Formatter<W>) -> fmt::Result {
        f.write_str(match self {
            BadLine::UnknownWord => "unknown word",
            BadLine::TooFewWords => "too few words",
            BadLine::TooManyWords => "too many words",
            BadLine::NotANumber => "not a number",
            BadLine::BadBytes => "bad bytes",
            BadLine::NoSuchBook => "no such book",
            BadLine::OutsideTheBook => "outside the book",
            BadLine::NoSiteIsOpen => "no site is open",
        })
    }
}

// Why what a line asks for is not done.
#[derive(Clone, Copy)]
pub enum Failure {
    Bad(BadLine),
    Refused(Refusal),
    NoMemory(AllocError),
}

impl From<BadLine> for Failure {
    fn from(bad: BadLine) -> Failure {
        Failure::Bad(bad)
    }
}

impl From<Refusal> for Failure {
    fn from(refusal: Refusal) -> Failure {
        Failure::Refused(refusal)
    }
}

impl From<AllocError> for Failure {
    fn from(error: AllocError) -> Failure {
        Failure::NoMemory(error)
    }
}

impl From<BadText> for Failure {
    fn from(bad: BadText) -> Failure {
        match bad {
            BadText::NoMemory => Failure::NoMemory(AllocError),
            BadText::NoDigit { .. } | BadText::HalfByte => Failure::Bad(BadLine::BadBytes),
        }
    }
}

// What stands on a line, between blanks.
pub fn words(heap: Global, line: &[u8]) -> Result<Vec<&[u8]>, AllocError> {
    without_comment(line)
        .split(|b| is_space(*b))
        .filter(|word| !word.is_empty())
        .collect(heap)
}

// A decimal number with a - before it if it is below 0.
fn signed(word: &[u8]) -> Option<i32> {
    let number = match word {
        [b'-', digits @ ..] => -i64::from(number(digits)?),
        digits => i64::from(number(digits)?),
    };
    i32::try_from(number).ok()
}

// The words of a line.
#[derive(Clone, Copy)]
pub struct Line<'a> {
    pub heap: Global,
    pub words: &'a [&'a [u8]],
}

impl<'a> Line<'a> {
    pub fn word(self, at: usize) -> Result<&'a [u8], BadLine> {
        self.words.get(at).copied().ok_or(BadLine::TooFewWords)
    }

    // A line of a kind has so many words.
    pub fn expect(self, count: usize) -> Result<(), BadLine> {
        match self.words.len().cmp(&count) {
            Ordering::Less => Err(BadLine::TooFewWords),
            Ordering::Equal => Ok(()),
            Ordering::Greater => Err(BadLine::TooManyWords),
        }
    }

    pub fn number(self, at: usize) -> Result<u32, BadLine> {
        number(self.word(at)?).ok_or(BadLine::NotANumber)
    }

    // A number of bytes, or of the first of them.
    pub fn length(self, at: usize) -> Result<usize, BadLine> {
        Ok(self.number(at)? as usize)
    }

    pub fn byte(self, at: usize) -> Result<u8, BadLine> {
        u8::try_from(self.number(at)?).map_err(|_| BadLine::NotANumber)
    }

    pub fn signed(self, at: usize) -> Result<i32, BadLine> {
        signed(self.word(at)?).ok_or(BadLine::NotANumber)
    }

    // Bytes by their hexadecimal text; `-` stands for none.
    pub fn bytes(self, at: usize) -> Result<Vec<u8>, Failure> {
        match self.word(at)? {
            b"-" => Ok(Vec::new(self.heap)),
            text => Ok(decode(self.heap, text)?),
        }
    }
}
