// What a line of text asks for.
use hexadecimal::{BadText, decode, is_space};
use lines::number;
use std::alloc::Global;
use std::fmt;

// The numbers of a judging line, in their order.
#[derive(Clone, Copy)]
pub struct Terms {
    pub f: u32,
    pub t: u32,
    pub limit: u32,
    pub round: u32,
    pub view: u32,
}

// A certificate that is to be judged, over a register.
#[derive(Drop)]
pub struct Trial {
    pub terms: Terms,
    pub register: Vec<u8>,
    pub certificate: Vec<u8>,
}

// A packet to be explained; a draft and a tag to be sealed, with a + between them; or a trial,
// with a | between each two of its parts.
#[derive(Drop)]
pub enum Task {
    Explain { packet: Vec<u8> },
    Seal { draft: Vec<u8>, tag: Vec<u8> },
    Judge(Trial),
}

// Why a line asks for nothing.
#[derive(Clone, Copy)]
pub enum BadLine {
    Text(BadText),
    // a judging line has one | alone
    TwoParts,
    // what comes first on a judging line is something else than its numbers
    NoTerms,
}

impl From<BadText> for BadLine {
    fn from(bad: BadText) -> BadLine {
        BadLine::Text(bad)
    }
}

// That a line is bad is not said where memory fails.
impl fmt::Display for BadLine {
    fn fmt<W: fmt::Write>(&self, f: &mut fmt::Formatter<W>) -> fmt::Result {
        match self {
            BadLine::Text(BadText::NoMemory) => write!(f, "{}", BadText::NoMemory),
            BadLine::Text(bad) => write!(f, "bad line: {bad}"),
            BadLine::TwoParts => f.write_str("bad line: two parts where three have to be"),
            BadLine::NoTerms => {
                f.write_str("bad line: the first part is not five numbers of 32 bits")
            }
        }
    }
}

// What stands before the first mark, and what stands behind it.
fn split_once(text: &[u8], mark: u8) -> Option<(&[u8], &[u8])> {
    let at = text.iter().position(|b| *b == mark)?;
    Some((&text[..at], &text[at + 1..]))
}

// What is wrong with a text, where so many characters of its line stand before it.
fn behind(start: usize, bad: BadText) -> BadText {
    match bad {
        BadText::NoDigit { at } => BadText::NoDigit {
            at: start.saturating_add(at),
        },
        BadText::HalfByte | BadText::NoMemory => bad,
    }
}

// The bytes of the part of a line that starts at a character.
fn decode_at(heap: Global, part: &[u8], start: usize) -> Result<Vec<u8>, BadText> {
    decode(heap, part).map_err(|bad| behind(start, bad))
}

impl Terms {
    // Five numbers with blanks between them, and nothing else.
    fn read(text: &[u8]) -> Option<Terms> {
        let mut words = text.split(|b| is_space(*b)).filter(|word| !word.is_empty());
        let terms = Terms {
            f: number(words.next()?)?,
            t: number(words.next()?)?,
            limit: number(words.next()?)?,
            round: number(words.next()?)?,
            view: number(words.next()?)?,
        };
        match words.next() {
            None => Some(terms),
            Some(_) => None,
        }
    }
}

impl Trial {
    // A judging line, split at its first |.
    fn read(heap: Global, terms: &[u8], parts: &[u8]) -> Result<Trial, BadLine> {
        let (register, certificate) = split_once(parts, b'|').ok_or(BadLine::TwoParts)?;
        let second = terms.len().saturating_add(1);
        let third = second.saturating_add(register.len() + 1);
        Ok(Trial {
            terms: Terms::read(terms).ok_or(BadLine::NoTerms)?,
            register: decode_at(heap, register, second)?,
            certificate: decode_at(heap, certificate, third)?,
        })
    }
}

// Whether a mark is there: no early end, so that many bytes are compared at once.
fn has(text: &[u8], mark: u8) -> bool {
    text.iter().fold(false, |found, b| found | (*b == mark))
}

impl Task {
    pub fn read(heap: Global, text: &[u8]) -> Result<Task, BadLine> {
        // Most lines have no |, and packets are long.
        if has(text, b'|') {
            if let Some((terms, parts)) = split_once(text, b'|') {
                return Ok(Task::Judge(Trial::read(heap, terms, parts)?));
            }
        }
        let Some((draft, tag)) = split_once(text, b'+') else {
            return Ok(Task::Explain {
                packet: decode(heap, text)?,
            });
        };
        Ok(Task::Seal {
            draft: decode(heap, draft)?,
            tag: decode_at(heap, tag, draft.len() + 1)?,
        })
    }
}
