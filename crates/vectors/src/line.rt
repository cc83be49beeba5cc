// The words of a line, and what they say.
use anyhow::{Context, anyhow, ensure};
use hexadecimal::decode;
use std::alloc::Global;
use std::str::FromStr;

// What a word may be read as, and what is said of a word that is something else.
pub trait Readable: FromStr {
    const OTHERWISE: &'static str;
}

impl Readable for u32 {
    const OTHERWISE: &'static str = "no number of 32 bits";
}

impl Readable for i32 {
    const OTHERWISE: &'static str = "no signed number of 32 bits";
}

// A word that is none of those that were to come.
#[derive(Clone, Copy)]
pub struct UnknownWord;

#[derive(Clone, Copy)]
pub struct Line<'a> {
    pub heap: Global,
    pub words: &'a [&'a str],
}

impl<'a> Line<'a> {
    // Empty lines and comments are no cases.
    pub fn is_case(self) -> bool {
        self.words
            .first()
            .is_some_and(|word| !word.starts_with('#'))
    }

    // A line of a kind has so many words.
    pub fn expect(self, count: usize) -> anyhow::Result<()> {
        ensure!(self.words.len() == count, "too many words, or too few");
        Ok(())
    }

    pub fn word(self, at: usize) -> anyhow::Result<&'a str> {
        self.words.get(at).copied().context("the line is too short")
    }

    pub fn read<T: Readable>(self, at: usize) -> anyhow::Result<T>
    where
        T::Err: Drop,
    {
        self.word(at)?.parse().map_err(|_| anyhow!(T::OTHERWISE))
    }

    // A word of hexadecimal text; `-` stands for no bytes.
    pub fn bytes(self, at: usize) -> anyhow::Result<Vec<u8>> {
        match self.word(at)? {
            "-" => Ok(Vec::new(self.heap)),
            text => decode(self.heap, text.as_bytes()).map_err(|_| anyhow!("no hexadecimal text")),
        }
    }

    // Two words, as plain as an enum of them would be.
    pub fn answer(self, at: usize) -> anyhow::Result<bool> {
        match self.word(at)? {
            "yes" => Ok(true),
            "no" => Ok(false),
            _ => Err(anyhow!("neither yes nor no")),
        }
    }
}
