// Lines that programs read: comments and numbers.
#![tactic(auto)]

ghost use Rattle.std.specs.Prelude.{◌≡◌, ◌≤◌, length};
ghost use Rattle.lines.specs.Numbers.{digit_of, behind, number_of};
ghost use Rattle.lines.specs.Comments.{comment_at, before_comment};

// Where a comment starts, at a #.
fn comment_at(line: &[u8]) -> usize
    ensures value { result ≡ comment_at line.now }
    ensures bound { result ≤ length line.now }
{
    line.iter().take_while(|b| **b != b'#').count()
}

pub fn without_comment(line: &[u8]) -> &[u8]
    ensures { result.now ≡ before_comment line.now }
{
    &line[..comment_at(line)]
}

// What one character stands for.
fn digit_of(b: u8) -> Option<u32>
    ensures { result ≡ digit_of b }
{
    match b {
        b'0'..=b'9' => Some(u32::from(b - b'0')),
        _ => None,
    }
}

// One character more, behind a number.
fn behind(number: u32, b: u8) -> Option<u32>
    ensures { result ≡ behind number (digit_of b) }
{
    number.checked_mul(10)?.checked_add(digit_of(b)?)
}

// A decimal number of 32 bits.
pub fn number(word: &[u8]) -> Option<u32>
    ensures { result ≡ number_of word.now }
{
    if word.is_empty() {
        return None;
    }
    let mut number = 0;
    for b in word {
        number = behind(number, *b)?;
    }
    Some(number)
}
