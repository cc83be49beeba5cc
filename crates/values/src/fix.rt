// What sites agree on: three words of the line, and the fix that they write.
ghost use Rattle.std.specs.Prelude.{◌≡◌};
ghost use Rattle.values.specs.Refusals.{answered};
ghost use Rattle.values.specs.Fixes.{angle_of, fix_of, words_of, legal, legal_value, legal_at};
ghost use Rattle.values.specs.Lines.{value_bytes, viewed_bytes};

use super::refusal::Refusal;
use buffers::Piece;

// Three words as they stand on the line. Records and messages keep these.
#[derive(Clone, Copy, Debug, PartialEq, Eq)]
pub struct Value {
    pub first: u32,
    pub second: u32,
    pub third: u32,
}

// A target's track number and position, in 1/10,000 minute, east and north positive.
#[derive(Clone, Copy, Debug, PartialEq, Eq)]
pub struct Fix {
    pub track: u32,
    pub longitude: i32,
    pub latitude: i32,
}

// What a site reports that it prepared or committed in a view.
#[derive(Clone, Copy, Debug, PartialEq, Eq)]
pub struct Report {
    pub view: u32,
    pub value: Value,
}

// How far a coordinate is from the first meridian or the equator: degrees, minutes,
// and 1/10,000 minutes.
#[derive(Clone, Copy, Debug, PartialEq, Eq)]
pub struct Angle {
    pub degrees: u32,
    pub minutes: u32,
    pub parts: u32,
}

impl Angle {
    // Named, since a plain number does not say what it counts.
    pub fn of(size: u32) -> Angle
        ensures { result ≡ angle_of size }
    {
        Angle {
            degrees: size / 600_000,
            minutes: size / 10_000 % 60,
            parts: size % 10_000,
        }
    }
}

// The greatest longitude and latitude, either way.
const MERIDIAN: i32 = 108_000_000;

const POLE: i32 = 54_000_000;

impl From<Value> for Fix {
    ghost from_gives = { λ value r. r ≡ fix_of value };

    fn from(value: Value) -> Fix {
        Fix {
            track: value.first,
            longitude: value.second.cast_signed(),
            latitude: value.third.cast_signed(),
        }
    }
}

impl From<Fix> for Value {
    ghost from_gives = { λ fix r. r ≡ words_of fix };

    fn from(fix: Fix) -> Value {
        Value {
            first: fix.track,
            second: fix.longitude.cast_unsigned(),
            third: fix.latitude.cast_unsigned(),
        }
    }
}

impl Fix {
    #[tactic(auto, unfolding(crate::specs::Fixes::legal))]
    pub fn is_legal(&self) -> bool
        ensures { result ≡ legal self.now }
    {
        (1..=999).contains(&self.track)
            && (-MERIDIAN..=MERIDIAN).contains(&self.longitude)
            && (-POLE..=POLE).contains(&self.latitude)
    }
}

impl Value {
    // Whether it writes a legal fix.
    pub fn is_legal(&self) -> bool
        ensures { result ≡ legal_value self.now }
    {
        Fix::from(*self).is_legal()
    }

    // The test of a value that stands at a place: it must write a legal fix.
    pub fn test(&self, place: usize) -> Result<(), Refusal>
        ensures { answered (λ u. u) result ≡ legal_at self.now place }
    {
        if !self.is_legal() {
            return Err(Refusal::IllegalFix { place });
        }
        Ok(())
    }
}

// The three words, one behind the other.
impl Piece for Value {
    ghost bytes = { value_bytes };

    fn put(self, out: &mut [u8], at: usize) -> usize {
        (self.first, (self.second, self.third)).put(out, at)
    }
}

// The view, and the value.
impl Piece for Report {
    ghost bytes = { viewed_bytes };

    fn put(self, out: &mut [u8], at: usize) -> usize {
        (self.view, self.value).put(out, at)
    }
}
