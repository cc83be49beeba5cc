// What a site keeps of a round.
ghost use Rattle.std.specs.Prelude.{◌≡◌};
ghost use Rattle.records.specs.Kept.{no_lengths, kept_of, fresh};

use super::rows::Rows;
use values::{Report, View};

// How a decision came about.
#[derive(Clone, Copy, Debug, PartialEq, Eq)]
pub enum Way {
    Fast,
    Recovery,
}

#[derive(Clone, Copy, Debug, PartialEq, Eq)]
pub struct Decision {
    pub report: Report,
    pub way: Way,
}

// How many bytes the books hold: each row of the tag book, the certificate book, and each row of
// the view book.
#[derive(Clone, Copy, Debug, PartialEq, Eq)]
pub struct Lengths {
    pub tags: [usize; 16],
    pub certificate: usize,
    pub views: [usize; 16],
}

impl Lengths {
    // The books hold nothing.
    pub fn none() -> Lengths
        ensures { result ≡ no_lengths }
    {
        Lengths {
            tags: [0; 16],
            certificate: 0,
            views: [0; 16],
        }
    }
}

#[derive(Clone, Copy, Debug, PartialEq, Eq)]
pub struct Round {
    pub number: u32,
    pub view: View,
    // Whether it has proposed in this view.
    pub proposed: bool,
    // The last prepare and the last commit.
    pub prepared: Option<Report>,
    pub committed: Option<Report>,
    pub rows: Rows,
    pub lengths: Lengths,
    pub decision: Option<Decision>,
}

impl Round {
    // In view 1, with nothing heard.
    pub fn opened(number: u32) -> Round
        ensures { kept_of result ≡ fresh number }
    {
        Round {
            number,
            view: View::first(),
            proposed: false,
            prepared: None,
            committed: None,
            rows: Rows::empty(),
            lengths: Lengths::none(),
            decision: None,
        }
    }
}
