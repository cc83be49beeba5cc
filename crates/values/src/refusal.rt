// Why a call refuses its input. A refused call changes nothing.
ghost use Rattle.std.specs.Prelude.{◌≡◌, ◌+◌, ◌<◌, ◌^◌, Some, IfSome};
ghost use Rattle.values.specs.Refusals.{cause_number, refused_as, first_of, moved, refusal_text};

use std::error::Error;
use std::fmt;

// What is wrong in a certificate.
#[derive(Clone, Copy, Debug, PartialEq, Eq)]
pub enum Cause {
    // 1: not as many entries as it takes
    Count,
    // 2: an entry of another round
    Round,
    // 3: an entry of another view, or one that reports a view that is 0 or not below
    View,
    // 4: a site that is no site of the fleet, or not above the one before
    Site,
    // 5: a reported fix that is not legal
    Fix,
    // 6: a tag that is not vouched for
    Tag,
}

impl Cause {
    pub fn number(&self) -> u32
        ensures { result ≡ cause_number self.now }
    {
        match self {
            Cause::Count => 1,
            Cause::Round => 2,
            Cause::View => 3,
            Cause::Site => 4,
            Cause::Fix => 5,
            Cause::Tag => 6,
        }
    }
}

#[derive(Clone, Copy, Debug, PartialEq, Eq)]
pub enum Refusal {
    // 1: outside the limits of a fleet or of a tag, or no site's number
    Limits,
    // 2: a lent buffer is too short
    Short,
    // 3: the layout is broken at a place
    Layout {
        place: usize,
    },
    // 4: the round at a place is another
    OtherRound {
        place: usize,
    },
    // 5: the view at a place is not one that it may be
    WrongView {
        place: usize,
    },
    // 6: the site at a place is not one that it may be
    WrongSite {
        place: usize,
    },
    // 7: the fix at a place is illegal
    IllegalFix {
        place: usize,
    },
    // 8: the message's own tag, at a place, is not vouched for
    BadTag {
        place: usize,
    },
    // 9: prepared in this view already; or the sender's row is filled, with the same value or with
    // a new-view
    Repeated,
    // 10: the sender's row holds another fix
    Equivocation,
    // 11: a progress quorum of new-views is gathered already
    Gathered,
    // 12: a certificate is bad at a place; the depth is 2 in a certificate inside another
    BadCertificate {
        place: usize,
        cause: Cause,
        depth: u32,
    },
    // 13: not the leader, proposed already, or too few new-views gathered
    MayNotPropose,
    // 14: two fixes are certified in the highest view that has a commit certificate
    Conflict,
    // 15: a proposal of another fix than the one that its certificate forces
    NotForced,
    // 16: leaving for a view that is not higher
    NotHigher,
}

impl Refusal {
    pub fn number(&self) -> u32
        ensures { result ≡ (refused_as self.now).number }
    {
        match self {
            Refusal::Limits => 1,
            Refusal::Short => 2,
            Refusal::Layout { .. } => 3,
            Refusal::OtherRound { .. } => 4,
            Refusal::WrongView { .. } => 5,
            Refusal::WrongSite { .. } => 6,
            Refusal::IllegalFix { .. } => 7,
            Refusal::BadTag { .. } => 8,
            Refusal::Repeated => 9,
            Refusal::Equivocation => 10,
            Refusal::Gathered => 11,
            Refusal::BadCertificate { .. } => 12,
            Refusal::MayNotPropose => 13,
            Refusal::Conflict => 14,
            Refusal::NotForced => 15,
            Refusal::NotHigher => 16,
        }
    }

    pub fn place(&self) -> Option<usize>
        ensures { result ≡ first_of (refused_as self.now).values }
    {
        match self {
            Refusal::Layout { place }
            | Refusal::OtherRound { place }
            | Refusal::WrongView { place }
            | Refusal::WrongSite { place }
            | Refusal::IllegalFix { place }
            | Refusal::BadTag { place }
            | Refusal::BadCertificate { place, .. } => Some(*place),
            Refusal::Limits
            | Refusal::Short
            | Refusal::Repeated
            | Refusal::Equivocation
            | Refusal::Gathered
            | Refusal::MayNotPropose
            | Refusal::Conflict
            | Refusal::NotForced
            | Refusal::NotHigher => None,
        }
    }

    // The same, with its place counted from `by` bytes earlier.
    pub fn moved(self, by: usize) -> Refusal
        requires { IfSome (first_of (refused_as self).values) (λ place. by + place < 2 ^ 64) }
        ensures { refused_as result ≡ moved by (refused_as self) }
    {
        match self {
            Refusal::Layout { place } => Refusal::Layout { place: by + place },
            Refusal::OtherRound { place } => Refusal::OtherRound { place: by + place },
            Refusal::WrongView { place } => Refusal::WrongView { place: by + place },
            Refusal::WrongSite { place } => Refusal::WrongSite { place: by + place },
            Refusal::IllegalFix { place } => Refusal::IllegalFix { place: by + place },
            Refusal::BadTag { place } => Refusal::BadTag { place: by + place },
            Refusal::BadCertificate {
                place,
                cause,
                depth,
            } => Refusal::BadCertificate {
                place: by + place,
                cause,
                depth,
            },
            Refusal::Limits
            | Refusal::Short
            | Refusal::Repeated
            | Refusal::Equivocation
            | Refusal::Gathered
            | Refusal::MayNotPropose
            | Refusal::Conflict
            | Refusal::NotForced
            | Refusal::NotHigher => self,
        }
    }
}

impl fmt::Display for Refusal {
    ghost output = { λ refusal. Some (refusal_text (refused_as refusal)) };

    fn fmt<W: fmt::Write>(&self, f: &mut fmt::Formatter<W>) -> fmt::Result {
        let number = self.number();
        match self {
            Refusal::Layout { place }
            | Refusal::OtherRound { place }
            | Refusal::WrongView { place }
            | Refusal::WrongSite { place }
            | Refusal::IllegalFix { place }
            | Refusal::BadTag { place } => write!(f, "refused with {number} at {place}"),
            Refusal::BadCertificate {
                place,
                cause,
                depth,
            } => {
                let cause = cause.number();
                write!(
                    f,
                    "refused with {number} at {place}, cause {cause}, depth {depth}"
                )
            }
            Refusal::Limits
            | Refusal::Short
            | Refusal::Repeated
            | Refusal::Equivocation
            | Refusal::Gathered
            | Refusal::MayNotPropose
            | Refusal::Conflict
            | Refusal::NotForced
            | Refusal::NotHigher => write!(f, "refused with {number}"),
        }
    }
}

impl Error for Refusal {}
