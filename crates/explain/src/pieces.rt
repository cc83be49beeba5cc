// Pieces of the lines, by the values that they show.
use hexadecimal::Digits;
use std::fmt;
use values::{Angle, Cause, Fix, Refusal, Report};
use verdicts::{Forced, Forcing, Verdict};
use wire::{Head, Part};

#[derive(Clone, Copy)]
pub struct Heading(pub Head);

impl fmt::Display for Heading {
    fn fmt<W: fmt::Write>(&self, f: &mut fmt::Formatter<W>) -> fmt::Result {
        let Head { round, view, site } = self.0;
        write!(f, "round {round}, view {view}, site {site}")
    }
}

#[derive(Clone, Copy)]
pub struct Tag<'a>(pub Part<'a>);

impl fmt::Display for Tag<'_> {
    fn fmt<W: fmt::Write>(&self, f: &mut fmt::Formatter<W>) -> fmt::Result {
        let Part { place, bytes } = self.0;
        write!(f, "tag of {} bytes at {place}", bytes.len())
    }
}

// A coordinate, and the letters for above and below zero.
#[derive(Clone, Copy)]
struct Coordinate {
    number: i32,
    above: char,
    below: char,
}

impl fmt::Display for Coordinate {
    fn fmt<W: fmt::Write>(&self, f: &mut fmt::Formatter<W>) -> fmt::Result {
        let Angle {
            degrees,
            minutes,
            parts,
        } = Angle::of(self.number.unsigned_abs());
        let side = if self.number < 0 {
            self.below
        } else {
            self.above
        };
        write!(f, "{degrees}°{minutes:02}.{parts:04}'{side}")
    }
}

// The three numbers, and the position in degrees and minutes.
#[derive(Clone, Copy)]
pub struct Fixed(pub Fix);

impl fmt::Display for Fixed {
    fn fmt<W: fmt::Write>(&self, f: &mut fmt::Formatter<W>) -> fmt::Result {
        let Fix {
            track,
            longitude,
            latitude,
        } = self.0;
        let north = Coordinate {
            number: latitude,
            above: 'N',
            below: 'S',
        };
        let east = Coordinate {
            number: longitude,
            above: 'E',
            below: 'W',
        };
        write!(f, "fix {track} {longitude} {latitude}, {north} {east}")?;
        if !self.0.is_legal() {
            f.write_str(", not legal")?;
        }
        Ok(())
    }
}

// What a site reports, if it reports something.
#[derive(Clone, Copy)]
pub struct Reported(pub Option<Report>);

impl fmt::Display for Reported {
    fn fmt<W: fmt::Write>(&self, f: &mut fmt::Formatter<W>) -> fmt::Result {
        match self.0 {
            None => f.write_str("nothing"),
            Some(Report { view, value }) => write!(f, "in view {view} {}", Fixed(value.into())),
        }
    }
}

// What may be wrong where a layout is broken.
const LAYOUT: &str =
    "the layout is broken there: a word or a tag is cut, a kind is unknown or not allowed, a bool is above 1, a count is above 16, a tag is too long or filled wrongly, or bytes are left over";

// What is wrong in a certificate, by its cause.
#[derive(Clone, Copy)]
struct Caused(Cause);

impl fmt::Display for Caused {
    fn fmt<W: fmt::Write>(&self, f: &mut fmt::Formatter<W>) -> fmt::Result {
        f.write_str(match self.0 {
            Cause::Count => "it has more entries than it takes, or fewer",
            Cause::Round => "an entry is of another round",
            Cause::View => {
                "an entry is of another view, or reports a view that is 0 or not below the judged one"
            }
            Cause::Site => "a site is no site of the fleet, or not above the one before",
            Cause::Fix => "a reported fix is not legal",
            Cause::Tag => "a tag is not vouched for",
        })
    }
}

// Where a certificate stands, by its depth.
#[derive(Clone, Copy)]
struct Nested(u32);

impl fmt::Display for Nested {
    fn fmt<W: fmt::Write>(&self, f: &mut fmt::Formatter<W>) -> fmt::Result {
        let depth = self.0;
        match depth {
            1 => f.write_str("depth 1: in the certificate itself"),
            _ => write!(f, "depth {depth}: in the commit certificate of an entry"),
        }
    }
}

// A refusal, and what it means.
#[derive(Clone, Copy)]
pub struct Meant(pub Refusal);

impl fmt::Display for Meant {
    fn fmt<W: fmt::Write>(&self, f: &mut fmt::Formatter<W>) -> fmt::Result {
        let refusal = self.0;
        let meaning = match refusal {
            Refusal::Limits => "outside the limits of a fleet or a tag",
            Refusal::Short => "a buffer is too short",
            Refusal::Layout { .. } => LAYOUT,
            Refusal::OtherRound { .. } => "the round there is another",
            // Of what is shown here, only judging refuses a view.
            Refusal::WrongView { .. } => "the view is 0",
            Refusal::WrongSite { .. } => "the site there may not say that",
            Refusal::IllegalFix { .. } => "the fix there is not legal",
            Refusal::BadTag { .. } => "the tag there is not vouched for",
            Refusal::Repeated => "heard already",
            Refusal::Equivocation => "another fix was heard from that site in this view",
            Refusal::Gathered => "enough new-views are gathered",
            Refusal::BadCertificate { cause, depth, .. } => {
                return write!(f, "{refusal}: {} ({})", Caused(cause), Nested(depth));
            }
            Refusal::MayNotPropose => "not the leader, or proposed already, or too few new-views",
            Refusal::Conflict => {
                "two fixes are certified in the highest view that has a commit certificate"
            }
            Refusal::NotForced => "the certificate forces another fix",
            Refusal::NotHigher => "the view is not higher",
        };
        write!(f, "{refusal}: {meaning}")
    }
}

// What judging answers: what may be proposed, or why it refuses.
#[derive(Clone, Copy)]
pub struct Judged(pub Result<Verdict, Refusal>);

impl fmt::Display for Judged {
    fn fmt<W: fmt::Write>(&self, f: &mut fmt::Formatter<W>) -> fmt::Result {
        match self.0 {
            Ok(Verdict::Free) => f.write_str("free: any legal fix may be proposed"),
            Ok(Verdict::Forced(Forced { value, view, by })) => {
                let kind = match by {
                    Forcing::Fast => "fast",
                    Forcing::Commit => "commit",
                };
                let fix = Fixed(value.into());
                write!(f, "forced by the {kind} certificate of view {view}: {fix}")
            }
            Err(refusal) => write!(f, "{}", Meant(refusal)),
        }
    }
}

// Bytes as digits, four bytes to a group.
#[derive(Clone, Copy)]
pub struct Grouped<'a>(pub &'a [u8]);

impl fmt::Display for Grouped<'_> {
    fn fmt<W: fmt::Write>(&self, f: &mut fmt::Formatter<W>) -> fmt::Result {
        for (i, group) in self.0.chunks(4).enumerate() {
            if i > 0 {
                f.write_str(" ")?;
            }
            write!(f, "{}", Digits(group))?;
        }
        Ok(())
    }
}
