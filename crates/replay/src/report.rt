// What is said in reply.
use calls::Record;
use hexadecimal::Digits;
use lending::Buffers;
use records::{Decision, Way};
use site::What;
use std::fmt;
use values::{Fix, Refusal, Report, Value};
use verdicts::{Forced, Forcing, Verdict};

// What a line is answered with.
#[derive(Clone, Copy)]
pub enum Reply<'a> {
    Opened,
    // a draft or a message, which stands at the start of out
    Wrote(&'a [u8]),
    // what the site did, and what it drafted
    Heard(What, &'a [u8]),
    Judged(Verdict),
    Found(Option<Decision>),
    Books(&'a Buffers),
    Record(&'a Record),
}

impl fmt::Display for Reply<'_> {
    fn fmt<W: fmt::Write>(&self, f: &mut fmt::Formatter<W>) -> fmt::Result {
        match *self {
            Reply::Opened => f.write_str("ok"),
            Reply::Wrote(written) => write!(f, "ok {}", Counted(written)),
            Reply::Heard(what, draft) => {
                let what = match what {
                    What::Noted => "noted",
                    What::Gathered => "gathered",
                    What::Decided => "decided",
                };
                write!(f, "ok {what} {}", Counted(draft))
            }
            Reply::Judged(Verdict::Free) => f.write_str("ok free"),
            Reply::Judged(Verdict::Forced(Forced { value, view, by })) => {
                let by = match by {
                    Forcing::Fast => "fast",
                    Forcing::Commit => "certificate",
                };
                write!(f, "ok {by} {} {view}", spaced(value))
            }
            Reply::Found(None) => f.write_str("ok none"),
            Reply::Found(Some(Decision { report, way })) => {
                let Report { view, value } = report;
                let way = way_name(way);
                write!(f, "ok {way} {} {view}", spaced(value))
            }
            Reply::Books(lent) => write!(f, "{}", Lent(lent)),
            Reply::Record(record) => write!(f, "{}", Recorded(record)),
        }
    }
}

// A refusal: its number, and what comes with it.
#[derive(Clone, Copy)]
pub struct Refused(pub Refusal);

impl fmt::Display for Refused {
    fn fmt<W: fmt::Write>(&self, f: &mut fmt::Formatter<W>) -> fmt::Result {
        let refusal = self.0;
        let number = refusal.number();
        write!(f, "refused {number} {}", IfAny(refusal.place()))?;
        match refusal {
            Refusal::BadCertificate { cause, depth, .. } => {
                write!(f, " {} {depth}", cause.number())
            }
            _ => f.write_str(" - -"),
        }
    }
}

// ---- pieces ----

// A dash stands for nothing.
#[derive(Clone, Copy)]
struct IfAny<T>(Option<T>);

impl<T: fmt::Display> fmt::Display for IfAny<T> {
    fn fmt<W: fmt::Write>(&self, f: &mut fmt::Formatter<W>) -> fmt::Result {
        match &self.0 {
            None => f.write_str("-"),
            Some(what) => write!(f, "{what}"),
        }
    }
}

// Bytes as digits; a dash stands for none.
#[derive(Clone, Copy)]
struct Bytes<'a>(&'a [u8]);

impl fmt::Display for Bytes<'_> {
    fn fmt<W: fmt::Write>(&self, f: &mut fmt::Formatter<W>) -> fmt::Result {
        if self.0.is_empty() {
            return f.write_str("-");
        }
        write!(f, "{}", Digits(self.0))
    }
}

// How many bytes, and they, if there are any.
#[derive(Clone, Copy)]
struct Counted<'a>(&'a [u8]);

impl fmt::Display for Counted<'_> {
    fn fmt<W: fmt::Write>(&self, f: &mut fmt::Formatter<W>) -> fmt::Result {
        let bytes = self.0;
        write!(f, "{}", bytes.len())?;
        if bytes.is_empty() {
            return Ok(());
        }
        write!(f, " {}", Bytes(bytes))
    }
}

// The three numbers of a fix, with a mark between each two.
#[derive(Clone, Copy)]
struct Numbers {
    value: Value,
    between: char,
}

impl fmt::Display for Numbers {
    fn fmt<W: fmt::Write>(&self, f: &mut fmt::Formatter<W>) -> fmt::Result {
        let Numbers { value, between } = *self;
        let Fix {
            track,
            longitude,
            latitude,
        } = value.into();
        write!(f, "{track}{between}{longitude}{between}{latitude}")
    }
}

// As an answer has them.
fn spaced(value: Value) -> Numbers {
    Numbers {
        value,
        between: ' ',
    }
}

// As a record has them.
fn joined(value: Value) -> Numbers {
    Numbers {
        value,
        between: ':',
    }
}

fn way_name(way: Way) -> &'static str {
    match way {
        Way::Fast => "fast",
        Way::Recovery => "recovery",
    }
}

#[derive(Clone, Copy)]
struct Reported(Report);

impl fmt::Display for Reported {
    fn fmt<W: fmt::Write>(&self, f: &mut fmt::Formatter<W>) -> fmt::Result {
        let Report { view, value } = self.0;
        write!(f, "{view}:{}", joined(value))
    }
}

#[derive(Clone, Copy)]
struct Decided(Decision);

impl fmt::Display for Decided {
    fn fmt<W: fmt::Write>(&self, f: &mut fmt::Formatter<W>) -> fmt::Result {
        let Decision { report, way } = self.0;
        write!(f, "{}:{}", way_name(way), Reported(report))
    }
}

// What stands in the rows of so many sites, with commas between them.
#[derive(Clone, Copy)]
struct Listed<'a, T> {
    rows: &'a [T],
    sites: usize,
}

fn by_site<T>(rows: &[T; 16], sites: usize) -> Listed<'_, T> {
    Listed { rows, sites }
}

// The fix that a row holds.
fn fix_of_row(row: Option<Value>) -> IfAny<Numbers> {
    IfAny(row.map(joined))
}

impl<T: fmt::Display> fmt::Display for Listed<'_, T> {
    fn fmt<W: fmt::Write>(&self, f: &mut fmt::Formatter<W>) -> fmt::Result {
        for (site, row) in self.rows.iter().take(self.sites).enumerate() {
            if site > 0 {
                f.write_str(",")?;
            }
            write!(f, "{row}")?;
        }
        Ok(())
    }
}

// ---- buffers and record ----

// The three books, and out.
#[derive(Clone, Copy)]
struct Lent<'a>(&'a Buffers);

impl fmt::Display for Lent<'_> {
    fn fmt<W: fmt::Write>(&self, f: &mut fmt::Formatter<W>) -> fmt::Result {
        let Buffers {
            tags,
            certificate,
            views,
            out,
        } = self.0;
        write!(f, "{} ", Bytes(tags.as_slice()))?;
        write!(f, "{} ", Bytes(certificate.as_slice()))?;
        write!(f, "{} ", Bytes(views.as_slice()))?;
        write!(f, "{}", Bytes(out.as_slice()))
    }
}

#[derive(Clone, Copy)]
struct Recorded<'a>(&'a Record);

impl fmt::Display for Recorded<'_> {
    fn fmt<W: fmt::Write>(&self, f: &mut fmt::Formatter<W>) -> fmt::Result {
        let Record { member, round } = *self.0;
        write!(f, "f={} t={}", member.fleet.f(), member.fleet.t())?;
        write!(f, " own={} L={}", member.own, member.limit.bytes())?;
        write!(f, " round={} view={}", round.number, round.view.number())?;
        write!(f, " proposed={}", if round.proposed { "yes" } else { "no" })?;
        write!(f, " prepared={}", IfAny(round.prepared.map(Reported)))?;
        write!(f, " committed={}", IfAny(round.committed.map(Reported)))?;
        let sites = member.fleet.n() as usize;
        write!(
            f,
            " prepares={}",
            by_site(&round.rows.prepares.map(fix_of_row), sites)
        )?;
        write!(
            f,
            " commits={}",
            by_site(&round.rows.commits.map(fix_of_row), sites)
        )?;
        write!(f, " tags={}", by_site(&round.lengths.tags, sites))?;
        write!(f, " certificate={}", round.lengths.certificate)?;
        write!(f, " views={}", by_site(&round.lengths.views, sites))?;
        write!(f, " decision={}", IfAny(round.decision.map(Decided)))
    }
}
