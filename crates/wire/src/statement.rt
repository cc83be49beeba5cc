// Statements: what a site says, and vouches for with its tag.
ghost use Rattle.std.specs.Prelude.{◌≡◌, ◌+◌, ◌≤◌, length, OnOk};
ghost use Rattle.wire.specs.Contents.{head_bytes, claim_bytes, change_bytes, report_bytes, statement_bytes};
ghost use Rattle.wire.specs.Layout.{three_at, value_at, head_at, report_at, claim_at, change_at};

use super::words::{Field, Malformed, word_at};
use buffers::Piece;
use values::{Report, Value};

// The three words behind the kind word of every statement.
#[derive(Clone, Copy, Debug, PartialEq, Eq)]
pub struct Head {
    pub round: u32,
    pub view: u32,
    pub site: u32,
}

// The site stands for a value: proposes, prepares or commits it.
#[derive(Clone, Copy, Debug, PartialEq, Eq)]
pub struct Claim {
    pub head: Head,
    pub value: Value,
}

// The site has moved to the view, and reports what it last prepared and committed.
#[derive(Clone, Copy, Debug, PartialEq, Eq)]
pub struct ViewChange {
    pub head: Head,
    pub prepared: Option<Report>,
    pub committed: Option<Report>,
}

#[derive(Clone, Copy, Debug, PartialEq, Eq)]
pub enum Statement {
    Propose(Claim),
    Prepare(Claim),
    Commit(Claim),
    NewView(ViewChange),
}

// The kinds' numbers, which read and write the one word that has them; `Statement` is their enum.
pub const PROPOSE: u32 = 1;

pub const PREPARE: u32 = 2;

pub const COMMIT: u32 = 3;

pub const NEW_VIEW: u32 = 4;

// ---- reading ----

// Three words, one behind the other.
fn three_at(packet: &[u8], at: usize) -> Result<(u32, u32, u32), Malformed>
    ensures value { result ≡ three_at (λ x y z. (x, y, z)) packet.now at }
    ensures within { OnOk result (at + 12 ≤ length packet.now) }
{
    let first = word_at(packet, at)?;
    let second = word_at(packet, at + 4)?;
    let third = word_at(packet, at + 8)?;
    Ok((first, second, third))
}

// A value and a head differ in the names of their words alone, which no type parameter has.
fn value_at(packet: &[u8], at: usize) -> Result<Value, Malformed>
    ensures value { result ≡ value_at packet.now at }
    ensures within { OnOk result (at + 12 ≤ length packet.now) }
{
    let (first, second, third) = three_at(packet, at)?;
    Ok(Value {
        first,
        second,
        third,
    })
}

fn head_at(packet: &[u8], at: usize) -> Result<Head, Malformed>
    ensures value { result ≡ head_at packet.now at }
    ensures within { OnOk result (at + 12 ≤ length packet.now) }
{
    let (round, view, site) = three_at(packet, at)?;
    Ok(Head { round, view, site })
}

// A word that says whether a report is there, and the report.
impl Field for Option<Report> {
    ghost reads = { report_at };

    fn read(packet: &[u8], at: usize) -> Result<(Option<Report>, usize), Malformed> {
        match word_at(packet, at)? {
            0 => Ok((None, at + 4)),
            1 => {
                let view = word_at(packet, at + 4)?;
                let value = value_at(packet, at + 8)?;
                Ok((Some(Report { view, value }), at + 20))
            }
            _ => Err(Malformed { place: at }),
        }
    }
}

// What stands behind the kind word of a claim.
impl Field for Claim {
    ghost reads = { claim_at };

    fn read(packet: &[u8], at: usize) -> Result<(Claim, usize), Malformed> {
        let head = head_at(packet, at)?;
        let value = value_at(packet, at + 12)?;
        Ok((Claim { head, value }, at + 24))
    }
}

// What stands behind the kind word of a new-view.
impl Field for ViewChange {
    ghost reads = { change_at };

    fn read(packet: &[u8], at: usize) -> Result<(ViewChange, usize), Malformed> {
        let head = head_at(packet, at)?;
        let (prepared, next) = Field::read(packet, at + 12)?;
        let (committed, end) = Field::read(packet, next)?;
        Ok((
            ViewChange {
                head,
                prepared,
                committed,
            },
            end,
        ))
    }
}

// ---- writing ----

impl Piece for Head {
    ghost bytes = { head_bytes };

    fn put(self, out: &mut [u8], at: usize) -> usize {
        (self.round, (self.view, self.site)).put(out, at)
    }
}

impl Piece for Claim {
    ghost bytes = { claim_bytes };

    fn put(self, out: &mut [u8], at: usize) -> usize {
        (self.head, self.value).put(out, at)
    }
}

impl Piece for ViewChange {
    ghost bytes = { change_bytes };

    fn put(self, out: &mut [u8], at: usize) -> usize {
        (self.head, (self.prepared, self.committed)).put(out, at)
    }
}

// The kind word, and what stands behind it.
impl Piece for Statement {
    ghost bytes = { statement_bytes };

    fn put(self, out: &mut [u8], at: usize) -> usize {
        match self {
            Statement::Propose(claim) => (PROPOSE, claim).put(out, at),
            Statement::Prepare(claim) => (PREPARE, claim).put(out, at),
            Statement::Commit(claim) => (COMMIT, claim).put(out, at),
            Statement::NewView(change) => (NEW_VIEW, change).put(out, at),
        }
    }
}

// How many bytes a report takes.
pub fn report_length(report: Option<Report>) -> usize
    ensures value { result ≡ length (report_bytes report) }
    ensures bound { result ≤ 20 }
{
    match report {
        None => 4,
        Some(_) => 20,
    }
}

impl Statement {
    // How many bytes it takes.
    pub fn length(self) -> usize
        ensures value { result ≡ length (statement_bytes self) }
        ensures bound { result ≤ 56 }
    {
        match self {
            Statement::Propose(_) | Statement::Prepare(_) | Statement::Commit(_) => 28,
            Statement::NewView(change) => 16
                + report_length(change.prepared)
                + report_length(change.committed),
        }
    }
}
