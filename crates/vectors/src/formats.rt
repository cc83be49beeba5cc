// The bytes of the formats, and how long the books have to be.
use super::line::{Line, Readable, UnknownWord};
use super::tally::Tally;
use anyhow::anyhow;
use checks::register_row;
use packets::{draft, read, seal, write};
use records::Sizes;
use std::str::FromStr;
use values::{Fix, Fleet, Refusal, TagLimit};
use wire::{Claim, Head, Statement};

// Room for any message that the lines have: one number, so that what is expected sets no room.
const ROOM: usize = 65536;

// Whether what is written into a buffer is what is expected; a refusal is not.
fn writes<F: FnOnce(&mut [u8]) -> Result<usize, Refusal>>(
    line: Line<'_>,
    expected: &[u8],
    write: F,
) -> anyhow::Result<bool>
    requires { F.IsAlwaysCallable write }
{
    let mut out = vec![in line.heap; 0u8; ROOM]?;
    let len = write(out.as_mut_slice());
    Ok(len.is_ok_and(|len| out.as_slice().get(..len) == Some(expected)))
}

fn length(line: Line<'_>, at: usize) -> anyhow::Result<usize> {
    Ok(line.read::<u32>(at)? as usize)
}

fn limit(line: Line<'_>, at: usize) -> anyhow::Result<TagLimit> {
    TagLimit::new(length(line, at)?).map_err(|_| anyhow!("no tag limit"))
}

// The kinds of statements that the lines have.
#[derive(Clone, Copy)]
enum Kind {
    Propose,
    Prepare,
    Commit,
}

impl FromStr for Kind {
    type Err = UnknownWord;

    fn from_str(name: &str) -> Result<Kind, UnknownWord> {
        match name {
            "propose" => Ok(Kind::Propose),
            "prepare" => Ok(Kind::Prepare),
            "commit" => Ok(Kind::Commit),
            _ => Err(UnknownWord),
        }
    }
}

impl Readable for Kind {
    const OTHERWISE: &'static str = "no such kind";
}

impl Kind {
    fn statement(self, claim: Claim) -> Statement {
        match self {
            Kind::Propose => Statement::Propose(claim),
            Kind::Prepare => Statement::Prepare(claim),
            Kind::Commit => Statement::Commit(claim),
        }
    }
}

// statement KIND ROUND VIEW SITE TRACK LONGITUDE LATITUDE BYTES
pub fn run_statement(line: Line<'_>, tally: &mut Tally<'_>) -> anyhow::Result<()> {
    line.expect(9)?;
    let name = line.word(1)?;
    let head = Head {
        round: line.read(2)?,
        view: line.read(3)?,
        site: line.read(4)?,
    };
    let fix = Fix {
        track: line.read(5)?,
        longitude: line.read(6)?,
        latitude: line.read(7)?,
    };
    let kind: Kind = line.read(1)?;
    let statement = kind.statement(Claim {
        head,
        value: fix.into(),
    });
    let expected = line.bytes(8)?;
    let right = writes(line, expected.as_slice(), |out| draft(statement, &[], out))?;
    tally.note(format_args!("statement: {name}"), right)
}

// seal L DRAFT TAG MESSAGE
pub fn run_seal(line: Line<'_>, tally: &mut Tally<'_>) -> anyhow::Result<()> {
    line.expect(5)?;
    let limit = limit(line, 1)?;
    let drafted = line.bytes(2)?;
    let tag = line.bytes(3)?;
    let expected = line.bytes(4)?;
    let right = writes(line, expected.as_slice(), |out| {
        seal(drafted.as_slice(), tag.as_slice(), limit, out)
    })?;
    tally.note("sealed draft", right)
}

// packet L PACKET: what is read from it is written back as the same bytes.
pub fn run_packet(line: Line<'_>, tally: &mut Tally<'_>) -> anyhow::Result<()> {
    line.expect(3)?;
    let limit = limit(line, 1)?;
    let packet = line.bytes(2)?;
    let packet = packet.as_slice();
    let right = writes(line, packet, |out| write(read(packet, limit)?, limit, out))?;
    let len = packet.len();
    tally.note(
        format_args!("packet of {len} bytes, read and written"),
        right,
    )
}

// row SITE STATEMENT ROW; `-` where the statement has none.
pub fn run_row(line: Line<'_>, tally: &mut Tally<'_>) -> anyhow::Result<()> {
    line.expect(4)?;
    let site = line.read(1)?;
    let statement = line.bytes(2)?;
    let expected = line.bytes(3)?;
    let row = register_row(site, statement.as_slice());
    let right = row.map_or(expected.is_empty(), |row| {
        row.as_slice() == expected.as_slice()
    });
    let len = statement.len();
    tally.note(format_args!("register row of {len} bytes"), right)
}

// sizes F T L TAGS CERTIFICATE VIEWS OUT: how long the three books and out have to be.
pub fn run_sizes(line: Line<'_>, tally: &mut Tally<'_>) -> anyhow::Result<()> {
    line.expect(8)?;
    let fleet = Fleet::new(line.read(1)?, line.read(2)?).map_err(|_| anyhow!("no fleet"))?;
    let limit = limit(line, 3)?;
    let expected = Sizes {
        tags: length(line, 4)?,
        certificate: length(line, 5)?,
        views: length(line, 6)?,
        out: length(line, 7)?,
    };
    let right = Sizes::of(fleet, limit) == expected;
    let (f, t, bytes) = (fleet.f(), fleet.t(), limit.bytes());
    tally.note(
        format_args!("sizes for f {f}, t {t}, tags of {bytes} bytes"),
        right,
    )
}
