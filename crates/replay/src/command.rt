// What a line asks for.
use super::line::{BadLine, Failure, Line};
use records::Sizes;
use site::Site;
use values::{Fix, Refusal};

// What open is given.
#[derive(Clone, Copy)]
pub struct Terms {
    f: u32,
    t: u32,
    own: u32,
    limit: usize,
    round: u32,
}

#[derive(Clone, Copy)]
pub enum Book {
    Tags,
    Certificate,
    Views,
}

// Bytes that are laid over a book from a place on.
#[derive(Drop)]
pub struct Patch {
    pub book: Book,
    pub at: usize,
    pub bytes: Vec<u8>,
}

// A call of the open site.
#[derive(Drop)]
pub enum Call {
    Propose(Fix),
    Hear { packet: Vec<u8> },
    Leave { view: u32 },
    Seal { draft: Vec<u8>, tag: Vec<u8> },
    Judge { view: u32, certificate: Vec<u8> },
    Read,
}

#[derive(Drop)]
pub enum Command {
    Register { rows: Vec<u8> },
    Lend { sizes: Sizes, fill: u8 },
    Poke(Patch),
    Open(Terms),
    Call(Call),
    Books,
    Record,
}

impl Terms {
    // open F T OWN L ROUND
    fn read(line: Line<'_>) -> Result<Terms, BadLine> {
        line.expect(6)?;
        Ok(Terms {
            f: line.number(1)?,
            t: line.number(2)?,
            own: line.number(3)?,
            limit: line.length(4)?,
            round: line.number(5)?,
        })
    }

    pub fn open(self) -> Result<Site, Refusal> {
        let Terms {
            f,
            t,
            own,
            limit,
            round,
        } = self;
        Site::open(f, t, own, limit, round)
    }
}

impl Book {
    fn named(name: &[u8]) -> Result<Book, BadLine> {
        match name {
            b"tags" => Ok(Book::Tags),
            b"cert" => Ok(Book::Certificate),
            b"views" => Ok(Book::Views),
            _ => Err(BadLine::NoSuchBook),
        }
    }
}

impl Patch {
    // poke BOOK AT BYTES
    fn read(line: Line<'_>) -> Result<Patch, Failure> {
        line.expect(4)?;
        Ok(Patch {
            book: Book::named(line.word(1)?)?,
            at: line.length(2)?,
            bytes: line.bytes(3)?,
        })
    }
}

impl Call {
    // propose TRACK LON LAT
    fn propose(line: Line<'_>) -> Result<Call, BadLine> {
        line.expect(4)?;
        Ok(Call::Propose(Fix {
            track: line.number(1)?,
            longitude: line.signed(2)?,
            latitude: line.signed(3)?,
        }))
    }

    // hear PACKET
    fn hear(line: Line<'_>) -> Result<Call, Failure> {
        line.expect(2)?;
        Ok(Call::Hear {
            packet: line.bytes(1)?,
        })
    }

    // leave VIEW
    fn leave(line: Line<'_>) -> Result<Call, BadLine> {
        line.expect(2)?;
        Ok(Call::Leave {
            view: line.number(1)?,
        })
    }

    // seal DRAFT TAG
    fn seal(line: Line<'_>) -> Result<Call, Failure> {
        line.expect(3)?;
        Ok(Call::Seal {
            draft: line.bytes(1)?,
            tag: line.bytes(2)?,
        })
    }

    // judge VIEW CERTIFICATE
    fn judge(line: Line<'_>) -> Result<Call, Failure> {
        line.expect(3)?;
        Ok(Call::Judge {
            view: line.number(1)?,
            certificate: line.bytes(2)?,
        })
    }
}

impl Command {
    // register ROWS
    fn register(line: Line<'_>) -> Result<Command, Failure> {
        line.expect(2)?;
        Ok(Command::Register {
            rows: line.bytes(1)?,
        })
    }

    // lend TAGS CERT VIEWS OUT FILL
    fn lend(line: Line<'_>) -> Result<Command, BadLine> {
        line.expect(6)?;
        let sizes = Sizes {
            tags: line.length(1)?,
            certificate: line.length(2)?,
            views: line.length(3)?,
            out: line.length(4)?,
        };
        let fill = line.byte(5)?;
        Ok(Command::Lend { sizes, fill })
    }

    // A word that is a line of its own.
    fn alone(self, line: Line<'_>) -> Result<Command, BadLine> {
        line.expect(1)?;
        Ok(self)
    }

    pub fn read(line: Line<'_>) -> Result<Command, Failure> {
        let command = match line.word(0)? {
            b"register" => Command::register(line)?,
            b"lend" => Command::lend(line)?,
            b"poke" => Command::Poke(Patch::read(line)?),
            b"open" => Command::Open(Terms::read(line)?),
            b"propose" => Command::Call(Call::propose(line)?),
            b"hear" => Command::Call(Call::hear(line)?),
            b"leave" => Command::Call(Call::leave(line)?),
            b"seal" => Command::Call(Call::seal(line)?),
            b"judge" => Command::Call(Call::judge(line)?),
            b"read" => Command::Call(Call::Read).alone(line)?,
            b"books" => Command::Books.alone(line)?,
            b"record" => Command::Record.alone(line)?,
            _ => return Err(BadLine::UnknownWord.into()),
        };
        Ok(command)
    }
}
