// Sites whose calls are made one after the other: a fleet of four, the tag limit 4, the round 9.
use super::signs::Signs;
use records::{Books, BooksMut, Decision, Way, held};
use site::{Heard, Site, What};
use std::test::Fail;
use values::{Refusal, Report, Value};

// A message as a site has sealed it.
#[derive(Clone, Copy)]
pub struct Packet {
    message: [u8; 352],
    length: usize,
}

impl Packet {
    pub fn bytes(&self) -> &[u8] {
        held(&self.message, self.length)
    }
}

// The books of a site.
#[derive(Clone, Copy, Debug, PartialEq, Eq)]
pub struct Shelf {
    pub tags: [u8; 32],
    pub certificate: [u8; 40],
    pub views: [u8; 416],
}

impl Shelf {
    pub fn books(&self) -> Books<'_> {
        Books {
            tags: &self.tags,
            certificate: &self.certificate,
            views: &self.views,
        }
    }

    pub fn books_mut(&mut self) -> BooksMut<'_> {
        let Shelf {
            tags,
            certificate,
            views,
        } = self;
        BooksMut {
            tags,
            certificate,
            views,
        }
    }
}

// A site, and what is lent to its calls.
#[derive(Clone, Copy, Debug, PartialEq, Eq)]
pub struct Bench {
    pub site: Site,
    pub shelf: Shelf,
    pub out: [u8; 352],
}

impl Bench {
    // Books and out are full of ff, so that each byte that is written shows.
    pub fn new(own: u32) -> Result<Bench, Fail> {
        let shelf = Shelf {
            tags: [0xff; 32],
            certificate: [0xff; 40],
            views: [0xff; 416],
        };
        Ok(Bench {
            site: Site::open(1, 0, own, 4, 9)?,
            shelf,
            out: [0xff; 352],
        })
    }

    pub fn propose(&mut self, value: Value) -> Result<usize, Refusal> {
        let books = self.shelf.books();
        self.site.propose(value, &Signs, books, &mut self.out)
    }

    pub fn hear(&mut self, packet: &[u8]) -> Result<Heard, Refusal> {
        let books = self.shelf.books_mut();
        self.site.hear(packet, &Signs, books, &mut self.out)
    }

    pub fn leave(&mut self, view: u32) -> Result<usize, Refusal> {
        let books = self.shelf.books();
        self.site.leave(view, books, &mut self.out)
    }

    pub fn read(&self) -> Option<Decision> {
        self.site.read()
    }

    // The draft of so many bytes in out, sealed with the site's tag.
    pub fn sealed(&self, draft: usize) -> Result<Packet, Fail> {
        let [.., tag] = self.site.record().member.own.to_be_bytes();
        let mut message = [0; 352];
        let length = self
            .site
            .seal(held(&self.out, draft), &[tag], &mut message)?;
        Ok(Packet { message, length })
    }
}

pub fn harbour() -> Result<[Bench; 4], Fail> {
    Ok([
        Bench::new(0)?,
        Bench::new(1)?,
        Bench::new(2)?,
        Bench::new(3)?,
    ])
}

// Site 0 proposes a value in view 1, and all prepare it.
pub fn prepared_by_all(sites: &mut [Bench; 4], value: Value) -> Result<[Packet; 4], Fail> {
    let draft = sites[0].propose(value)?;
    let offer = sites[0].sealed(draft)?;
    let mut prepares = [offer; 4];
    for (site, prepare) in sites.iter_mut().zip(prepares.iter_mut()) {
        let heard = site.hear(offer.bytes())?;
        *prepare = site.sealed(heard.bytes)?;
    }
    Ok(prepares)
}

// Site 1 leads view 2, and has gathered three new-views there.
pub fn leading(new_views: [&[u8]; 3]) -> Result<Bench, Fail> {
    let mut site = Bench::new(1)?;
    site.leave(2)?;
    for new_view in new_views {
        site.hear(new_view)?;
    }
    Ok(site)
}

// What hear answers.
pub fn noted(bytes: usize) -> Result<Heard, Refusal> {
    let what = What::Noted;
    Ok(Heard { what, bytes })
}

pub const GATHERED: Result<Heard, Refusal> = Ok(Heard {
    what: What::Gathered,
    bytes: 0,
});

pub const DECIDED: Result<Heard, Refusal> = Ok(Heard {
    what: What::Decided,
    bytes: 0,
});

// A decision of view 1.
pub fn decision(value: Value, way: Way) -> Option<Decision> {
    let report = Report { view: 1, value };
    Some(Decision { report, way })
}
