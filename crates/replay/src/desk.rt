// The service desk: the site that is open, and what is lent to its calls.
use super::command::{Book, Call, Command, Patch};
use super::line::{BadLine, Failure};
use super::report::Reply;
use checks::Register;
use lending::Buffers;
use site::Site;
use std::alloc::Global;

#[derive(Drop)]
pub struct Desk {
    heap: Global,
    site: Option<Site>,
    register: Vec<u8>,
    lent: Buffers,
}

impl Desk {
    // No site is open, and register and buffers are empty.
    pub fn new(heap: Global) -> Desk {
        Desk {
            heap,
            site: None,
            register: Vec::new(heap),
            lent: Buffers::empty(heap),
        }
    }

    // Does what a line asks for; what is to be said of it, if anything.
    pub fn perform(&mut self, command: Command) -> Result<Option<Reply<'_>>, Failure> {
        match command {
            Command::Register { rows } => {
                self.register = rows;
                Ok(None)
            }
            Command::Lend { sizes, fill } => {
                self.lent = Buffers::filled(self.heap, sizes, fill)?;
                Ok(None)
            }
            Command::Poke(patch) => {
                self.poke(&patch)?;
                Ok(None)
            }
            Command::Open(terms) => {
                self.site = Some(terms.open()?);
                Ok(Some(Reply::Opened))
            }
            Command::Call(call) => Ok(Some(self.call(call)?)),
            Command::Books => Ok(Some(Reply::Books(&self.lent))),
            Command::Record => {
                let site = self.site.as_ref().ok_or(BadLine::NoSiteIsOpen)?;
                Ok(Some(Reply::Record(site.record())))
            }
        }
    }

    // Lays bytes over a book, inside it.
    fn poke(&mut self, patch: &Patch) -> Result<(), BadLine> {
        let bytes = patch.bytes.as_slice();
        let end = patch.at.checked_add(bytes.len());
        let end = end.ok_or(BadLine::OutsideTheBook)?;
        let room = self.book(patch.book).get_mut(patch.at..end);
        room.ok_or(BadLine::OutsideTheBook)?.copy_from_slice(bytes);
        Ok(())
    }

    fn book(&mut self, book: Book) -> &mut [u8] {
        match book {
            Book::Tags => self.lent.tags.as_mut_slice(),
            Book::Certificate => self.lent.certificate.as_mut_slice(),
            Book::Views => self.lent.views.as_mut_slice(),
        }
    }

    // A call of the open site.
    fn call(&mut self, call: Call) -> Result<Reply<'_>, Failure> {
        let site = self.site.as_mut().ok_or(BadLine::NoSiteIsOpen)?;
        let check = Register::new(self.register.as_slice());
        let lent = &mut self.lent;
        match call {
            Call::Propose(fix) => {
                let (books, out) = lent.lend();
                let length = site.propose(fix.into(), &check, books, out)?;
                Ok(Reply::Wrote(lent.written(length)))
            }
            Call::Hear { packet } => {
                let (books, out) = lent.lend_mut();
                let heard = site.hear(packet.as_slice(), &check, books, out)?;
                Ok(Reply::Heard(heard.what, lent.written(heard.bytes)))
            }
            Call::Leave { view } => {
                let (books, out) = lent.lend();
                let length = site.leave(view, books, out)?;
                Ok(Reply::Wrote(lent.written(length)))
            }
            Call::Seal { draft, tag } => {
                let out = lent.out.as_mut_slice();
                let length = site.seal(draft.as_slice(), tag.as_slice(), out)?;
                Ok(Reply::Wrote(lent.written(length)))
            }
            Call::Judge { view, certificate } => {
                let verdict = site.judge(view, certificate.as_slice(), &check)?;
                Ok(Reply::Judged(verdict))
            }
            Call::Read => Ok(Reply::Found(site.read())),
        }
    }
}
