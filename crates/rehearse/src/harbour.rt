// The harbour that is rehearsed, and its sites that follow the rules.
use super::registry::Registry;
use lending::Buffers;
use messages::draft_end;
use records::{Decision, Member, Sizes};
use site::{Site, What};
use std::alloc::{AllocError, Global};
use values::{Refusal, TagLimit, Value};
use verdicts::Verdict;
use wire::Packet;

// One of four sites may lie.
const F: u32 = 1;

const T: u32 = 0;

// A tag is one word.
pub const LIMIT: usize = 4;

pub const ROUND: u32 = 9;

// A site, and what it lends to its calls.
#[derive(Drop)]
pub struct Station {
    heap: Global,
    site: Site,
    lent: Buffers,
    // what its last call has drafted
    draft: Vec<u8>,
}

// A draft's statement, and its attachment.
fn parts(draft: &[u8], limit: TagLimit) -> Result<(&[u8], &[u8]), Refusal> {
    let end = draft_end(Packet {
        bytes: draft,
        limit,
    })?;
    Ok(draft.split_at(end))
}

impl Station {
    pub fn open(heap: Global, own: u32) -> anyhow::Result<Station> {
        let site = Site::open(F, T, own, LIMIT, ROUND)?;
        let Member { fleet, limit, .. } = site.record().member;
        Ok(Station {
            heap,
            site,
            lent: Buffers::filled(heap, Sizes::of(fleet, limit), 0)?,
            draft: Vec::new(heap),
        })
    }

    // Keeps the draft, since later calls write over it.
    fn keep(&mut self, length: usize) -> Result<(), AllocError> {
        self.draft = self.lent.written(length).to_vec(self.heap)?;
        Ok(())
    }

    pub fn hear(&mut self, packet: &[u8], registry: &Registry) -> anyhow::Result<What> {
        let (books, out) = self.lent.lend_mut();
        let heard = self.site.hear(packet, &registry.check(), books, out)?;
        self.keep(heard.bytes)?;
        Ok(heard.what)
    }

    pub fn leave(&mut self, view: u32) -> anyhow::Result<()> {
        let (books, out) = self.lent.lend();
        let length = self.site.leave(view, books, out)?;
        Ok(self.keep(length)?)
    }

    pub fn propose(&mut self, value: Value, registry: &Registry) -> anyhow::Result<()> {
        let (books, out) = self.lent.lend();
        let length = self.site.propose(value, &registry.check(), books, out)?;
        Ok(self.keep(length)?)
    }

    // Judges the certificate of the proposal that it has drafted.
    pub fn judge(&self, registry: &Registry) -> Result<Verdict, Refusal> {
        let record = self.site.record();
        let view = record.round.view.number();
        let (_, certificate) = parts(self.draft.as_slice(), record.member.limit)?;
        self.site.judge(view, certificate, &registry.check())
    }

    // Signs what it has drafted, and seals it; the packet.
    pub fn seal(&mut self, registry: &mut Registry) -> anyhow::Result<Vec<u8>> {
        let Member { own, limit, .. } = self.site.record().member;
        let draft = self.draft.as_slice();
        let (statement, _) = parts(draft, limit)?;
        let tag = registry.sign(own, statement)?;
        let out = self.lent.out.as_mut_slice();
        let length = self.site.seal(draft, &tag, out)?;
        Ok(self.lent.written(length).to_vec(self.heap)?)
    }

    pub fn read(&self) -> Option<Decision> {
        self.site.read()
    }
}
