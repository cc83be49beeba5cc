// The site that lies: it makes no calls, and writes its packets by hand.
use super::harbour::{LIMIT, ROUND};
use super::registry::Registry;
use anyhow::bail;
use messages::Message;
use packets::{draft, read, seal};
use std::alloc::Global;
use values::{Report, TagLimit, Value};
use wire::{Claim, Head, Statement, ViewChange};

// Its number. It leads view 1.
const OWN: u32 = 0;

// More than any of its packets has.
const ROOM: usize = 128;

// A progress certificate without entries, as view 1 has it.
const NO_ENTRIES: [u8; 4] = [0; 4];

#[derive(Clone, Copy)]
pub struct Liar {
    heap: Global,
    limit: TagLimit,
}

// Who says something, in a view.
fn head(view: u32) -> Head {
    Head {
        round: ROUND,
        view,
        site: OWN,
    }
}

fn claim(view: u32, value: Value) -> Claim {
    Claim {
        head: head(view),
        value,
    }
}

impl Liar {
    pub fn new(heap: Global) -> anyhow::Result<Liar> {
        let limit = TagLimit::new(LIMIT)?;
        Ok(Liar { heap, limit })
    }

    // A statement and its attachment, as a draft.
    fn draft(self, statement: Statement, attachment: &[u8]) -> anyhow::Result<Vec<u8>> {
        let mut bytes = vec![in self.heap; 0u8; ROOM]?;
        let length = draft(statement, attachment, bytes.as_mut_slice())?;
        bytes.truncate(length);
        Ok(bytes)
    }

    // The same, signed and sealed.
    fn packet(
        self,
        statement: Statement,
        attachment: &[u8],
        registry: &mut Registry,
    ) -> anyhow::Result<Vec<u8>> {
        let signed = self.draft(statement, &[])?;
        let tag = registry.sign(OWN, signed.as_slice())?;
        let drafted = self.draft(statement, attachment)?;
        let mut bytes = vec![in self.heap; 0u8; ROOM]?;
        let length = seal(drafted.as_slice(), &tag, self.limit, bytes.as_mut_slice())?;
        bytes.truncate(length);
        Ok(bytes)
    }

    // A proposal of view 1.
    pub fn propose(self, value: Value, registry: &mut Registry) -> anyhow::Result<Vec<u8>> {
        let statement = Statement::Propose(claim(1, value));
        self.packet(statement, &NO_ENTRIES, registry)
    }

    pub fn prepare(
        self,
        view: u32,
        value: Value,
        registry: &mut Registry,
    ) -> anyhow::Result<Vec<u8>> {
        let statement = Statement::Prepare(claim(view, value));
        self.packet(statement, &[], registry)
    }

    // A new-view that reports a prepare.
    pub fn new_view(
        self,
        view: u32,
        prepared: Report,
        registry: &mut Registry,
    ) -> anyhow::Result<Vec<u8>> {
        let change = ViewChange {
            head: head(view),
            prepared: Some(prepared),
            committed: None,
        };
        self.packet(Statement::NewView(change), &[], registry)
    }

    // A new-view that reports a prepare, and a commit of the same, with a certificate.
    pub fn committed_new_view(
        self,
        view: u32,
        report: Report,
        prepares: &[Vec<u8>],
        registry: &mut Registry,
    ) -> anyhow::Result<Vec<u8>> {
        let change = ViewChange {
            head: head(view),
            prepared: Some(report),
            committed: Some(report),
        };
        let certificate = self.certificate(prepares)?;
        self.packet(Statement::NewView(change), certificate.as_slice(), registry)
    }

    // A commit certificate of prepares: their count, and of each its site and its tag.
    fn certificate(self, prepares: &[Vec<u8>]) -> anyhow::Result<Vec<u8>> {
        let mut bytes = Vec::new(self.heap);
        let count = u32::try_from(prepares.len())?;
        bytes.extend_from_slice(&count.to_be_bytes())?;
        for packet in prepares {
            let Message::Prepare { claim, tag } = read(packet.as_slice(), self.limit)? else {
                bail!("a packet that is no prepare");
            };
            let length = u32::try_from(tag.bytes.len())?;
            bytes.extend_from_slice(&claim.head.site.to_be_bytes())?;
            bytes.extend_from_slice(&length.to_be_bytes())?;
            bytes.extend_from_slice(tag.bytes)?;
        }
        Ok(bytes)
    }
}
