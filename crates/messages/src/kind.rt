// The kinds of messages, behind one reading interface.
ghost use Rattle.std.specs.Prelude.{◌≡◌, ℕ, ◌+◌, ◌≤◌, List, length, IfOk, Some, Ok, Result, refl};
ghost use Rattle.wire.specs.declared.words.Malformed.{Malformed};
ghost use Rattle.wire.specs.declared.statement.Statement.{Statement};
ghost use Rattle.wire.specs.declared.statement.Statement.TheVariants as statement;
ghost use Rattle.wire.specs.Layout.{votes_at, certified_at, progress_at, turn_at};
ghost use Rattle.wire.specs.Places.{Inside, behind};
ghost use Rattle.messages.specs.Parts.{Pieces, pieces_of, envelope_read, parts_at, shortest_of, told, under, bare};

use super::message::Message;
use values::TagLimit;
use wire::{
    COMMIT, Claim, Counted, Field, Malformed, NEW_VIEW, PREPARE, PROPOSE, Packet, Part, ViewChange,
    word_at,
};

// A message of one kind, taken apart.
#[derive(Drop)]
pub struct Envelope<'a, R> {
    pub statement: R,
    pub tag: Part<'a>,
    pub attachment: Part<'a>,
}

// A kind of message: the record of its statement, its number, its shortest length,
// and what it attaches.
pub trait Kind {
    type Record: Field + Copy;

    const NUMBER: u32;

    const SHORTEST: usize;

    ghost NUMBER: { ℕ };

    ghost SHORTEST: { ℕ };

    ghost attaches: { ℕ → List ℕ → Self.Record → ℕ → Result ℕ Malformed };

    // The place behind what a statement attaches.
    fn attachment_end(said: Self::Record, packet: Packet<'_>, at: usize) -> Result<usize, Malformed>
        ensures value { result ≡ attaches packet.entry.limit.bytes packet.entry.bytes.now said at }
        ensures within { IfOk result (λ e. (at ≤ length packet.entry.bytes.now → Inside at e packet.entry.bytes.now)) };

    ghost is_shortest: { Some SHORTEST ≡ shortest_of NUMBER };
}

// A kind whose messages may be whole packets.
pub trait Whole: Kind {
    ghost tells: { Pieces Self.Record → Pieces Statement };

    // The message that its parts are.
    fn message<'a>(parts: Envelope<'a, Self::Record>) -> Message<'a>
        ensures { told result ≡ tells (pieces_of parts.entry) };
}

// The message of one kind at a place, and the place behind it.
pub fn envelope_at<K: Kind>(
    packet: Packet<'_>,
    at: usize,
) -> Result<(Envelope<'_, K::Record>, usize), Malformed>
    ensures value { envelope_read result ≡ parts_at K.Kind.NUMBER (K.Record.reads packet.entry.bytes.now) (K.Kind.attaches packet.entry.limit.bytes packet.entry.bytes.now) packet.entry.limit.bytes packet.entry.bytes.now at }
    ensures within { IfOk result (λ p. Inside at p.1 packet.entry.bytes.now) }
{
    if word_at(packet.bytes, at)? != K::NUMBER {
        return Err(Malformed { place: at });
    }
    let (statement, next) = K::Record::read(packet.bytes, at + 4)?;
    let (tag, start) = packet.tag_at(next)?;
    let end = K::attachment_end(statement, packet, start)?;
    let attachment = Part {
        place: start,
        bytes: &packet.bytes[start..end],
    };
    Ok((
        Envelope {
            statement,
            tag,
            attachment,
        },
        end,
    ))
}

pub struct Propose;

pub struct Prepare;

pub struct Commit;

pub struct NewView;

impl Kind for Prepare {
    type Record = Claim;

    const NUMBER: u32 = PREPARE;

    const SHORTEST: usize = 32;

    ghost NUMBER = { 2 };

    ghost SHORTEST = { 32 };

    ghost attaches = { λ limit b c at. Ok at };

    fn attachment_end(_said: Claim, _packet: Packet<'_>, at: usize) -> Result<usize, Malformed> {
        Ok(at)
    }

    ghost is_shortest = { refl };
}

impl Whole for Prepare {
    ghost tells = { bare };

    fn message<'a>(parts: Envelope<'a, Claim>) -> Message<'a>
        ensures { told result ≡ bare (pieces_of parts.entry) }
    {
        Message::Prepare {
            claim: parts.statement,
            tag: parts.tag,
        }
    }
}

impl Kind for Commit {
    type Record = Claim;

    const NUMBER: u32 = COMMIT;

    const SHORTEST: usize = 36;

    ghost NUMBER = { 3 };

    ghost SHORTEST = { 36 };

    ghost attaches = { λ limit b c at. behind (votes_at limit b at) };

    fn attachment_end(_said: Claim, packet: Packet<'_>, at: usize) -> Result<usize, Malformed> {
        packet.certificate_end(at)
    }

    ghost is_shortest = { refl };
}

impl Whole for Commit {
    ghost tells = { under statement.Commit };

    fn message<'a>(parts: Envelope<'a, Claim>) -> Message<'a>
        ensures { told result ≡ under statement.Commit (pieces_of parts.entry) }
    {
        Message::Commit {
            claim: parts.statement,
            tag: parts.tag,
            certificate: parts.attachment,
        }
    }
}

impl Kind for NewView {
    type Record = ViewChange;

    const NUMBER: u32 = NEW_VIEW;

    const SHORTEST: usize = 28;

    ghost NUMBER = { 4 };

    ghost SHORTEST = { 28 };

    ghost attaches = { λ limit b c at. behind (certified_at limit b c.committed at) };

    fn attachment_end(said: ViewChange, packet: Packet<'_>, at: usize) -> Result<usize, Malformed> {
        match said.committed {
            Some(_) => packet.certificate_end(at),
            None => Ok(at),
        }
    }

    ghost is_shortest = { refl };
}

impl Whole for NewView {
    ghost tells = { under statement.NewView };

    fn message<'a>(parts: Envelope<'a, ViewChange>) -> Message<'a>
        ensures { told result ≡ under statement.NewView (pieces_of parts.entry) }
    {
        Message::NewView {
            change: parts.statement,
            tag: parts.tag,
            certificate: parts.attachment,
        }
    }
}

impl Counted for NewView {
    ghost ends = { λ limit b at. behind (turn_at limit b at) };

    fn end(packet: Packet<'_>, at: usize) -> Result<usize, Malformed> {
        let (_, end) = envelope_at::<NewView>(packet, at)?;
        Ok(end)
    }
}

// The place behind a progress certificate, a count word and whole new-views: a name, with the
// certificate's own definition.
pub fn progress_end(packet: Packet<'_>, at: usize) -> Result<usize, Malformed>
    ensures value { result ≡ behind (progress_at packet.entry.limit.bytes packet.entry.bytes.now at) }
    ensures within { IfOk result (λ e. Inside at e packet.entry.bytes.now) }
{
    packet.counted_end::<NewView>(at)
}

impl Kind for Propose {
    type Record = Claim;

    const NUMBER: u32 = PROPOSE;

    const SHORTEST: usize = 36;

    ghost NUMBER = { 1 };

    ghost SHORTEST = { 36 };

    ghost attaches = { λ limit b c at. behind (progress_at limit b at) };

    fn attachment_end(_said: Claim, packet: Packet<'_>, at: usize) -> Result<usize, Malformed> {
        progress_end(packet, at)
    }

    ghost is_shortest = { refl };
}

impl Whole for Propose {
    ghost tells = { under statement.Propose };

    fn message<'a>(parts: Envelope<'a, Claim>) -> Message<'a>
        ensures { told result ≡ under statement.Propose (pieces_of parts.entry) }
    {
        Message::Propose {
            claim: parts.statement,
            tag: parts.tag,
            progress: parts.attachment,
        }
    }
}

// The length of the shortest message of a kind, by the number that a packet has for it: callers
// have read no more of the packet than that.
pub fn shortest(kind: u32) -> Option<usize>
    ensures { result ≡ shortest_of kind }
{
    match kind {
        Propose::NUMBER => Some(Propose::SHORTEST),
        Prepare::NUMBER => Some(Prepare::SHORTEST),
        Commit::NUMBER => Some(Commit::SHORTEST),
        NewView::NUMBER => Some(NewView::SHORTEST),
        _ => None,
    }
}
