// Whole packets: the four messages, and drafts of them.
ghost use Rattle.std.specs.Prelude.{◌≡◌, ◌≤◌, length, IfOk, Ok};
ghost use Rattle.wire.specs.Layout.{wholly, turn_at, message_of, progress_of, draft_end};
ghost use Rattle.messages.specs.Parts.{map_ok, parts_at, told, locate, draft_place};

use super::kind::{Commit, Kind, NewView, Prepare, Propose, Whole, envelope_at, progress_end};
use wire::{Claim, Field, Malformed, Packet, Part, ViewChange, word_at};

// Which of the four messages a packet is, with parts of the packet. The certificate of
// a new-view is empty where it reports no commit.
#[derive(Clone, Copy)]
pub enum Message<'a> {
    Propose {
        claim: Claim,
        tag: Part<'a>,
        progress: Part<'a>,
    },
    Prepare {
        claim: Claim,
        tag: Part<'a>,
    },
    Commit {
        claim: Claim,
        tag: Part<'a>,
        certificate: Part<'a>,
    },
    NewView {
        change: ViewChange,
        tag: Part<'a>,
        certificate: Part<'a>,
    },
}

// Nothing may be left over behind `end`.
fn ends_at(packet: &[u8], end: usize) -> Result<(), Malformed>
    requires { end ≤ length packet.now }
    ensures { result ≡ wholly packet.now (Ok (tt, end)) }
{
    if end < packet.len() {
        return Err(Malformed { place: end });
    }
    Ok(())
}

// The whole packet as a message of one kind.
fn read_as<K: Whole>(packet: Packet<'_>) -> Result<Message<'_>, Malformed>
    ensures { map_ok told result ≡ map_ok K.Whole.tells (wholly packet.entry.bytes.now (parts_at K.Kind.NUMBER (K.Record.reads packet.entry.bytes.now) (K.Kind.attaches packet.entry.limit.bytes packet.entry.bytes.now) packet.entry.limit.bytes packet.entry.bytes.now 0)) }
{
    let (envelope, end) = envelope_at::<K>(packet, 0)?;
    ends_at(packet.bytes, end)?;
    Ok(K::message(envelope))
}

// The whole packet as one of the four messages. `Statement` is the enum of the kinds: no second one.
#[tactic(auto, unfolding(wire::specs::Layout::message_of))]
pub fn read_message(packet: Packet<'_>) -> Result<Message<'_>, Malformed>
    ensures { map_ok told result ≡ map_ok (locate packet.entry.bytes.now) (message_of packet.entry.limit.bytes packet.entry.bytes.now) }
{
    match word_at(packet.bytes, 0)? {
        Propose::NUMBER => read_as::<Propose>(packet),
        Prepare::NUMBER => read_as::<Prepare>(packet),
        Commit::NUMBER => read_as::<Commit>(packet),
        NewView::NUMBER => read_as::<NewView>(packet),
        _ => Err(Malformed { place: 0 }),
    }
}

// The layout of a packet that is one progress certificate.
pub fn read_progress(packet: Packet<'_>) -> Result<(), Malformed>
    ensures { result ≡ map_ok (λ turns. tt) (progress_of packet.entry.limit.bytes packet.entry.bytes.now) }
{
    ends_at(packet.bytes, progress_end(packet, 0)?)
}

// The layout of a packet that is one new-view.
pub fn read_new_view(packet: Packet<'_>) -> Result<(), Malformed>
    ensures { result ≡ map_ok (λ turn. tt) (wholly packet.entry.bytes.now (turn_at packet.entry.limit.bytes packet.entry.bytes.now 0)) }
{
    let (_, end) = envelope_at::<NewView>(packet, 0)?;
    ends_at(packet.bytes, end)
}

// The place behind the statement of a draft of one kind.
fn draft_as<K: Kind>(draft: Packet<'_>) -> Result<usize, Malformed>
    ensures value { result ≡ draft_place K.Kind.NUMBER (K.Record.reads draft.entry.bytes.now) (K.Kind.attaches draft.entry.limit.bytes draft.entry.bytes.now) draft.entry.bytes.now }
    ensures within { IfOk result (λ end. end ≤ length draft.entry.bytes.now) }
{
    if word_at(draft.bytes, 0)? != K::NUMBER {
        return Err(Malformed { place: 0 });
    }
    let (said, end) = K::Record::read(draft.bytes, 4)?;
    let last = K::attachment_end(said, draft, end)?;
    ends_at(draft.bytes, last)?;
    Ok(end)
}

// The place behind the statement of a draft, if its layout is good to the end.
// The match stands twice, since no parameter can be a function that is itself generic.
#[tactic(auto, unfolding(wire::specs::Layout::draft_end))]
pub fn draft_end(draft: Packet<'_>) -> Result<usize, Malformed>
    ensures value { result ≡ draft_end draft.entry.limit.bytes draft.entry.bytes.now }
    ensures within { IfOk result (λ end. end ≤ length draft.entry.bytes.now) }
{
    match word_at(draft.bytes, 0)? {
        Propose::NUMBER => draft_as::<Propose>(draft),
        Prepare::NUMBER => draft_as::<Prepare>(draft),
        Commit::NUMBER => draft_as::<Commit>(draft),
        NewView::NUMBER => draft_as::<NewView>(draft),
        _ => Err(Malformed { place: 0 }),
    }
}
