// Drafts and messages, and sealing. A refusal leaves `out` as it was.
ghost use Rattle.std.specs.Prelude.{◌≡◌, ◌+◌, length, nat_le};
ghost use Rattle.values.specs.Refusals.{answered};
ghost use Rattle.messages.specs.Parts.{told};
ghost use Rattle.writing.specs.Written.{drafting, sending_of, sending, sealing};

use super::tag::Tag;
use buffers::Piece;
use messages::{Message, draft_end};
use values::{Refusal, TagLimit};
use wire::{Packet, Statement};

fn has_room(out: &[u8], first: usize, second: usize) -> bool
    ensures { result ≡ nat_le (first + second) (length out.now) }
{
    first
        .checked_add(second)
        .is_some_and(|both| both <= out.len())
}

// A statement and its attachment, at the start of `out`; answers their length.
pub fn write_draft(
    statement: Statement,
    attachment: &[u8],
    out: &mut [u8],
) -> Result<usize, Refusal>
    ensures value { answered (λ n. n) result ≡ (drafting statement attachment.now out.old).0 }
    ensures after { out.new ≡ (drafting statement attachment.now out.old).1 }
{
    if !has_room(out, statement.length(), attachment.len()) {
        return Err(Refusal::Short);
    }
    Ok((statement, attachment).put(out, 0))
}

// What a message is written from.
#[derive(Clone, Copy)]
struct Parts<'a> {
    statement: Statement,
    tag: &'a [u8],
    attachment: &'a [u8],
}

// The parts, at the start of `out`; answers their length.
fn write_parts(parts: Parts<'_>, limit: TagLimit, out: &mut [u8]) -> Result<usize, Refusal>
    ensures value { answered (λ n. n) result ≡ (sending_of limit.bytes parts.entry.statement parts.entry.tag.now parts.entry.attachment.now out.old).0 }
    ensures after { out.new ≡ (sending_of limit.bytes parts.entry.statement parts.entry.tag.now parts.entry.attachment.now out.old).1 }
{
    let Parts {
        statement,
        tag,
        attachment,
    } = parts;
    let tag = Tag::within(limit, tag)?;
    if !has_room(out, statement.length() + tag.length(), attachment.len()) {
        return Err(Refusal::Short);
    }
    Ok((statement, (tag, attachment)).put(out, 0))
}

impl<'a> Parts<'a> {
    fn of(message: Message<'a>) -> Parts<'a>
        ensures statement { result.statement ≡ (told message.entry).statement }
        ensures tag { result.tag.now ≡ (told message.entry).tag.bytes }
        ensures attachment { result.attachment.now ≡ (told message.entry).attachment.bytes }
    {
        let (statement, tag, attachment): (_, _, &[u8]) = match message {
            Message::Propose {
                claim,
                tag,
                progress,
            } => (Statement::Propose(claim), tag, progress.bytes),
            Message::Prepare { claim, tag } => (Statement::Prepare(claim), tag, &[]),
            Message::Commit {
                claim,
                tag,
                certificate,
            } => (Statement::Commit(claim), tag, certificate.bytes),
            Message::NewView {
                change,
                tag,
                certificate,
            } => (Statement::NewView(change), tag, certificate.bytes),
        };
        Parts {
            statement,
            tag: tag.bytes,
            attachment,
        }
    }
}

// A whole message, at the start of `out`; answers its length.
pub fn write_message(
    message: Message<'_>,
    limit: TagLimit,
    out: &mut [u8],
) -> Result<usize, Refusal>
    ensures value { answered (λ n. n) result ≡ (sending limit.bytes (told message.entry) out.old).0 }
    ensures after { out.new ≡ (sending limit.bytes (told message.entry) out.old).1 }
{
    write_parts(Parts::of(message), limit, out)
}

// Puts a tag behind the statement of a draft, and the message at the start of `out`;
// answers its length.
pub fn seal(draft: &[u8], tag: &[u8], limit: TagLimit, out: &mut [u8]) -> Result<usize, Refusal>
    ensures value { answered (λ n. n) result ≡ (sealing limit.bytes draft.now tag.now out.old).0 }
    ensures after { out.new ≡ (sealing limit.bytes draft.now tag.now out.old).1 }
{
    let tag = Tag::within(limit, tag)?;
    if !has_room(out, draft.len(), limit.bytes() + 4) {
        return Err(Refusal::Short);
    }
    let end = draft_end(Packet {
        bytes: draft,
        limit,
    })?;
    let (front, back) = draft.split_at(end);
    Ok((front, (tag, back)).put(out, 0))
}
