// What the library offers for packets: reading, writing and sealing, with their laws.
#![tactic(auto)]

ghost use Rattle.std.specs.Prelude.{◌≡◌, IfOk};
ghost use Rattle.values.specs.Refusals.{answered};
ghost use Rattle.messages.specs.Parts.{told};
ghost use Rattle.writing.specs.Written.{drafting, sending, sealing};
ghost use Rattle.packets.specs.Laws.{reading_of, joined, WrittenReadsBack, OneByteString, KindIsTheFirstWord, StatementsToldApart, SealedReadsBack, DraftsAreSealed, Shortest, FixesAreWords};

use messages::{Message, read_message};
use values::{Refusal, TagLimit};
use wire::{Packet, Statement};
use writing::write_message;

// Which of the four messages a packet is, with its parts and their places.
pub fn read(packet: &[u8], limit: TagLimit) -> Result<Message<'_>, Refusal>
    ensures value { answered told result ≡ reading_of limit.bytes packet.now }
    ensures one_string { OneByteString }
    ensures parts { IfOk result (λ m. joined (told m) ≡ packet.now) }
    ensures kind { KindIsTheFirstWord }
    ensures shortest { Shortest }
    ensures fixes { FixesAreWords }
{
    Ok(read_message(Packet {
        bytes: packet,
        limit,
    })?)
}

// Writes a message to the start of `out`, and answers its length.
pub fn write(message: Message<'_>, limit: TagLimit, out: &mut [u8]) -> Result<usize, Refusal>
    ensures value { answered (λ n. n) result ≡ (sending limit.bytes (told message.entry) out.old).0 }
    ensures after { out.new ≡ (sending limit.bytes (told message.entry) out.old).1 }
    ensures back { WrittenReadsBack }
    ensures apart { StatementsToldApart }
{
    write_message(message, limit, out)
}

// Writes a draft, a statement and its attachment, to the start of `out`, and answers its length.
pub fn draft(statement: Statement, attachment: &[u8], out: &mut [u8]) -> Result<usize, Refusal>
    ensures value { answered (λ n. n) result ≡ (drafting statement attachment.now out.old).0 }
    ensures after { out.new ≡ (drafting statement attachment.now out.old).1 }
{
    writing::write_draft(statement, attachment, out)
}

// Puts a tag into a draft, writes the message to the start of `out`, and answers its length.
pub fn seal(draft: &[u8], tag: &[u8], limit: TagLimit, out: &mut [u8]) -> Result<usize, Refusal>
    ensures value { answered (λ n. n) result ≡ (sealing limit.bytes draft.now tag.now out.old).0 }
    ensures after { out.new ≡ (sealing limit.bytes draft.now tag.now out.old).1 }
    ensures back { SealedReadsBack }
    ensures sealed { DraftsAreSealed }
{
    writing::seal(draft, tag, limit, out)
}
