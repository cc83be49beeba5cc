// The calls that change a site: every test first, and then what cannot fail.
ghost use Rattle.std.specs.Prelude.{◌≡◌, length};
ghost use Rattle.values.specs.Refusals.{answered};
ghost use Rattle.checks.specs.Vouching.{Vouched};
ghost use Rattle.records.specs.Books.{books_of, writable_of};
ghost use Rattle.records.specs.Kept.{kept_of};
ghost use Rattle.calls.specs.Effects.{proposed, wrote};
ghost use Rattle.calls.specs.Calls.{to_propose, to_hear, to_leave, answer_of, kept_after, books_after, out_after};
ghost use Rattle.calls.specs.Laws.{CallLaws};
ghost use Rattle.calls.specs.Examples.{CallExamples};
ghost use Rattle.effects.specs.Answers.{heard_told};
ghost use Rattle.site.specs.Does.{does, left};

use super::site::Site;
use checks::Check;
use effects::{Heard, count_commit, count_prepare, gather};
use messages::Message;
use records::{Books, BooksMut};
use values::{Refusal, Value};
use writing::Tag;

impl Site {
    // Drafts the proposal of the value that the gathered new-views force, or else of the one that is
    // handed in; answers the draft's length.
    pub fn propose<C: Check>(
        &mut self,
        value: Value,
        check: &C,
        books: Books<'_>,
        out: &mut [u8],
    ) -> Result<usize, Refusal>
        ensures answer { answered proposed result ≡ answer_of (does (C.Check.vouched check.now) self.old.record (books_of books.entry) (length out.old) (to_propose value)) }
        ensures member { self.new.record.member ≡ self.old.record.member }
        ensures kept { kept_of self.new.record.round ≡ kept_after (kept_of self.old.record.round) (does (C.Check.vouched check.now) self.old.record (books_of books.entry) (length out.old) (to_propose value)) }
        ensures books { books_of books.entry ≡ books_after (books_of books.entry) (does (C.Check.vouched check.now) self.old.record (books_of books.entry) (length out.old) (to_propose value)) }
        ensures out { out.new ≡ out_after out.old (does (C.Check.vouched check.now) self.old.record (books_of books.entry) (length out.old) (to_propose value)) }
    {
        let value = self.record.may_propose(value, books, out.len(), check)?;
        Ok(effects::propose(&mut self.record, value, books, out))
    }

    // Hears a packet. What it drafts stands at the start of `out`. What all calls keep, and runs of
    // them that were worked out, stand in this contract.
    pub fn hear<C: Check>(
        &mut self,
        packet: &[u8],
        check: &C,
        books: BooksMut<'_>,
        out: &mut [u8],
    ) -> Result<Heard, Refusal>
        ensures answer { answered heard_told result ≡ answer_of (does (C.Check.vouched check.now) self.old.record (writable_of books.entry) (length out.old) (to_hear packet.now)) }
        ensures member { self.new.record.member ≡ self.old.record.member }
        ensures kept { kept_of self.new.record.round ≡ kept_after (kept_of self.old.record.round) (does (C.Check.vouched check.now) self.old.record (writable_of books.entry) (length out.old) (to_hear packet.now)) }
        ensures books { left books.exit ≡ books_after (writable_of books.entry) (does (C.Check.vouched check.now) self.old.record (writable_of books.entry) (length out.old) (to_hear packet.now)) }
        ensures out { out.new ≡ out_after out.old (does (C.Check.vouched check.now) self.old.record (writable_of books.entry) (length out.old) (to_hear packet.now)) }
        ensures laws { CallLaws }
        ensures examples { CallExamples }
    {
        let message = self.record.admit(packet, books.shared(), out.len(), check)?;
        let BooksMut {
            tags,
            certificate,
            views,
        } = books;
        let record = &mut self.record;
        let heard = match message {
            Message::Propose { claim, .. } => effects::prepare(record, claim.value, out),
            Message::Prepare { claim, tag } => {
                count_prepare(record, claim, Tag::new(tag.bytes), tags, certificate, out)
            }
            Message::Commit { claim, .. } => count_commit(record, claim),
            Message::NewView { change, .. } => gather(record, change.head.site, packet, views),
        };
        Ok(heard)
    }

    // Leaves for a higher view, and drafts the new-view; answers the draft's length.
    pub fn leave(&mut self, view: u32, books: Books<'_>, out: &mut [u8]) -> Result<usize, Refusal>
        ensures answer { (v : Vouched) → answered wrote result ≡ answer_of (does v self.old.record (books_of books.entry) (length out.old) (to_leave view)) }
        ensures member { self.new.record.member ≡ self.old.record.member }
        ensures kept { (v : Vouched) → kept_of self.new.record.round ≡ kept_after (kept_of self.old.record.round) (does v self.old.record (books_of books.entry) (length out.old) (to_leave view)) }
        ensures books { (v : Vouched) → books_of books.entry ≡ books_after (books_of books.entry) (does v self.old.record (books_of books.entry) (length out.old) (to_leave view)) }
        ensures out { (v : Vouched) → out.new ≡ out_after out.old (does v self.old.record (books_of books.entry) (length out.old) (to_leave view)) }
    {
        let higher = self.record.may_leave(view, books, out.len())?;
        Ok(effects::leave(&mut self.record, higher, books, out))
    }
}
