// What propose, hearing a proposal, and leave draft.
ghost use Rattle.std.specs.Prelude.{◌≡◌, ◌+◌, ◌*◌, ◌≤◌, length};
ghost use Rattle.values.specs.Fleets.{sites};
ghost use Rattle.records.specs.Sizes.{certificate_size, view_row};
ghost use Rattle.records.specs.Books as lent;
ghost use Rattle.records.specs.Books.{books_of};
ghost use Rattle.records.specs.Kept.{membership_of, kept_of};
ghost use Rattle.calls.specs.Effects.{draft, output_bytes, proposed, wrote, own_head, own_claim, proposing, preparing, moved_to, last_certificate, new_view_draft, leaving};
ghost use Rattle.effects.specs.Answers.{heard_told};
ghost use Rattle.effects.specs.Changes.{onto};

use super::answer::{Heard, What};
use super::progress::Progress;
use buffers::Piece;
use calls::Record;
use records::{Books, Lengths, Rows, Sizes, held};
use values::{Report, Value, View};
use wire::{Claim, Head, Statement, ViewChange};

// A statement and what it attaches, at the start of `out`; answers their length.
#[tactic(auto, using(buffers::proofs::Laying::from_start))]
pub fn write<P: Piece>(statement: Statement, attached: P, out: &mut [u8]) -> usize
    requires { length (output_bytes (draft statement (P.Piece.bytes attached))) ≤ length out.old }
    ensures value { result ≡ length (output_bytes (draft statement (P.Piece.bytes attached))) }
    ensures after { out.new ≡ onto (draft statement (P.Piece.bytes attached)) out.old }
{
    (statement, attached).put(out, 0)
}

// What the site's statements begin with, in its view.
fn own_head(kept: &Record) -> Head
    ensures { result ≡ own_head (membership_of kept.now.member) (kept_of kept.now.round) }
{
    Head {
        round: kept.round.number,
        view: kept.round.view.number(),
        site: kept.member.own,
    }
}

// What the site says of a value in its view.
pub fn own_claim(kept: &Record, value: Value) -> Claim
    ensures { result ≡ own_claim (membership_of kept.now.member) (kept_of kept.now.round) value }
{
    Claim {
        head: own_head(kept),
        value,
    }
}

// Proposes a value, with the gathered new-views.
pub fn propose(kept: &mut Record, value: Value, books: Books<'_>, out: &mut [u8]) -> usize
    requires views { sites kept.old.member.fleet.f kept.old.member.fleet.t * view_row kept.old.member.fleet.f kept.old.member.fleet.t kept.old.member.limit.bytes ≤ length books.views.now }
    requires room { length (output_bytes (proposing (membership_of kept.old.member) (kept_of kept.old.round) (books_of books) value).output) ≤ length out.old }
    ensures member { kept.new.member ≡ kept.old.member }
    ensures kept { kept_of kept.new.round ≡ (proposing (membership_of kept.old.member) (kept_of kept.old.round) (books_of books.entry) value).kept }
    ensures out { out.new ≡ onto (proposing (membership_of kept.old.member) (kept_of kept.old.round) (books_of books.entry) value).output out.old }
    ensures answer { proposed result ≡ (proposing (membership_of kept.old.member) (kept_of kept.old.round) (books_of books.entry) value).answer }
{
    let claim = own_claim(kept, value);
    let progress = Progress::new(kept, books.views);
    let bytes = write(Statement::Propose(claim), progress, out);
    kept.round.proposed = true;
    bytes
}

// Prepares a value that was proposed.
pub fn prepare(kept: &mut Record, value: Value, out: &mut [u8]) -> Heard
    requires { 28 ≤ length out.old }
    ensures member { kept.new.member ≡ kept.old.member }
    ensures kept { (books : lent.Books) → kept_of kept.new.round ≡ (preparing (membership_of kept.old.member) (kept_of kept.old.round) books value).kept }
    ensures out { (books : lent.Books) → out.new ≡ onto (preparing (membership_of kept.old.member) (kept_of kept.old.round) books value).output out.old }
    ensures answer { (books : lent.Books) → heard_told result ≡ (preparing (membership_of kept.old.member) (kept_of kept.old.round) books value).answer }
{
    let claim = own_claim(kept, value);
    let nothing: &[u8] = &[];
    let bytes = write(Statement::Prepare(claim), nothing, out);
    let view = kept.round.view.number();
    kept.round.prepared = Some(Report { view, value });
    Heard {
        what: What::Noted,
        bytes,
    }
}

// The view is left for a higher one: what was heard in it is gone.
fn move_to(kept: &mut Record, view: View)
    ensures member { kept.new.member ≡ kept.old.member }
    ensures kept { kept_of kept.new.round ≡ moved_to (membership_of kept.old.member) view.number (kept_of kept.old.round) }
{
    kept.round.view = view;
    kept.round.proposed = false;
    kept.round.rows = Rows::empty();
    kept.round.lengths = Lengths {
        certificate: kept.round.lengths.certificate,
        ..Lengths::none()
    };
}

// The certificate of the last commit, as it lies in its book, if there is one.
fn last_certificate<'a>(kept: &Record, certificate: &'a [u8]) -> &'a [u8]
    ensures { result.now ≡ last_certificate (membership_of kept.now.member) kept.now.round.committed kept.now.round.lengths.certificate certificate.now }
{
    match kept.round.committed {
        None => &[],
        Some(_) => {
            let longest = Sizes::of(kept.member.fleet, kept.member.limit).certificate;
            held(held(certificate, longest), kept.round.lengths.certificate)
        }
    }
}

// The new-view of the site's view: what it last prepared and committed, with the certificate of
// the commit.
fn new_view(kept: &Record, books: Books<'_>, out: &mut [u8]) -> usize
    requires { 56 + certificate_size kept.now.member.fleet.f kept.now.member.fleet.t kept.now.member.limit.bytes ≤ length out.old }
    ensures value { result ≡ length (output_bytes (new_view_draft (membership_of kept.now.member) (kept_of kept.now.round) (books_of books.entry))) }
    ensures after { out.new ≡ onto (new_view_draft (membership_of kept.now.member) (kept_of kept.now.round) (books_of books.entry)) out.old }
{
    let change = ViewChange {
        head: own_head(kept),
        prepared: kept.round.prepared,
        committed: kept.round.committed,
    };
    let certificate = last_certificate(kept, books.certificate);
    write(Statement::NewView(change), certificate, out)
}

// Leaves for a higher view, and drafts the new-view.
pub fn leave(kept: &mut Record, view: View, books: Books<'_>, out: &mut [u8]) -> usize
    requires { 56 + certificate_size kept.old.member.fleet.f kept.old.member.fleet.t kept.old.member.limit.bytes ≤ length out.old }
    ensures member { kept.new.member ≡ kept.old.member }
    ensures kept { kept_of kept.new.round ≡ (leaving (membership_of kept.old.member) (kept_of kept.old.round) (books_of books.entry) view.number).kept }
    ensures out { out.new ≡ onto (leaving (membership_of kept.old.member) (kept_of kept.old.round) (books_of books.entry) view.number).output out.old }
    ensures answer { wrote result ≡ (leaving (membership_of kept.old.member) (kept_of kept.old.round) (books_of books.entry) view.number).answer }
{
    move_to(kept, view);
    new_view(kept, books, out)
}
