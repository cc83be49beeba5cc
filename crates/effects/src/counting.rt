// What hearing a prepare, a commit or a new-view leaves.
ghost use Rattle.std.specs.Prelude.{◌≡◌, ℕ, List, true, ◌+◌, ◌*◌, ◌<◌, ◌≤◌, ◌==◌, nat_le, cond, length, IfSome};
ghost use Rattle.buffers.specs.Lays.{laid};
ghost use Rattle.values.specs.Fleets.{sites, fast_quorum, recovery_quorum};
ghost use Rattle.wire.specs.Contents.{tag_bytes};
ghost use Rattle.records.specs.Sizes.{tag_row, certificate_size, view_row};
ghost use Rattle.records.specs.Books.{Books};
ghost use Rattle.records.specs.Kept.{membership_of, kept_of, decided_as};
ghost use Rattle.calls.specs.Effects.{nothing, output_bytes, holding, settling, counting_prepare, counting_commit, gathering};
ghost use Rattle.effects.specs.Answers.{what_number, heard_told};
ghost use Rattle.effects.specs.Changes.{onto, shelf, viewed, with_row, committed_to, certified, settled, certificate_of, committing};

use super::answer::{Heard, What};
use super::drafting::{own_claim, write};
use super::votes::{Votes, holding};
use buffers::Piece;
use calls::Record;
use records::{Decision, Sizes, Way};
use values::{Report, Value};
use wire::{Claim, Statement};
use writing::Tag;

// Decides, if enough rows hold a value and nothing is decided yet.
fn settle(kept: &mut Record, reached: bool, decision: Decision) -> What
    ensures member { kept.new.member ≡ kept.old.member }
    ensures kept { kept_of kept.new.round ≡ settled reached (decided_as decision) (kept_of kept.old.round) }
    ensures value { what_number result ≡ settling (kept_of kept.old.round).decision reached }
{
    if kept.round.decision.is_some() || !reached {
        return What::Noted;
    }
    kept.round.decision = Some(decision);
    What::Decided
}

// Fills the sender's row with what it prepared, and its row of the tag book with the tag.
fn fill_prepare(kept: &mut Record, claim: Claim, tag: Tag<'_>, tags: &mut [u8])
    requires site { claim.head.site < sites kept.old.member.fleet.f kept.old.member.fleet.t }
    requires room { claim.head.site * tag_row kept.old.member.limit.bytes + length (tag_bytes tag.bytes.now) ≤ length tags.old }
    ensures member { kept.new.member ≡ kept.old.member }
    ensures kept { kept_of kept.new.round ≡ with_row claim.head.site claim.value (length (tag_bytes tag.entry.bytes.now)) (kept_of kept.old.round) }
    ensures tags { tags.new ≡ laid tags.old (claim.head.site * tag_row kept.old.member.limit.bytes) (tag_bytes tag.entry.bytes.now) }
{
    let Claim { head, value } = claim;
    let site = head.site as usize;
    kept.round.rows.fill_prepare(head.site, value);
    kept.round.lengths.tags[site] = tag.length();
    tag.put(tags, site * (kept.member.limit.bytes() + 4));
}

// Commits a value: its certificate goes to the certificate book, and the commit is drafted.
fn commit(
    kept: &mut Record,
    value: Value,
    tags: &[u8],
    certificate: &mut [u8],
    out: &mut [u8],
) -> usize
    requires tags { sites kept.old.member.fleet.f kept.old.member.fleet.t * tag_row kept.old.member.limit.bytes ≤ length tags.now }
    requires book { length (certificate_of kept.old tags.now value) ≤ length certificate.old }
    requires out { 28 + length (certificate_of kept.old tags.now value) ≤ length out.old }
    ensures member { kept.new.member ≡ kept.old.member }
    ensures kept { kept_of kept.new.round ≡ committed_to (viewed kept.old.round.view.number value) (length (certificate_of kept.old tags.now value)) (kept_of kept.old.round) }
    ensures certificate { certificate.new ≡ laid certificate.old 0 (certificate_of kept.old tags.now value) }
    ensures out { out.new ≡ onto (committing kept.old tags.now value) out.old }
    ensures answer { result ≡ 28 + length (certificate_of kept.old tags.now value) }
{
    let votes = Votes::new(kept, value, tags);
    let length = votes.put(certificate, 0);
    let claim = own_claim(kept, value);
    let bytes = write(Statement::Commit(claim), votes, out);
    let view = kept.round.view.number();
    kept.round.committed = Some(Report { view, value });
    kept.round.lengths.certificate = length;
    bytes
}

// The first recovery quorum of prepares of a value is the last commit.
fn certify(
    kept: &mut Record,
    value: Value,
    many: u32,
    tags: &[u8],
    certificate: &mut [u8],
    out: &mut [u8],
) -> usize
    requires many { many ≡ holding (membership_of kept.old.member) kept.old.round.rows.prepares value }
    requires tags { sites kept.old.member.fleet.f kept.old.member.fleet.t * tag_row kept.old.member.limit.bytes ≤ length tags.now }
    requires book { certificate_size kept.old.member.fleet.f kept.old.member.fleet.t kept.old.member.limit.bytes ≤ length certificate.old }
    requires out { 28 + certificate_size kept.old.member.fleet.f kept.old.member.fleet.t kept.old.member.limit.bytes ≤ length out.old }
    ensures member { kept.new.member ≡ kept.old.member }
    ensures kept { kept_of kept.new.round ≡ certified (many == recovery_quorum kept.old.member.fleet.f kept.old.member.fleet.t) (viewed kept.old.round.view.number value) (length (certificate_of kept.old tags.now value)) (kept_of kept.old.round) }
    ensures certificate { certificate.new ≡ cond (many == recovery_quorum kept.old.member.fleet.f kept.old.member.fleet.t) (laid certificate.old 0 (certificate_of kept.old tags.now value)) certificate.old }
    ensures out { out.new ≡ onto (cond (many == recovery_quorum kept.old.member.fleet.f kept.old.member.fleet.t) (committing kept.old tags.now value) nothing) out.old }
    ensures answer { result ≡ length (output_bytes (cond (many == recovery_quorum kept.old.member.fleet.f kept.old.member.fleet.t) (committing kept.old tags.now value) nothing)) }
{
    if many != kept.member.fleet.recovery_quorum() {
        return 0;
    }
    commit(kept, value, tags, certificate, out)
}

// A prepare counts: it fills its sender's row, and may make a commit, or a fast decision.
pub fn count_prepare(
    kept: &mut Record,
    claim: Claim,
    tag: Tag<'_>,
    tags: &mut [u8],
    certificate: &mut [u8],
    out: &mut [u8],
) -> Heard
    requires site { claim.head.site < sites kept.old.member.fleet.f kept.old.member.fleet.t }
    requires tag { length (tag_bytes tag.bytes.now) ≤ tag_row kept.old.member.limit.bytes }
    requires tags { sites kept.old.member.fleet.f kept.old.member.fleet.t * tag_row kept.old.member.limit.bytes ≤ length tags.old }
    requires book { certificate_size kept.old.member.fleet.f kept.old.member.fleet.t kept.old.member.limit.bytes ≤ length certificate.old }
    requires out { 28 + certificate_size kept.old.member.fleet.f kept.old.member.fleet.t kept.old.member.limit.bytes ≤ length out.old }
    ensures member { kept.new.member ≡ kept.old.member }
    ensures kept { (views : List ℕ) → kept_of kept.new.round ≡ (counting_prepare (membership_of kept.old.member) (kept_of kept.old.round) (shelf tags.old certificate.old views) claim.head.site claim.value tag.entry.bytes.now).kept }
    ensures books { (views : List ℕ) → shelf tags.new certificate.new views ≡ (counting_prepare (membership_of kept.old.member) (kept_of kept.old.round) (shelf tags.old certificate.old views) claim.head.site claim.value tag.entry.bytes.now).books }
    ensures out { (views : List ℕ) → out.new ≡ onto (counting_prepare (membership_of kept.old.member) (kept_of kept.old.round) (shelf tags.old certificate.old views) claim.head.site claim.value tag.entry.bytes.now).output out.old }
    ensures answer { (views : List ℕ) → heard_told result ≡ (counting_prepare (membership_of kept.old.member) (kept_of kept.old.round) (shelf tags.old certificate.old views) claim.head.site claim.value tag.entry.bytes.now).answer }
{
    let fleet = kept.member.fleet;
    let view = kept.round.view.number();
    let value = claim.value;
    fill_prepare(kept, claim, tag, tags);
    let many = holding(&kept.round.rows.prepares, fleet.n(), value);
    let bytes = certify(kept, value, many, tags, certificate, out);
    let decision = Decision {
        report: Report { view, value },
        way: Way::Fast,
    };
    let what = settle(kept, many >= fleet.fast_quorum(), decision);
    Heard { what, bytes }
}

// A commit counts: it fills its sender's row, and may decide by recovery.
pub fn count_commit(kept: &mut Record, claim: Claim) -> Heard
    requires { claim.head.site < 16 }
    ensures member { kept.new.member ≡ kept.old.member }
    ensures kept { (books : Books) → kept_of kept.new.round ≡ (counting_commit (membership_of kept.old.member) (kept_of kept.old.round) books claim.head.site claim.value).kept }
    ensures answer { (books : Books) → heard_told result ≡ (counting_commit (membership_of kept.old.member) (kept_of kept.old.round) books claim.head.site claim.value).answer }
{
    let fleet = kept.member.fleet;
    let view = kept.round.view.number();
    let Claim { head, value } = claim;
    kept.round.rows.fill_commit(head.site, value);
    let many = holding(&kept.round.rows.commits, fleet.n(), value);
    let decision = Decision {
        report: Report { view, value },
        way: Way::Recovery,
    };
    let what = settle(kept, many >= fleet.recovery_quorum(), decision);
    Heard { what, bytes: 0 }
}

// A new-view is gathered: its row of the view book gets the packet.
pub fn gather(kept: &mut Record, site: u32, packet: &[u8], views: &mut [u8]) -> Heard
    requires site { site < sites kept.old.member.fleet.f kept.old.member.fleet.t }
    requires short { length packet.now ≤ view_row kept.old.member.fleet.f kept.old.member.fleet.t kept.old.member.limit.bytes }
    requires views { sites kept.old.member.fleet.f kept.old.member.fleet.t * view_row kept.old.member.fleet.f kept.old.member.fleet.t kept.old.member.limit.bytes ≤ length views.old }
    ensures member { kept.new.member ≡ kept.old.member }
    ensures kept { (tags certificate : List ℕ) → kept_of kept.new.round ≡ (gathering (membership_of kept.old.member) (kept_of kept.old.round) (shelf tags certificate views.old) site packet.now).kept }
    ensures books { (tags certificate : List ℕ) → shelf tags certificate views.new ≡ (gathering (membership_of kept.old.member) (kept_of kept.old.round) (shelf tags certificate views.old) site packet.now).books }
    ensures answer { (tags certificate : List ℕ) → heard_told result ≡ (gathering (membership_of kept.old.member) (kept_of kept.old.round) (shelf tags certificate views.old) site packet.now).answer }
{
    let fleet = kept.member.fleet;
    let row = Sizes::view_row(fleet, kept.member.limit);
    let last = kept.gathered() + 1 == fleet.progress_quorum() as usize;
    packet.put(views, site as usize * row);
    kept.round.lengths.views[site as usize] = packet.len();
    let what = if last { What::Gathered } else { What::Noted };
    Heard { what, bytes: 0 }
}
