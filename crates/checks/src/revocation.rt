// A list of revoked sites, over any check.
ghost use Rattle.std.specs.Prelude.{◌≡◌, false, slice_index_or};
ghost use Rattle.checks.specs.Revocation.{unless_revoked, Short-unless_revoked, UnrevokedAsBelow};

use super::check::Check;

// A mark for each of sites 0 to 15. What a marked site says is vouched for no more.
#[derive(Drop)]
pub struct RevocationList<C> {
    revoked: [bool; 16],
    below: C,
}

impl<C: Check> RevocationList<C> {
    pub fn new(revoked: [bool; 16], below: C) -> RevocationList<C>
        ensures marks { result.revoked ≡ revoked }
        ensures over { result.below ≡ below }
        ensures vouches { UnrevokedAsBelow }
    {
        RevocationList { revoked, below }
    }
}

fn is_revoked(revoked: &[bool; 16], site: u32) -> bool
    ensures { result ≡ slice_index_or revoked.now site false }
{
    revoked.get(site as usize).is_some_and(|mark| *mark)
}

impl<C: Check> Check for RevocationList<C> {
    ghost vouched = { λ c. unless_revoked c.revoked (C.Check.vouched c.below) };

    fn vouches(&self, site: u32, statement: &[u8], tag: &[u8]) -> bool {
        !is_revoked(&self.revoked, site) && self.below.vouches(site, statement, tag)
    }

    ghost short = { λ c. Short-unless_revoked c.revoked (C.Check.vouched c.below) (C.Check.short c.below) };
}
