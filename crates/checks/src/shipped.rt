// The check that is shipped: revoked sites, over the port, over LMS signatures.
ghost use Rattle.std.specs.Prelude.{◌≡◌};
ghost use Rattle.checks.specs.Shipped.{shipped, Short-shipped, SignedForThePort};

use super::check::Check;
use super::keys::LmsKeys;
use super::port::PortPrefix;
use super::revocation::RevocationList;

#[derive(Drop)]
pub struct ShippedCheck {
    layers: RevocationList<PortPrefix<LmsKeys>>,
}

impl ShippedCheck {
    // Marks of revoked sites, the port's number, and the sites' public keys.
    pub fn new(revoked: [bool; 16], port: u32, keys: [[u8; 56]; 16]) -> ShippedCheck
        ensures marks { result.layers.revoked ≡ revoked }
        ensures port { result.layers.below.port ≡ port }
        ensures keys { result.layers.below.below.keys ≡ keys }
        ensures vouches { SignedForThePort }
    {
        let layers = RevocationList::new(revoked, PortPrefix::new(port, LmsKeys::new(keys)));
        ShippedCheck { layers }
    }
}

impl Check for ShippedCheck {
    ghost vouched = { λ c. shipped c.layers.revoked c.layers.below.port c.layers.below.below.keys };

    fn vouches(&self, site: u32, statement: &[u8], tag: &[u8]) -> bool {
        self.layers.vouches(site, statement, tag)
    }

    ghost short = { λ c. Short-shipped c.layers.revoked c.layers.below.port c.layers.below.below.keys };
}
