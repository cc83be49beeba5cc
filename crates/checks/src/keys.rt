// The check of LMS signatures: a key for each site.
ghost use Rattle.std.specs.Prelude.{◌≡◌};
ghost use Rattle.checks.specs.Keys.{signed, Short-signed, SignedIsVouched};

use super::check::Check;
use lms::verify;

// The public keys of sites 0 to 15, by their bytes. A tag is a signature of the statement.
#[derive(Clone, Copy)]
pub struct LmsKeys {
    keys: [[u8; 56]; 16],
}

impl LmsKeys {
    pub fn new(keys: [[u8; 56]; 16]) -> LmsKeys
        ensures over { result.keys ≡ keys }
        ensures vouches { SignedIsVouched }
    {
        LmsKeys { keys }
    }
}

impl Check for LmsKeys {
    ghost vouched = { λ c. signed c.keys };

    fn vouches(&self, site: u32, statement: &[u8], tag: &[u8]) -> bool {
        let key = self.keys.get(site as usize);
        statement.len() <= 64 && key.is_some_and(|key| verify(key, statement, tag))
    }

    ghost short = { λ c. Short-signed c.keys };
}
