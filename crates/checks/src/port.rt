// The port that statements are made for, over any check.
ghost use Rattle.std.specs.Prelude.{◌≡◌};
ghost use Rattle.checks.specs.Port.{with_port, Short-with_port, PrefixedAsBelow};

use super::check::Check;
use buffers::Piece;

// Tags are made for a statement with the port's number before it, so that what is said in one
// port counts for nothing in another.
#[derive(Drop)]
pub struct PortPrefix<C> {
    port: u32,
    below: C,
}

impl<C: Check> PortPrefix<C> {
    pub fn new(port: u32, below: C) -> PortPrefix<C>
        ensures port { result.port ≡ port }
        ensures over { result.below ≡ below }
        ensures vouches { PrefixedAsBelow }
    {
        PortPrefix { port, below }
    }
}

impl<C: Check> Check for PortPrefix<C> {
    ghost vouched = { λ c. with_port c.port (C.Check.vouched c.below) };

    fn vouches(&self, site: u32, statement: &[u8], tag: &[u8]) -> bool {
        if statement.len() > 60 {
            return false;
        }
        // An array that is filled up to `end`, since nothing may be allocated.
        let mut prefixed = [0; 64];
        let end = (self.port, statement).put(&mut prefixed, 0);
        self.below.vouches(site, &prefixed[..end], tag)
    }

    ghost short = { λ c. Short-with_port c.port (C.Check.vouched c.below) };
}
