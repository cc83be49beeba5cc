// The interface of all checks.
ghost use Rattle.std.specs.Prelude.{◌≡◌};
ghost use Rattle.checks.specs.Vouching.{Vouched, Short};

// Says whether a site has made a statement, by the tag that came with it.
pub trait Check {
    // The meaning: the triples that it vouches for.
    ghost vouched: { Self → Vouched };

    // Says yes exactly for these. Asking changes nothing. Site, statement and tag stand apart, as
    // callers have them.
    fn vouches(&self, site: u32, statement: &[u8], tag: &[u8]) -> bool
        ensures { result ≡ vouched self.now site statement.now tag.now };

    // None of these has a statement above 64 bytes.
    ghost short: { (c : Self) → Short (vouched c) };
}
