// Who a site is: what it shares among its rounds.
ghost use Rattle.std.specs.Prelude.{◌≡◌, ◌<◌};
ghost use Rattle.values.specs.Fleets.{sites};

use values::{Fleet, TagLimit};

// A site's own number, in its fleet, and how long tags may be there.
#[derive(Clone, Copy, Debug, PartialEq, Eq)]
pub struct Member {
    pub fleet: Fleet,
    pub limit: TagLimit,
    pub own: u32,
    ghost known: { own < sites fleet.f fleet.t },
}
