// How long the three books and out must be.
ghost use Rattle.std.specs.Prelude.{◌≡◌};
ghost use Rattle.records.specs.Sizes.{certificate_size, view_row, sizes_of, covers};

use values::{Fleet, TagLimit};

// The lengths of the tag book, the certificate book, the view book, and out.
#[derive(Clone, Copy, Debug, PartialEq, Eq)]
pub struct Sizes {
    pub tags: usize,
    pub certificate: usize,
    pub views: usize,
    pub out: usize,
}

impl Sizes {
    // What the sites of a fleet need with a tag limit.
    pub fn of(fleet: Fleet, limit: TagLimit) -> Sizes
        ensures { result ≡ sizes_of fleet.f fleet.t limit.bytes }
    {
        let row = Sizes::view_row(fleet, limit);
        Sizes {
            tags: fleet.n() as usize * (limit.bytes() + 4),
            certificate: Sizes::certificate(fleet, limit),
            views: fleet.n() as usize * row,
            out: 36 + limit.bytes() + fleet.progress_quorum() as usize * row,
        }
    }

    // The longest commit certificate.
    fn certificate(fleet: Fleet, limit: TagLimit) -> usize
        ensures { result ≡ certificate_size fleet.f fleet.t limit.bytes }
    {
        4 + fleet.recovery_quorum() as usize * (limit.bytes() + 8)
    }

    // A row of the view book: the longest new-view.
    pub fn view_row(fleet: Fleet, limit: TagLimit) -> usize
        ensures { result ≡ view_row fleet.f fleet.t limit.bytes }
    {
        60 + limit.bytes() + Sizes::certificate(fleet, limit)
    }

    // Whether each length is as long as needed, or longer.
    pub fn cover(&self, needed: &Sizes) -> bool
        ensures { result ≡ covers self.now needed.now }
    {
        self.tags >= needed.tags
            && self.certificate >= needed.certificate
            && self.views >= needed.views
            && self.out >= needed.out
    }
}
