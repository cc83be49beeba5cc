// The table of rows.
ghost use Rattle.std.specs.Prelude.{◌≡◌, ◌<◌, Some};
ghost use Rattle.records.specs.Rows.{no_rows, with_prepare, with_commit};

use values::Value;

// A row for each site: what it prepared and what it committed, as heard in this view.
#[derive(Clone, Copy, Debug, PartialEq, Eq)]
pub struct Rows {
    pub prepares: [Option<Value>; 16],
    pub commits: [Option<Value>; 16],
}

// Writes one row.
fn fill(row: &mut Option<Value>, value: Value)
    ensures { row.new ≡ Some value }
{
    *row = Some(value);
}

impl Rows {
    pub fn empty() -> Rows
        ensures { result ≡ no_rows }
    {
        Rows {
            prepares: [None; 16],
            commits: [None; 16],
        }
    }

    // Lends the row of a site's prepare to be written; every other row stays.
    pub fn fill_prepare(&mut self, site: u32, value: Value)
        requires { site < 16 }
        ensures { self.new ≡ with_prepare self.old site value }
    {
        fill(&mut self.prepares[site as usize], value);
    }

    // Lends the row of a site's commit to be written; every other row stays.
    pub fn fill_commit(&mut self, site: u32, value: Value)
        requires { site < 16 }
        ensures { self.new ≡ with_commit self.old site value }
    {
        fill(&mut self.commits[site as usize], value);
    }
}
