// Verdicts, as callers get them.
ghost use Rattle.std.specs.Prelude.{◌≡◌};
ghost use Rattle.verdicts.specs.Told.{verdict_told, forced_told};

use super::rule::Forcing;
use values::Value;

// The one value that may be proposed, the view of the certificate that forces it, and which
// certificate that is.
#[derive(Clone, Copy, Debug, PartialEq, Eq)]
pub struct Forced {
    pub value: Value,
    pub view: u32,
    pub by: Forcing,
}

// What a progress certificate lets be proposed.
#[derive(Clone, Copy, Debug, PartialEq, Eq)]
pub enum Verdict {
    // any value
    Free,
    Forced(Forced),
}

impl From<Option<(Value, u32, Forcing)>> for Verdict {
    ghost from_gives = { λ found r. verdict_told r ≡ forced_told found };

    fn from(found: Option<(Value, u32, Forcing)>) -> Verdict {
        match found {
            None => Verdict::Free,
            Some((value, view, by)) => Verdict::Forced(Forced { value, view, by }),
        }
    }
}
