// Fleets, views and tag limits: none can be made outside its limits.
ghost use Rattle.std.specs.Prelude.{◌≡◌, ◌+◌, ◌*◌, ◌%◌, ◌≤◌};
ghost use Rattle.std.specs.Option.{option_map};
ghost use Rattle.values.specs.Refusals.{answered};
ghost use Rattle.values.specs.Fleets.{sites, fleet_of, fast_quorum, recovery_quorum, progress_quorum, view_of, leader_of, limit_of};

use super::refusal::Refusal;

// The sites of a harbour: at most `f` of them break the rules, and `t` may stay away
// from a fast decision.
#[derive(Clone, Copy, Debug, PartialEq, Eq)]
pub struct Fleet {
    f: u32,
    t: u32,
    ghost legal: { (1 ≤ f) × (t ≤ f) × (3 * f + 2 * t + 1 ≤ 16) },
}

impl Fleet {
    pub fn new(f: u32, t: u32) -> Result<Fleet, Refusal>
        ensures { answered (λ x. (x.f, x.t)) result ≡ fleet_of f t }
    {
        if !(1..=5).contains(&f) || t > f || 3 * f + 2 * t + 1 > 16 {
            return Err(Refusal::Limits);
        }
        Ok(Fleet { f, t })
    }

    // How many sites may break the rules.
    pub fn f(&self) -> u32
        ensures { result ≡ self.now.f }
    {
        self.f
    }

    // How many may stay away from a fast decision.
    pub fn t(&self) -> u32
        ensures { result ≡ self.now.t }
    {
        self.t
    }

    // How many sites there are: their numbers are 0 to n - 1.
    pub fn n(&self) -> u32
        ensures { result ≡ sites self.now.f self.now.t }
    {
        3 * self.f + 2 * self.t + 1
    }

    pub fn fast_quorum(&self) -> u32
        ensures { result ≡ fast_quorum self.now.f self.now.t }
    {
        self.n() - self.t
    }

    pub fn recovery_quorum(&self) -> u32
        ensures { result ≡ recovery_quorum self.now.f self.now.t }
    {
        self.n() - self.f - self.t
    }

    pub fn progress_quorum(&self) -> u32
        ensures { result ≡ progress_quorum self.now.f self.now.t }
    {
        self.n() - self.f()
    }

    pub fn leader(&self, view: View) -> u32
        ensures { result ≡ leader_of (sites self.now.f self.now.t) view.number }
    {
        (view.number - 1) % self.n()
    }
}

// Views are counted from 1.
#[derive(Clone, Copy, Debug, PartialEq, Eq)]
pub struct View {
    number: u32,
    ghost counted: { 1 ≤ number },
}

impl View {
    pub fn first() -> View
        ensures { result.number ≡ 1 }
    {
        View { number: 1 }
    }

    pub fn new(number: u32) -> Option<View>
        ensures { option_map (λ v. v.number) result ≡ view_of number }
    {
        if number == 0 {
            return None;
        }
        Some(View { number })
    }

    pub fn number(&self) -> u32
        ensures { result ≡ self.now.number }
    {
        self.number
    }
}

// How many bytes a tag may have at most.
#[derive(Clone, Copy, Debug, PartialEq, Eq)]
pub struct TagLimit {
    bytes: usize,
    ghost legal: { (4 ≤ bytes) × (bytes ≤ 2048) × (bytes % 4 ≡ 0) },
}

impl TagLimit {
    pub fn new(bytes: usize) -> Result<TagLimit, Refusal>
        ensures { answered (λ l. l.bytes) result ≡ limit_of bytes }
    {
        if !(4..=2048).contains(&bytes) || bytes % 4 != 0 {
            return Err(Refusal::Limits);
        }
        Ok(TagLimit { bytes })
    }

    pub fn bytes(&self) -> usize
        ensures { result ≡ self.now.bytes }
    {
        self.bytes
    }
}
