// What is wrong in a certificate, handed up from the inner certificate to the caller.
ghost use Rattle.std.specs.Prelude.{◌≡◌, ℕ};
ghost use Rattle.values.specs.Refusals.{layout, refused_as};
ghost use Rattle.certificates.specs.Faults.{at_depth, in_message, fault_told, commit_told, entry_told};

use values::{Cause, Refusal};
use wire::Malformed;

// A cause, and the place where it was found.
#[derive(Clone, Copy, Debug, PartialEq, Eq)]
pub struct Fault {
    pub cause: Cause,
    pub place: usize,
}

// Why a commit certificate is bad.
#[derive(Clone, Copy, Debug, PartialEq, Eq)]
pub enum CommitFault {
    Malformed(Malformed),
    Fault(Fault),
}

// Why an entry of a progress certificate is bad: by itself, or by its own commit certificate.
#[derive(Clone, Copy, Debug, PartialEq, Eq)]
pub enum EntryFault {
    Malformed(Malformed),
    Fault(Fault),
    Certificate(CommitFault),
}

impl From<Malformed> for CommitFault {
    ghost from_gives = { λ fault r. (depth : ℕ) → commit_told depth r ≡ layout fault.place };

    fn from(fault: Malformed) -> CommitFault {
        CommitFault::Malformed(fault)
    }
}

impl From<Fault> for CommitFault {
    ghost from_gives = { λ fault r. (depth : ℕ) → commit_told depth r ≡ at_depth depth (fault_told fault) };

    fn from(fault: Fault) -> CommitFault {
        CommitFault::Fault(fault)
    }
}

impl From<Malformed> for EntryFault {
    ghost from_gives = { λ fault r. entry_told r ≡ layout fault.place };

    fn from(fault: Malformed) -> EntryFault {
        EntryFault::Malformed(fault)
    }
}

impl From<Fault> for EntryFault {
    ghost from_gives = { λ fault r. entry_told r ≡ at_depth 1 (fault_told fault) };

    fn from(fault: Fault) -> EntryFault {
        EntryFault::Fault(fault)
    }
}

impl From<CommitFault> for EntryFault {
    ghost from_gives = { λ fault r. entry_told r ≡ commit_told 2 fault };

    fn from(fault: CommitFault) -> EntryFault {
        EntryFault::Certificate(fault)
    }
}

impl Fault {
    // As the refusal of a message that is heard: a count is of certificates alone.
    pub fn in_message(self) -> Refusal
        ensures { refused_as result ≡ in_message (fault_told self) }
    {
        let place = self.place;
        match self.cause {
            Cause::Count => Refusal::Layout { place },
            Cause::Round => Refusal::OtherRound { place },
            Cause::View => Refusal::WrongView { place },
            Cause::Site => Refusal::WrongSite { place },
            Cause::Fix => Refusal::IllegalFix { place },
            Cause::Tag => Refusal::BadTag { place },
        }
    }

    // As a refusal, at a depth.
    fn at_depth(self, depth: u32) -> Refusal
        ensures { refused_as result ≡ at_depth depth (fault_told self) }
    {
        Refusal::BadCertificate {
            place: self.place,
            cause: self.cause,
            depth,
        }
    }
}

impl CommitFault {
    fn at_depth(self, depth: u32) -> Refusal
        ensures { refused_as result ≡ commit_told depth self }
    {
        match self {
            CommitFault::Malformed(fault) => fault.into(),
            CommitFault::Fault(fault) => fault.at_depth(depth),
        }
    }
}

// The certificate that a message attaches is at depth 1.
impl From<CommitFault> for Refusal {
    ghost from_gives = { λ fault r. refused_as r ≡ commit_told 1 fault };

    fn from(fault: CommitFault) -> Refusal {
        fault.at_depth(1)
    }
}

impl From<EntryFault> for Refusal {
    ghost from_gives = { λ fault r. refused_as r ≡ entry_told fault };

    fn from(fault: EntryFault) -> Refusal {
        match fault {
            EntryFault::Malformed(fault) => fault.into(),
            EntryFault::Fault(fault) => fault.at_depth(1),
            EntryFault::Certificate(fault) => fault.at_depth(2),
        }
    }
}
