// What hear answers.

// What it did.
#[derive(Clone, Copy, Debug, PartialEq, Eq)]
pub enum What {
    // nothing more than to note the message
    Noted,
    // it gathered the last new-view that the leader waits for
    Gathered,
    // it decided
    Decided,
}

// What it did, and how many bytes it drafted.
#[derive(Clone, Copy, Debug, PartialEq, Eq)]
pub struct Heard {
    pub what: What,
    pub bytes: usize,
}
