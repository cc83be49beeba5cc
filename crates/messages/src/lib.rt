// The four messages: their kinds behind one reading interface, whole packets, and drafts.
#![tactic(auto)]

mod kind;
mod message;

pub use kind::{Commit, Envelope, Kind, NewView, Prepare, Propose, Whole, envelope_at, shortest};
pub use message::{Message, draft_end, read_message, read_new_view, read_progress};
