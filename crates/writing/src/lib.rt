// Tags, drafts and messages, written into a lent buffer; and sealing.
#![tactic(auto)]

mod message;
mod tag;

pub use message::{seal, write_draft, write_message};
pub use tag::Tag;
