use crate::Reply;

/// An entry of a history: which command of which lane was answered, both counted from 0, and how.
#[derive(Debug, Drop)]
pub struct Entry {
    pub lane: u32,
    pub number: u32,
    pub reply: Reply,
}
