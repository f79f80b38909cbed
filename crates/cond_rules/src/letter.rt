//! Messages, as conditions send and receive them.

use crate::message::Message;

/// Whether a message is sent or received.
#[derive(Clone, Copy, Debug)]
pub(crate) enum Way {
    Sent,
    Received,
}

/// A message that one condition sends or receives.
#[derive(Debug, Drop)]
pub(crate) struct Letter {
    pub(crate) way: Way,
    pub(crate) message: Message,
}
