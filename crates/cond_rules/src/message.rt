//! Messages, as they are sent and received.
ghost use Rattle.std.specs.Prelude.{◌≡◌, ◌<◌, fold};
ghost use Rattle.std.specs.Cmp.{partial_equiv_from_equiv};
ghost use Rattle.cond_spec.specs.Messages.{is_same_party, is_same_message};
ghost use Rattle.cond_rules.specs.MessageHash.{party_input, message_input};
ghost use Rattle.cond_rules.specs.MessageSameness.{same_message-equiv, same_message-fed};
ghost use Rattle.cond_spec.specs.Parties.{names, party_of};

use coin_facts::{Bytes, Coin};
use cond_spec::Party;
use std::hash::{Hash, Hasher};
use std::marker::Model;

/// The side that names its coin by the id alone.
const BY_ID: u8 = 7;

/// The bits of a side that name a part of its coin.
const PARENT: u8 = 4;

const PUZZLE_HASH: u8 = 2;

const AMOUNT: u8 = 1;

/// A message that one spend sends or receives.
#[derive(Debug, Drop)]
pub(crate) struct Message {
    mode: u8,
    text: Bytes,
    sender: Party,
    receiver: Party,
}

impl Model for Message {
    ghost use Rattle.cond_spec.specs.Messages.{Message as Seen};

    ghost Value = { Seen };

    ghost view = { λ m. record { mode = m.mode; text = m.text; sender = m.sender; receiver = m.receiver } };
}

impl Message {
    pub(crate) fn new(mode: u8, text: Bytes, sender: Party, receiver: Party) -> Message
        ensures { result ≡ record { mode = mode; text = text; sender = sender; receiver = receiver } }
    {
        Message {
            mode,
            text,
            sender,
            receiver,
        }
    }
}

impl PartialEq for Message {
    ghost eq = { is_same_message };

    ghost laws = { partial_equiv_from_equiv same_message-equiv };

    fn eq(&self, other: &Message) -> bool {
        self.mode == other.mode
            && self.text.as_slice() == other.text.as_slice()
            && is_same_party(&self.sender, &other.sender)
            && is_same_party(&self.receiver, &other.receiver)
    }
}

impl Eq for Message {
    ghost laws = { same_message-equiv };
}

impl Hash for Message {
    ghost hash_input = { message_input };

    ghost respects_eq = { same_message-fed };

    fn hash<H: Hasher>(&self, state: &mut H) {
        self.mode.hash(state);
        self.text.as_slice().hash(state);
        hash_party(&self.sender, state);
        hash_party(&self.receiver, state);
    }
}

// Whether two sides tell the same of their coins.
fn is_same_party(a: &Party, b: &Party) -> bool
    ensures { result ≡ is_same_party a.now b.now }
{
    a.id == b.id && a.parent == b.parent && a.puzzle_hash == b.puzzle_hash && a.amount == b.amount
}

// Feeds what a side tells.
fn hash_party<H: Hasher>(party: &Party, state: &mut H)
    ensures { state.new ≡ fold H.write state.old (party_input party.now) }
{
    party.id.hash(state);
    party.parent.hash(state);
    party.puzzle_hash.hash(state);
    party.amount.hash(state);
}

// Whether a side names the part of this bit.
fn names(bit: u8, side: u8) -> bool
    requires { 0 < bit }
    ensures { result ≡ names bit side }
{
    side != BY_ID && side / bit % 2 == 1
}

/// What a side of a message tells of its own coin.
pub(crate) fn party_of(side: u8, coin: &Coin) -> Party
    ensures { result ≡ party_of side coin.now }
{
    Party {
        id: (side == BY_ID).then_some(coin.id()),
        parent: names(PARENT, side).then_some(coin.parent),
        puzzle_hash: names(PUZZLE_HASH, side).then_some(coin.puzzle_hash),
        amount: names(AMOUNT, side).then_some(coin.amount),
    }
}
