use crate::Party;
use coin_facts::{Bytes, Hash32};

/// A condition, with its operands. Amounts are in mojos; seconds and heights are whole numbers of either sign. Source:
/// Chia documentation of conditions.
#[derive(Debug, Drop)]
pub enum Condition {
    /// Nothing.
    Remark,
    /// The text, the parent and what belongs to the code are to be signed by the key.
    AggSigParent {
        key: Bytes,
        text: Bytes,
    },
    /// The same with the puzzle hash.
    AggSigPuzzle {
        key: Bytes,
        text: Bytes,
    },
    /// The same with the amount.
    AggSigAmount {
        key: Bytes,
        text: Bytes,
    },
    /// The same with puzzle hash and amount.
    AggSigPuzzleAmount {
        key: Bytes,
        text: Bytes,
    },
    /// The same with parent and amount.
    AggSigParentAmount {
        key: Bytes,
        text: Bytes,
    },
    /// The same with parent and puzzle hash.
    AggSigParentPuzzle {
        key: Bytes,
        text: Bytes,
    },
    /// The text alone is to be signed by the key.
    AggSigUnsafe {
        key: Bytes,
        text: Bytes,
    },
    /// The text, the id of the coin and the genesis data are to be signed by the key.
    AggSigMe {
        key: Bytes,
        text: Bytes,
    },
    /// Makes a coin, whose parent is the spent one.
    CreateCoin {
        puzzle_hash: Hash32,
        amount: u64,
    },
    /// This much of the fee is reserved.
    ReserveFee(u64),
    /// Announces a text as this coin.
    CreateCoinAnnouncement(Bytes),
    /// Such an announcement is made, by the hash of coin id and text.
    AssertCoinAnnouncement(Hash32),
    /// Announces a text as this puzzle.
    CreatePuzzleAnnouncement(Bytes),
    /// Such an announcement is made, by the hash of puzzle hash and text.
    AssertPuzzleAnnouncement(Hash32),
    /// A coin of this id is spent in the list.
    AssertConcurrentSpend(Hash32),
    /// A coin of this puzzle hash is spent in the list.
    AssertConcurrentPuzzle(Hash32),
    /// Sends a text to the receiver that the mode tells. Source: CHIP-0025.
    SendMessage {
        mode: u8,
        text: Bytes,
        receiver: Party,
    },
    /// Receives a text from the sender that the mode tells. Source: CHIP-0025.
    ReceiveMessage {
        mode: u8,
        text: Bytes,
        sender: Party,
    },
    /// The spent coin has this id.
    AssertMyCoinId(Hash32),
    /// The spent coin has this parent.
    AssertMyParentId(Hash32),
    /// The spent coin has this puzzle hash.
    AssertMyPuzzleHash(Hash32),
    /// The spent coin has this amount.
    AssertMyAmount(u64),
    /// The coin's record has these seconds.
    AssertMyBirthSeconds(i128),
    /// The coin's record has this height.
    AssertMyBirthHeight(i128),
    /// The list creates the coin.
    AssertEphemeral,
    /// So many seconds have gone by since the coin's.
    AssertSecondsRelative(i128),
    /// The peak has these seconds or more.
    AssertSecondsAbsolute(i128),
    /// So many blocks stand on the coin's.
    AssertHeightRelative(i128),
    /// The peak has this height or more.
    AssertHeightAbsolute(i128),
    /// Fewer seconds have gone by since the coin's.
    AssertBeforeSecondsRelative(i128),
    /// The peak has fewer seconds.
    AssertBeforeSecondsAbsolute(i128),
    /// Fewer blocks stand on the coin's.
    AssertBeforeHeightRelative(i128),
    /// The peak has a lower height.
    AssertBeforeHeightAbsolute(i128),
}
