//! The table of conditions, and arms over it. Source: Chia documentation of conditions; the kinds are this project's own.

ghost use Rattle.std.specs.Prelude.{◌≡◌, map, IsTrue};
ghost use Rattle.case_table.specs.Table.{codes_rise};
ghost use Rattle.case_table.specs.Conditions.{conditions as spec_conditions, least_count, kind_number};

use crate::operator_table::ANY_COUNT;
use crate::row::Row;

/// What a condition costs that makes no coin and wants no signature.
pub const FREE: u32 = 0;

pub const SIGNATURE_COST: u32 = 1_200_000;

pub const CREATE_COIN_COST: u32 = 1_800_000;

/// The kinds of operands, in order. The number of a kind is the constant of its name.
pub const NO_OPERAND: u8 = 0;

pub const KEY_AND_TEXT: u8 = 1;

pub const HASH_AND_AMOUNT: u8 = 2;

pub const AMOUNT: u8 = 3;

pub const TEXT: u8 = 4;

pub const HASH: u8 = 5;

pub const MOMENT: u8 = 6;

/// A mode, a text, and what the mode names of the receiver.
pub const MESSAGE_TO: u8 = 7;

/// A mode, a text, and what the mode names of the sender.
pub const MESSAGE_FROM: u8 = 8;

/// Hands all rows on to a macro, behind its arguments: code, name, the least count of operands, the cost, the kind of the
/// operands, and a name for the arm. `conditions` ties each column but the last to the definitions' table.
#[macro_export]
macro_rules! condition_rows {
    ($with:ident $arguments:tt) => {
        $with! {
            $arguments
            (1, "REMARK", 0, FREE, NO_OPERAND, Remark)
            (43, "AGG_SIG_PARENT", 2, SIGNATURE_COST, KEY_AND_TEXT, AggSigParent)
            (44, "AGG_SIG_PUZZLE", 2, SIGNATURE_COST, KEY_AND_TEXT, AggSigPuzzle)
            (45, "AGG_SIG_AMOUNT", 2, SIGNATURE_COST, KEY_AND_TEXT, AggSigAmount)
            (46, "AGG_SIG_PUZZLE_AMOUNT", 2, SIGNATURE_COST, KEY_AND_TEXT, AggSigPuzzleAmount)
            (47, "AGG_SIG_PARENT_AMOUNT", 2, SIGNATURE_COST, KEY_AND_TEXT, AggSigParentAmount)
            (48, "AGG_SIG_PARENT_PUZZLE", 2, SIGNATURE_COST, KEY_AND_TEXT, AggSigParentPuzzle)
            (49, "AGG_SIG_UNSAFE", 2, SIGNATURE_COST, KEY_AND_TEXT, AggSigUnsafe)
            (50, "AGG_SIG_ME", 2, SIGNATURE_COST, KEY_AND_TEXT, AggSigMe)
            (51, "CREATE_COIN", 2, CREATE_COIN_COST, HASH_AND_AMOUNT, CreateCoin)
            (52, "RESERVE_FEE", 1, FREE, AMOUNT, ReserveFee)
            (60, "CREATE_COIN_ANNOUNCEMENT", 1, FREE, TEXT, CreateCoinAnnouncement)
            (61, "ASSERT_COIN_ANNOUNCEMENT", 1, FREE, HASH, AssertCoinAnnouncement)
            (62, "CREATE_PUZZLE_ANNOUNCEMENT", 1, FREE, TEXT, CreatePuzzleAnnouncement)
            (63, "ASSERT_PUZZLE_ANNOUNCEMENT", 1, FREE, HASH, AssertPuzzleAnnouncement)
            (64, "ASSERT_CONCURRENT_SPEND", 1, FREE, HASH, AssertConcurrentSpend)
            (65, "ASSERT_CONCURRENT_PUZZLE", 1, FREE, HASH, AssertConcurrentPuzzle)
            (66, "SEND_MESSAGE", 2, FREE, MESSAGE_TO, SendMessage)
            (67, "RECEIVE_MESSAGE", 2, FREE, MESSAGE_FROM, ReceiveMessage)
            (70, "ASSERT_MY_COIN_ID", 1, FREE, HASH, AssertMyCoinId)
            (71, "ASSERT_MY_PARENT_ID", 1, FREE, HASH, AssertMyParentId)
            (72, "ASSERT_MY_PUZZLEHASH", 1, FREE, HASH, AssertMyPuzzleHash)
            (73, "ASSERT_MY_AMOUNT", 1, FREE, AMOUNT, AssertMyAmount)
            (74, "ASSERT_MY_BIRTH_SECONDS", 1, FREE, MOMENT, AssertMyBirthSeconds)
            (75, "ASSERT_MY_BIRTH_HEIGHT", 1, FREE, MOMENT, AssertMyBirthHeight)
            (76, "ASSERT_EPHEMERAL", 0, FREE, NO_OPERAND, AssertEphemeral)
            (80, "ASSERT_SECONDS_RELATIVE", 1, FREE, MOMENT, AssertSecondsRelative)
            (81, "ASSERT_SECONDS_ABSOLUTE", 1, FREE, MOMENT, AssertSecondsAbsolute)
            (82, "ASSERT_HEIGHT_RELATIVE", 1, FREE, MOMENT, AssertHeightRelative)
            (83, "ASSERT_HEIGHT_ABSOLUTE", 1, FREE, MOMENT, AssertHeightAbsolute)
            (84, "ASSERT_BEFORE_SECONDS_RELATIVE", 1, FREE, MOMENT, AssertBeforeSecondsRelative)
            (85, "ASSERT_BEFORE_SECONDS_ABSOLUTE", 1, FREE, MOMENT, AssertBeforeSecondsAbsolute)
            (86, "ASSERT_BEFORE_HEIGHT_RELATIVE", 1, FREE, MOMENT, AssertBeforeHeightRelative)
            (87, "ASSERT_BEFORE_HEIGHT_ABSOLUTE", 1, FREE, MOMENT, AssertBeforeHeightAbsolute)
        }
    };
}

macro_rules! rows {
    (() $(($code:literal, $name:literal, $least:literal, $cost:ident, $kind:ident, $arm:ident))*) => {
        [$(Row {
            code: $code,
            name: $name,
            arity_low: $least,
            arity_high: ANY_COUNT,
            cost: $cost,
            kind: $kind,
        }),*]
    };
}

static CONDITIONS: [Row; 34] = condition_rows!(rows());

/// The table of conditions. Each column is that of the definitions' table; any count of further operands may follow.
pub fn conditions() -> &'static [Row; 34]
    ensures codes { map (λ row. row.code) result.now ≡ map (λ row. row.code) spec_conditions }
    ensures names { map (λ row. row.name.now) result.now ≡ map (λ row. row.name) spec_conditions }
    ensures lows { map (λ row. row.arity_low) result.now ≡ map (λ row. least_count row.kind) spec_conditions }
    ensures highs { map (λ row. row.arity_high) result.now ≡ map (λ row. ANY_COUNT) spec_conditions }
    ensures costs { map (λ row. row.cost) result.now ≡ map (λ row. row.cost) spec_conditions }
    ensures kinds { map (λ row. row.kind) result.now ≡ map (λ row. kind_number row.kind) spec_conditions }
    ensures rise { IsTrue (codes_rise (map (λ row. row.code) result.now)) }
{
    &CONDITIONS
}

/// A `match` on the code of a condition. The arm of a row is what the macro `$arm` makes of `$arguments`, the kind of its
/// operands and the name of its arm, as `$arm!(($arguments) HASH_AND_AMOUNT CreateCoin)`; `$otherwise` is the arm of all
/// other codes.
#[macro_export]
macro_rules! by_condition {
    ($code:expr, $arm:ident $arguments:tt, $otherwise:expr) => {
        $crate::condition_rows!(by_condition ($code, $arm $arguments, $otherwise))
    };
    (($condition:expr, $arm:ident $arguments:tt, $otherwise:expr)
        $(($code:literal, $name:literal, $least:literal, $cost:ident, $kind:ident, $variant:ident))*) => {
        match $condition {
            $($code => $arm!($arguments $kind $variant),)*
            _ => $otherwise,
        }
    };
}
