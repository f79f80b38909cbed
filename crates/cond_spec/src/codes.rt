//! The codes of conditions. The definitions and the code share these numbers, each of which stands here alone. Source: Chia
//! documentation of conditions.

pub const REMARK: u8 = 1;

pub const AGG_SIG_PARENT: u8 = 43;

pub const AGG_SIG_PUZZLE: u8 = 44;

pub const AGG_SIG_AMOUNT: u8 = 45;

pub const AGG_SIG_PUZZLE_AMOUNT: u8 = 46;

pub const AGG_SIG_PARENT_AMOUNT: u8 = 47;

pub const AGG_SIG_PARENT_PUZZLE: u8 = 48;

pub const AGG_SIG_UNSAFE: u8 = 49;

pub const AGG_SIG_ME: u8 = 50;

pub const CREATE_COIN: u8 = 51;

pub const RESERVE_FEE: u8 = 52;

pub const CREATE_COIN_ANNOUNCEMENT: u8 = 60;

pub const ASSERT_COIN_ANNOUNCEMENT: u8 = 61;

pub const CREATE_PUZZLE_ANNOUNCEMENT: u8 = 62;

pub const ASSERT_PUZZLE_ANNOUNCEMENT: u8 = 63;

pub const ASSERT_CONCURRENT_SPEND: u8 = 64;

pub const ASSERT_CONCURRENT_PUZZLE: u8 = 65;

pub const SEND_MESSAGE: u8 = 66;

pub const RECEIVE_MESSAGE: u8 = 67;

pub const ASSERT_MY_COIN_ID: u8 = 70;

pub const ASSERT_MY_PARENT_ID: u8 = 71;

pub const ASSERT_MY_PUZZLEHASH: u8 = 72;

pub const ASSERT_MY_AMOUNT: u8 = 73;

pub const ASSERT_MY_BIRTH_SECONDS: u8 = 74;

pub const ASSERT_MY_BIRTH_HEIGHT: u8 = 75;

pub const ASSERT_EPHEMERAL: u8 = 76;

pub const ASSERT_SECONDS_RELATIVE: u8 = 80;

pub const ASSERT_SECONDS_ABSOLUTE: u8 = 81;

pub const ASSERT_HEIGHT_RELATIVE: u8 = 82;

pub const ASSERT_HEIGHT_ABSOLUTE: u8 = 83;

pub const ASSERT_BEFORE_SECONDS_RELATIVE: u8 = 84;

pub const ASSERT_BEFORE_SECONDS_ABSOLUTE: u8 = 85;

pub const ASSERT_BEFORE_HEIGHT_RELATIVE: u8 = 86;

pub const ASSERT_BEFORE_HEIGHT_ABSOLUTE: u8 = 87;
