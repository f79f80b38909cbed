//! What operators and evaluation cost. The definitions and the code share these numbers, each of which stands here alone.
//! Source: CLVM reference; the costs as they stand here are this project's own.

// ---- evaluation

/// An operator form, before its operands.
pub const FORM_COST: u64 = 1;

/// A path.
pub const PATH_COST: u64 = 44;

/// Each leading zero byte of a path.
pub const PATH_ZERO_COST: u64 = 4;

/// Each step of a path.
pub const PATH_STEP_COST: u64 = 4;

// ---- what operators cost whatever their operands are, in the order of their codes

pub const QUOTE_COST: u32 = 20;

pub const APPLY_COST: u32 = 90;

pub const CHOICE_COST: u32 = 33;

pub const NEW_PAIR_COST: u32 = 50;

pub const FIRST_COST: u32 = 30;

pub const REST_COST: u32 = 30;

pub const PAIR_FLAG_COST: u32 = 19;

/// `x` gives no value, so this is never charged.
pub const RAISE_COST: u32 = 0;

pub const EQUAL_COST: u32 = 117;

pub const BYTES_GREATER_COST: u32 = 117;

/// Each of the 32 bytes of a hash costs as a byte of a result.
pub const HASH_COST: u32 = 87 + RESULT_BYTE_COST as u32 * 32;

pub const PART_COST: u32 = 1;

pub const LENGTH_COST: u32 = 173;

pub const CONCAT_COST: u32 = 142;

pub const SUM_COST: u32 = 99;

pub const DIFFERENCE_COST: u32 = 99;

pub const PRODUCT_COST: u32 = 92;

pub const QUOTIENT_COST: u32 = 988;

pub const DIVISION_COST: u32 = 1_116;

pub const GREATER_COST: u32 = 498;

pub const SHIFT_COST: u32 = 596;

pub const BIT_SHIFT_COST: u32 = 277;

pub const AND_COST: u32 = 100;

pub const OR_COST: u32 = 100;

pub const XOR_COST: u32 = 100;

pub const COMPLEMENT_COST: u32 = 331;

pub const NIL_FLAG_COST: u32 = 200;

pub const ANY_FLAG_COST: u32 = 200;

pub const ALL_FLAG_COST: u32 = 200;

// ---- what they cost besides

/// Each byte of a result.
pub const RESULT_BYTE_COST: u64 = 10;

/// Each byte of two atoms that are compared.
pub const COMPARED_BYTE_COST: u64 = 1;

/// Each atom of which a hash is made.
pub const HASHED_ATOM_COST: u64 = 134;

/// Each byte of them.
pub const HASHED_BYTE_COST: u64 = 2;

/// Each byte of an atom whose length is told.
pub const MEASURED_BYTE_COST: u64 = 1;

/// Each atom that is joined to others.
pub const JOINED_ATOM_COST: u64 = 135;

/// Each byte of them.
pub const JOINED_BYTE_COST: u64 = 3;

/// Each term of a sum or a difference.
pub const TERM_COST: u64 = 320;

/// Each byte of them.
pub const TERM_BYTE_COST: u64 = 3;

/// Each factor after the first.
pub const FACTOR_COST: u64 = 885;

/// Each byte of the product so far and of the factor.
pub const FACTOR_BYTE_COST: u64 = 6;

/// The lengths of both, multiplied, are divided by this.
pub const FACTOR_LENGTHS_DIVISOR: u64 = 128;

/// Each byte of a number that is divided, and of its divisor, where the quotient alone is asked for.
pub const QUOTIENT_BYTE_COST: u64 = 4;

/// The same where the remainder is asked for too.
pub const DIVISION_BYTE_COST: u64 = 6;

/// Each byte of two numbers that are compared.
pub const GREATER_BYTE_COST: u64 = 2;

/// Each byte of a value that is shifted, and of what it is then.
pub const SHIFT_BYTE_COST: u64 = 3;

/// Each number that is joined to others bit by bit.
pub const BITS_COST: u64 = 264;

/// Each byte of them.
pub const BITS_BYTE_COST: u64 = 3;

/// Each byte of a number whose complement is made.
pub const COMPLEMENT_BYTE_COST: u64 = 3;

/// Each operand whose truth is asked for.
pub const TRUTH_COST: u64 = 300;

/// What a new atom uses of the bytes of fuel, beside its length.
pub const ATOM_OVERHEAD: u64 = 8;
