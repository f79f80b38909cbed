//! The codes of the operators. The definitions and the code share these numbers, each of which stands here alone.
//! Source: CLVM reference.

/// `q`: what follows it is its value.
pub const QUOTE: u8 = 1;

/// `a`: evaluation goes on with its operands.
pub const APPLY: u8 = 2;

/// `i`: one of two operands.
pub const CHOICE: u8 = 3;

/// `c`: the pair of its operands.
pub const NEW_PAIR: u8 = 4;

/// `f`: the first of a pair.
pub const FIRST: u8 = 5;

/// `r`: the rest of a pair.
pub const REST: u8 = 6;

/// `l`: whether an operand is a pair.
pub const PAIR_FLAG: u8 = 7;

/// `x`: raises its operands.
pub const RAISE: u8 = 8;

/// `=`: whether two atoms are equal.
pub const EQUAL: u8 = 9;

/// `>s`: whether the bytes of the first are larger.
pub const BYTES_GREATER: u8 = 10;

/// `sha256`
pub const HASH: u8 = 11;

/// `substr`
pub const PART: u8 = 12;

/// `strlen`
pub const LENGTH: u8 = 13;

/// `concat`
pub const CONCAT: u8 = 14;

/// `+`
pub const SUM: u8 = 16;

/// `-`
pub const DIFFERENCE: u8 = 17;

/// `*`
pub const PRODUCT: u8 = 18;

/// `/`
pub const QUOTIENT: u8 = 19;

/// `divmod`
pub const DIVISION: u8 = 20;

/// `>`
pub const GREATER: u8 = 21;

/// `ash`: the shift of a number.
pub const SHIFT: u8 = 22;

/// `lsh`: the shift of bits without a sign.
pub const BIT_SHIFT: u8 = 23;

/// `logand`
pub const AND: u8 = 24;

/// `logior`
pub const OR: u8 = 25;

/// `logxor`
pub const XOR: u8 = 26;

/// `lognot`
pub const COMPLEMENT: u8 = 27;

/// `not`: whether an operand is nil.
pub const NIL_FLAG: u8 = 32;

/// `any`: whether one isn't nil.
pub const ANY_FLAG: u8 = 33;

/// `all`: whether none is nil.
pub const ALL_FLAG: u8 = 34;
