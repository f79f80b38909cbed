//! The bytes of an atom, or the name of a symbol.

use small_lists::ByteList;

/// The bytes of an atom, or the name of a symbol. Words are equal, ordered and hashed as their bytes.
pub type Word = ByteList;
