use small_lists::ByteList;

/// A list of bytes.
pub type Bytes = ByteList;
