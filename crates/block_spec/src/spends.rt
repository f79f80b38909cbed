use crate::Spend;
use small_lists::ShortList;

/// A list of spends, of which there are fewer than 2^32.
pub type Spends = ShortList<Spend>;
