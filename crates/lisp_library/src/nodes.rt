use clvm_tree::Node;
use small_lists::ShortList;

/// A list of nodes of one `Trees`, of which there are fewer than 2^32.
pub type Nodes = ShortList<Node>;
