//! The conflict of a hierarchy.

ghost use Rattle.std.specs.Prelude.{◌≡◌};
ghost use Rattle.hier_tree.specs.Trees.{conflict_of};

use hier_rules::{Broken, Nodes};
use hier_tree::Conflict;

/// The nodes that an instance names, as a conflict.
pub fn conflict_of(broken: Broken) -> Conflict
    ensures { result ≡ conflict_of broken }
{
    let (lower, first, second) = match broken.nodes {
        Nodes::One(n) => (n, n, n),
        Nodes::Two(n, x) => (n, x, x),
        Nodes::Three(n, x, y) => (n, x, y),
    };
    Conflict {
        lower,
        first,
        second,
    }
}
