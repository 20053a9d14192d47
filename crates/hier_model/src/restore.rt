//! Putting back what an edit changed.

ghost use Rattle.std.specs.Prelude.{◌≡◌, [], ◌∷◌, All};
ghost use Rattle.hier_model.specs.Hierarchies.{Hierarchy};
ghost use Rattle.hier_model.specs.Differences.{IsUndoOf};
ghost use Rattle.hier_model.specs.Restored.{restored, FitsIn};

use crate::Hier;
use crate::differences::{Change, Undo};

impl Hier {
    /// Puts back what the edit that made the hierarchy changed, as it was kept of the hierarchy before. It takes
    /// no memory: the names are those that were kept.
    pub fn put_back(&mut self, kept: Undo)
        requires { (old : Hierarchy) × IsUndoOf old self.old kept }
        ensures { (old : Hierarchy) → IsUndoOf old self.old kept → self.new ≡ old }
    {
        let Undo {
            changes,
            nodes,
            pairs,
        } = kept;
        self.order.flip(&nodes, &pairs);
        self.restore_all(changes);
    }

    /// Puts the places, names and origins of some changes back, the last first.
    fn restore_all(&mut self, changes: Vec<Change>)
        requires { All (FitsIn self.old) changes.items }
        ensures { self.new ≡ restored self.old changes.items }
    {
        let mut left = changes;
        'back: while let Some(change) = left.pop() {
            self.restore(change);
        }
    }

    /// Puts the place, the name or the origin of a change back.
    fn restore(&mut self, change: Change)
        requires { FitsIn self.old change }
        ensures { self.new ≡ restored self.old (change ∷ []) }
    {
        match change {
            Change::Node(n, name, origin) => {
                self.types[n.0 as usize] = name;
                self.origins[n.0 as usize] = origin;
            }
            Change::Pair(_, _, _) => {}
            Change::Column(c, p) => self.columns[c.0 as usize] = Some(p),
            Change::Row(r, p) => self.rows[r.0 as usize] = p,
            Change::TypeName(n, name) => self.types[n.0 as usize] = name,
            Change::MemberName(c, name) => self.members[c.0 as usize] = name,
            Change::Origin(n, origin) => self.origins[n.0 as usize] = origin,
        }
    }
}
