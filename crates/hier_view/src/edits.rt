//! The text of an edit of a class hierarchy: the line of a script that asks for it.

ghost use Rattle.std.specs.Prelude.{◌≡◌, ◌++◌, OnOk, codes, string_bytes};
ghost use Rattle.hier_view.specs.EditText.{nodes_text, edit_text};

use hier_model::Edit;
use kaba_base::NodeId;
use std::alloc::AllocError;

/// Appends the words of an edit as a script has them, without the end of the line. An error comes only for
/// want of memory.
pub fn add_edit(text: &mut String, edit: &Edit) -> Result<(), AllocError>
    ensures { OnOk result (string_bytes text.new ≡ string_bytes text.old ++ edit_text edit.now) }
{
    match edit {
        Edit::Merge(set) => add_merge(text, set),
        Edit::Under(n, p) => write!(text, "under n{} n{}", n.0, p.0),
        Edit::Move(c, n) => write!(text, "move c{} n{}", c.0, n.0),
        Edit::TypeName(n, name) => write!(text, "type n{} {}", n.0, name.as_str()),
        Edit::MemberName(c, name) => write!(text, "member c{} {}", c.0, name.as_str()),
        Edit::Drop(n) => write!(text, "drop n{}", n.0),
    }
}

/// Appends a merge.
fn add_merge(text: &mut String, set: &[NodeId]) -> Result<(), AllocError>
    ensures { OnOk result (string_bytes text.new ≡ string_bytes text.old ++ (codes "merge" ++ nodes_text set.now)) }
{
    text.push_str("merge")?;
    for n in set {
        let number = n.0;
        write!(text, " n{number}")?;
    }
    Ok(())
}
