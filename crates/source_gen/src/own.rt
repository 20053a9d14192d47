//! The field or the method with a body that a column is.

ghost use Rattle.std.specs.Prelude.{◌≡◌, ◌++◌, OnOk};
ghost use Rattle.source_gen.specs.Words.{old_program, renaming, AreSourceNodes, hierarchy_of};
ghost use Rattle.java_tree.specs.Syntax as tree;
ghost use Rattle.write_model.specs.Members as written;

use crate::members::{body_member, field_member, push_member};
use crate::parts::{Nodes, code_at, field_at};
use flow_rules::ColumnItem;
use java_tree::Member;
use std::alloc::AllocError;

/// Adds the field or the public method that a column is.
pub fn add_own(
    nodes: &Nodes,
    item: Option<ColumnItem>,
    into: &mut Vec<Member>,
) -> Result<(), AllocError>
    requires { AreSourceNodes nodes.now }
    ensures { OnOk result (tree.members into.new.items ≡ tree.members into.old.items ++ written.own_member (old_program nodes.now.source)
        (renaming nodes.now.source) nodes.now.facts.now (hierarchy_of nodes.now) item) }
{
    let source = &nodes.source;
    match item {
        Some(ColumnItem::Fld(f)) => match field_at(source.program, f) {
            Some(field) => push_member(into, field_member(source, f, field)?),
            None => Ok(()),
        },
        Some(ColumnItem::Def(m)) => match code_at(source.program, m) {
            Some(code) => push_member(into, body_member(source, m, &code)?),
            None => Ok(()),
        },
        _ => Ok(()),
    }
}
