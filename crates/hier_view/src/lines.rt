//! The lines.

ghost use Rattle.std.specs.Prelude.{◌≡◌, ◌++◌, ◌<◌, true, length, IfOk, IfSome, OnOk, OnErr, All, string_bytes};
ghost use Rattle.std.specs.Str.{encode_utf8_all};
ghost use Rattle.kaba_order.specs.Orders.{is_live};
ghost use Rattle.fact_model.specs.InRange.{InRange, IsClass};
ghost use Rattle.hier_model.specs.Hierarchies.{IsHierarchyOf};
ghost use Rattle.hier_view.specs.Text.{kind_text, origin_text, head_text, column_part, columns_text, node_lines, node_line, hierarchy_text};
ghost use Rattle.hier_model.specs.Edits.{is_mark};

use crate::lists::{columns_at, covers, live_nodes, rows_at};
use fact_model::{ColKind, Facts, class_at};
use hier_model::Hier;
use kaba_base::{ClassId, ColId, NodeId};
use lattice_view::add_part;
use std::alloc::{AllocError, Global};

/// Appends the count of the live nodes, and for each a line: its number, whether it is a class or an
/// interface, its name, the class from which it comes, its upper covers, and the columns and rows that
/// stand there. An error comes only for want of memory, and then nothing was appended.
pub fn show_hierarchy(
    alloc: Global,
    facts: &Facts,
    hier: &Hier,
    into: &mut Vec<u8>,
) -> Result<(), AllocError>
    requires range { InRange facts.now }
    requires hierarchy { IsHierarchyOf facts.now hier.now }
    ensures text { OnOk result (into.new.items ≡ into.old.items ++ hierarchy_text facts.now hier.now) }
    ensures same { OnErr result (into.new.items ≡ into.old.items) }
{
    let text = text_of(alloc, facts, hier)?;
    into.extend_from_slice(text.as_bytes())?;
    Ok(())
}

/// The whole text.
fn text_of(alloc: Global, facts: &Facts, hier: &Hier) -> Result<String, AllocError>
    requires range { InRange facts.now }
    requires hierarchy { IsHierarchyOf facts.now hier.now }
    ensures { IfOk result (λ s. string_bytes s ≡ hierarchy_text facts.now hier.now) }
{
    let nodes = live_nodes(alloc, hier)?;
    let count = nodes.len();
    let mut text = String::new(alloc);
    write!(text, "nodes {count}\n")?;
    add_nodes(alloc, &mut text, facts, hier, &nodes)?;
    Ok(text)
}

/// Adds the lines of live nodes.
fn add_nodes(
    alloc: Global,
    text: &mut String,
    facts: &Facts,
    hier: &Hier,
    nodes: &[u32],
) -> Result<(), AllocError>
    requires range { InRange facts.now }
    requires hierarchy { IsHierarchyOf facts.now hier.now }
    requires live { All (λ n. is_live hier.now.order n ≡ true) nodes.now }
    ensures { OnOk result (string_bytes text.new ≡ string_bytes text.old ++ node_lines facts.now hier.now nodes.now) }
{
    for node in nodes {
        add_node(alloc, text, facts, hier, NodeId(*node))?;
    }
    Ok(())
}

/// Adds the line of a live node.
fn add_node(
    alloc: Global,
    text: &mut String,
    facts: &Facts,
    hier: &Hier,
    n: NodeId,
) -> Result<(), AllocError>
    requires range { InRange facts.now }
    requires hierarchy { IsHierarchyOf facts.now hier.now }
    requires live { is_live hier.now.order n.0 ≡ true }
    ensures { OnOk result (string_bytes text.new ≡ string_bytes text.old ++ node_line facts.now hier.now n.0) }
{
    let above = covers(alloc, hier, n)?;
    let columns = columns_at(alloc, facts, hier, n)?;
    let rows = rows_at(alloc, facts, hier, n)?;
    add_head(text, facts, hier, n)?;
    add_part(text, " above:", "n", &above)?;
    add_columns(text, facts, hier, &columns)?;
    add_part(text, " rows:", "r", &rows)?;
    text.push_str("\n")?;
    Ok(())
}

/// Adds the number of a live node, its kind, its name and the class from which it comes.
fn add_head(text: &mut String, facts: &Facts, hier: &Hier, n: NodeId) -> Result<(), AllocError>
    requires range { InRange facts.now }
    requires hierarchy { IsHierarchyOf facts.now hier.now }
    requires live { is_live hier.now.order n.0 ≡ true }
    ensures { OnOk result (string_bytes text.new ≡ string_bytes text.old ++ head_text facts.now hier.now n.0) }
{
    let number = n.0;
    let kind = kind_text(hier.is_class_node(facts, n));
    let name = hier.type_name(n).as_str();
    let origin = origin_text(facts, hier.origin(n));
    write!(text, "n{number} {kind} {name} origin {origin}")?;
    Ok(())
}

/// The word for the kind of a type.
fn kind_text(is_class: bool) -> &'static str
    ensures { result.now ≡ kind_text is_class }
{
    if is_class { "class" } else { "interface" }
}

/// The name of the class from which a node comes, where there is one.
fn origin_text(facts: &Facts, origin: Option<ClassId>) -> &str
    requires { IfSome origin (IsClass facts.now) }
    ensures { result.now ≡ origin_text facts.now origin }
{
    match origin {
        None => "-",
        Some(class) => class_at(facts, class).name.as_str(),
    }
}

/// Adds columns after their name, each with the name of its member.
fn add_columns(
    text: &mut String,
    facts: &Facts,
    hier: &Hier,
    columns: &[u32],
) -> Result<(), AllocError>
    requires hierarchy { IsHierarchyOf facts.now hier.now }
    requires within { All (λ c. c < length facts.now.columns.items) columns.now }
    ensures { OnOk result (string_bytes text.new ≡ string_bytes text.old ++ columns_text facts.now hier.now columns.now) }
{
    text.push_str(" columns:")?;
    if columns.is_empty() {
        text.push_str(" -")?;
        return Ok(());
    }
    for column in columns {
        add_column(text, facts, hier, *column)?;
    }
    Ok(())
}

/// Adds a column, with the name of its member.
fn add_column(text: &mut String, facts: &Facts, hier: &Hier, c: u32) -> Result<(), AllocError>
    requires hierarchy { IsHierarchyOf facts.now hier.now }
    requires within { c < length facts.now.columns.items }
    ensures { OnOk result (string_bytes text.new ≡ string_bytes text.old ++ column_part facts.now hier.now c) }
{
    if is_mark(facts.columns[c as usize].kind) {
        write!(text, " c{c}")?;
        return Ok(());
    }
    let name = hier.member_name(ColId(c)).as_str();
    write!(text, " c{c}:{name}")?;
    Ok(())
}

/// Whether a column is the mark of a tested type.
fn is_mark(kind: ColKind) -> bool
    ensures { result ≡ is_mark kind }
{
    matches!(kind, ColKind::Is)
}
