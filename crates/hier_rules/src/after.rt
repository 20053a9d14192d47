//! What an edit can have broken of a hierarchy that met its obligations.

ghost use Rattle.std.specs.Prelude.{◌≡◌, ◌<◌, length, All, IfOk};
ghost use Rattle.hier_rules.specs.Words.{or_else, IsObligationInput, NamesSome};
ghost use Rattle.hier_rules.specs.First.{first_changed_run, first_of_edit};
ghost use Rattle.hier_rules.specs.Names.{first_confused};
ghost use Rattle.kaba_order.specs.Formers.{AreBelow};
ghost use Rattle.hier_model.specs.Places.{JoinsNodes, joined_nodes};
ghost use Rattle.hier_rules.specs.Index.{IsIndexOf, AreClashesOf};
ghost use Rattle.hier_rules.specs.After.{IsAfterEdit, AreApartOutside};
ghost use Rattle.hier_rules.specs.Touched.{AllHold};

use crate::bodies::first_two_bodies_among;
use crate::broken::Broken;
use crate::clashes::{ClashPair, first_confused_among, name_clashes};
use crate::first_of_edit;
use crate::index::JoinIndex;
use crate::met::{first_wrong_outcome_among, low_sites};
use crate::names::first_misnamed;
use crate::places::Asked;
use crate::touched::{first_wrong_need_among, first_wrong_super_among};
use hier_model::Edit;
use kaba_base::NodeId;
use kaba_bits::BitRow;
use std::alloc::{AllocError, Global};

/// The first instance of the first broken obligation of B2 to B8 in the hierarchy after an edit of one that met them; `None`
/// where all hold. What the edit cannot have broken is not asked: a merge, and a node put under another, only add to what
/// is offered, and change no name, so that of them B4 to B7 and the last part of B8 are asked, and B6 at the merged nodes
/// alone, and the others at or below the joined nodes alone; of a name only B8. An error comes only for want of memory.
pub fn first_broken_after(
    alloc: Global,
    asked: &Asked,
    index: &JoinIndex,
    edit: &Edit,
) -> Result<Option<Broken>, AllocError>
    requires asked { IsObligationInput asked.now }
    requires index { IsIndexOf asked.now.facts.now asked.now.pt.now index.now }
    requires some { NamesSome edit.now }
    requires after { IsAfterEdit asked.now.facts.now asked.now.pt.now asked.now.hier.now edit.now }
    ensures first { IfOk result (λ b. b ≡ first_of_edit asked.now.facts.now asked.now.pt.now asked.now.hier.now) }
{
    match edit {
        Edit::Merge(set) => first_after(alloc, asked, index, edit, set),
        Edit::Under(n, _) => first_after(alloc, asked, index, edit, &[*n]),
        Edit::TypeName(_, _) => first_misnamed(alloc, asked),
        Edit::MemberName(_, _) => first_misnamed(alloc, asked),
        Edit::Move(_, _) => first_of_edit(alloc, asked),
        Edit::Drop(_) => first_of_edit(alloc, asked),
    }
}

/// The same after a join, by the nodes that it joined.
fn first_after(
    alloc: Global,
    asked: &Asked,
    index: &JoinIndex,
    edit: &Edit,
    joined: &[NodeId],
) -> Result<Option<Broken>, AllocError>
    requires asked { IsObligationInput asked.now }
    requires index { IsIndexOf asked.now.facts.now asked.now.pt.now index.now }
    requires some { NamesSome edit.now }
    requires join { JoinsNodes edit.now }
    requires joined { joined.now ≡ joined_nodes edit.now }
    requires nodes { All (λ s. s.0 < length asked.now.hier.now.order.live) joined.now }
    requires after { IsAfterEdit asked.now.facts.now asked.now.pt.now asked.now.hier.now edit.now }
    ensures first { IfOk result (λ b. b ≡ first_of_edit asked.now.facts.now asked.now.pt.now asked.now.hier.now) }
{
    let clashes = name_clashes(alloc, asked)?;
    let low = asked.hier.order().below(alloc, joined)?;
    first_broken_joined(alloc, asked, index, &clashes, edit, &low)
}

/// The same after a join, a merge or a node put under another, by what is found of the names of members too, which no join
/// changes, and by the nodes at or below the joined ones. An error comes only for want of memory. The time is in proportion
/// to the number of rows, columns and sites, for each asked place to a 64th of the number of sites, and to what stands at or
/// below the joined nodes.
pub fn first_broken_joined(
    alloc: Global,
    asked: &Asked,
    index: &JoinIndex,
    clashes: &Vec<ClashPair>,
    edit: &Edit,
    low: &BitRow,
) -> Result<Option<Broken>, AllocError>
    requires asked { IsObligationInput asked.now }
    requires some { NamesSome edit.now }
    requires join { JoinsNodes edit.now }
    requires index { IsIndexOf asked.now.facts.now asked.now.pt.now index.now }
    requires clashes { AreClashesOf asked.now.facts.now asked.now.hier.now.members clashes.now.items }
    requires low { AreBelow asked.now.hier.now.order (joined_nodes edit.now) low.now }
    requires after { IsAfterEdit asked.now.facts.now asked.now.pt.now asked.now.hier.now edit.now }
    ensures first { IfOk result (λ b. b ≡ first_of_edit asked.now.facts.now asked.now.pt.now asked.now.hier.now) }
{
    match edit {
        Edit::Merge(set) => first_after_join(alloc, asked, index, clashes, set, low),
        Edit::Under(_, _) => first_after_join(alloc, asked, index, clashes, &[], low),
        Edit::Move(_, _) | Edit::TypeName(_, _) => unreachable!(),
        Edit::MemberName(_, _) | Edit::Drop(_) => unreachable!(),
    }
}

/// The first instance against B4 to B7, and then against the last part of B8, where a node outside a list has no two bodies
/// of one slot, and no need, no super call, no outcome and no name is broken but at the nodes of a set. An error comes only
/// for want of memory.
fn first_after_join(
    alloc: Global,
    asked: &Asked,
    index: &JoinIndex,
    clashes: &Vec<ClashPair>,
    joined: &[NodeId],
    low: &BitRow,
) -> Result<Option<Broken>, AllocError>
    requires asked { IsObligationInput asked.now }
    requires index { IsIndexOf asked.now.facts.now asked.now.pt.now index.now }
    requires clashes { AreClashesOf asked.now.facts.now asked.now.hier.now.members clashes.now.items }
    requires others { AreApartOutside asked.now.facts.now asked.now.hier.now joined.now }
    requires kept { AllHold asked.now.facts.now asked.now.pt.now asked.now.hier.now low.now }
    ensures { IfOk result (λ b. b ≡ or_else (first_changed_run asked.now.facts.now asked.now.pt.now asked.now.hier.now)
        (first_confused asked.now.facts.now asked.now.hier.now)) }
{
    if let Some(found) = first_wrong_need_among(alloc, asked, index, low)? {
        return Ok(Some(found));
    }
    if let Some(found) = first_wrong_super_among(asked, index, low) {
        return Ok(Some(found));
    }
    if let Some(found) = first_two_bodies_among(asked, index, joined) {
        return Ok(Some(found));
    }
    let sites = low_sites(alloc, asked, low)?;
    match first_wrong_outcome_among(alloc, asked, index, &sites)? {
        Some(found) => Ok(Some(found)),
        None => Ok(first_confused_among(asked, clashes, low)),
    }
}
