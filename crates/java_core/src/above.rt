//! The members nearest to a class that has none of a name itself.
#![tactic(auto)]

ghost use Rattle.std.specs.Prelude.{◌≡◌, ℕ, ◌<◌, ◌&&◌, ◌==◌, Option, IfSome, position, option_and_then};
ghost use Rattle.kaba_versions.specs.Held.{holds};
ghost use Rattle.java_core.specs.MemberKeys.{MemberKeys};
ghost use Rattle.java_core.specs.Tables.{AreMemberTables};
ghost use Rattle.java_core.specs.Nearest.{has_name, IsSuperclassVersion, IsNearestBy};

use crate::nearest::{MANY, name_number, parent_at};
use crate::tables::{Member, MemberTables};
use kaba_base::{ClassId, Name};
use kaba_versions::VersionMap;

/// The version of a class's superclass, where it is known.
fn version_above<'a>(
    all: &'a Vec<Option<VersionMap>>,
    parents: &[Option<ClassId>],
    class: usize,
) -> Option<&'a VersionMap>
    ensures { IfSome result (λ m. IsSuperclassVersion parents.now all.now.items class m.now) }
{
    match parent_at(parents, class) {
        Some(parent) => match all.get(parent.0 as usize) {
            Some(Some(map)) => Some(map),
            _ => None,
        },
        None => None,
    }
}

/// What a version has under a number, if there is one.
fn numbered(map: &VersionMap, number: Option<usize>) -> Option<u32>
    requires { IfSome number (λ i. i < 4294967296) }
    ensures { result ≡ option_and_then (holds map.now) number }
{
    match number {
        Some(number) => map.get(number as u32),
        None => None,
    }
}

impl MemberTables {
    /// The member of a name nearest to a class that has none itself, where the tables tell it.
    pub fn nearest_above<M: Member>(
        &self,
        parents: &[Option<ClassId>],
        members: &[M],
        class: usize,
        name: &Name,
    ) -> Option<Option<u32>>
        requires { AreMemberTables M.keys parents.now members.now self.now }
        ensures { IfSome result (λ r. (own : ℕ → Option ℕ)
            → ((k : ℕ) → position (λ m. ((M.keys m).owner == k) && has_name M.keys name.now m) members.now ≡ own k) → IsNearestBy parents.now own class r) }
    {
        if members.len() >= MANY {
            return None;
        }
        match version_above(&self.nearest, parents, class) {
            Some(map) => Some(numbered(map, name_number(members, &self.named, name))),
            None => None,
        }
    }
}
