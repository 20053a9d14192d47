//! The columns, sites and rows of facts by their numbers.

ghost use Rattle.std.specs.Prelude.{◌≡◌, ◌<◌, length};
ghost use Rattle.fact_model.specs.Items.{column_at, site_at, row_this};
ghost use Rattle.fact_model.specs.InRange.{IsCol, IsSite, IsRow};
ghost use Rattle.hier_model.specs.Hierarchies.{is_of_class};

use fact_model::{ColKind, ColumnInfo, Facts, SiteInfo};
use kaba_base::{ColId, RowId, SiteId};

/// One column.
pub fn column_at(facts: &Facts, c: ColId) -> &ColumnInfo
    requires { IsCol facts.now c }
    ensures { result.now ≡ column_at facts.now c.0 }
{
    &facts.columns[c.0 as usize]
}

/// One site.
pub fn site_at(facts: &Facts, s: SiteId) -> SiteInfo
    requires { IsSite facts.now s }
    ensures { result ≡ site_at facts.now s.0 }
{
    facts.sites[s.0 as usize]
}

/// The body whose `this` a row is.
pub fn this_of(facts: &Facts, r: RowId) -> Option<ColId>
    requires { IsRow facts.now r }
    ensures { result ≡ row_this facts.now r.0 }
{
    facts.rows[r.0 as usize].this_of
}

/// Whether only a class can have such a column: a field or a body.
pub fn is_of_class(kind: ColKind) -> bool
    ensures { result ≡ is_of_class kind }
{
    matches!(kind, ColKind::Fld | ColKind::Def)
}
