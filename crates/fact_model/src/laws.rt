//! Laws of the facts, the points-to sets and the table that layers above rest on: contracts without a body.

ghost use Rattle.fact_model.specs.InOrder.{InOrder};
ghost use Rattle.fact_model.specs.Flowing.{AreSets};
ghost use Rattle.fact_model.specs.Entries.{IsTable};
ghost use Rattle.fact_model.specs.Closures.{AreClosedSets, IsClosedTable, AreChains};

use crate::facts::Facts;
use crate::sets::{PointsTo, Table};

/// The points-to sets are closed under the inclusions (Andersen, 1994), and the set of a row is the union over its
/// points and cells.
pub fn sets_are_closed(facts: &Facts, sets: &PointsTo)
    requires { AreSets facts.now sets.now }
    ensures { AreClosedSets facts.now sets.now }
{}

/// The table is closed under the rules T1 to T11 (Snelting and Tip, 2000).
pub fn table_is_closed(facts: &Facts, table: &Table)
    requires { IsTable facts.now table.now }
    ensures { IsClosedTable facts.now table.now }
{}

/// The classes at or above one type form a chain (Java Language Specification, 8.1.4), and above an interface there is
/// only class 0.
pub fn classes_are_chains(facts: &Facts)
    requires { InOrder facts.now }
    ensures { AreChains facts.now }
{}
