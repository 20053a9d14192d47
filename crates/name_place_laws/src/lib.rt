//! What a tree resolves to does not depend on its places.
//!
//! Code is written only in the law, which carries what is proved of definitions alone.
#![tactic(auto)]

ghost use Rattle.name_place_laws.specs.Laws.{HasNoPlaces, HasOneProgram, HasProgramAside, NoConditionAside, NoConditionKept, PlacesAside};

/// Trees that are one, places aside, resolve to programs that are one, places aside; so whatever program a text is
/// read as, it is the one to which any tree that the text derives resolves, places aside. A condition refuses a tree
/// where one refuses it without its places, and nowhere else, and a tree without places resolves to a program without
/// places. A tree of a text that is one, places aside, with a tree that has a program has that program, places aside.
pub fn places_aside()
    ensures conditions { NoConditionAside }
    ensures conditions_kept { NoConditionKept }
    ensures trees { PlacesAside }
    ensures placeless { HasNoPlaces }
    ensures texts { HasOneProgram }
    ensures program { HasProgramAside }
{}
