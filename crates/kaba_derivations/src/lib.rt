//! What a derivation is, and the laws of least closed sets: definitions and lemmas.
//!
//! A rule is a relation between a list of premises and a conclusion. A fact is derivable where
//! some list of facts ends in it, each following by a rule from ones before it. The derivable facts
//! are closed under the rules, and are in each set that is: they are the least closed set. Crates
//! above cite the lemmas `derivable_by` and `derivable_least`, over any rules; the functions here
//! state both laws as contracts, over the rules that a test accepts.
#![tactic(auto)]

ghost use Rattle.kaba_derivations.specs.Laws.{DerivableIsClosed, DerivableIsLeast};

/// What the rules conclude from derivable facts is derivable.
pub fn derivable_is_closed<T>()
    ensures { DerivableIsClosed T }
{}

/// What is derivable is in each set that is closed under the rules.
pub fn derivable_is_least<T>()
    ensures { DerivableIsLeast T }
{}
