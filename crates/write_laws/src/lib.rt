//! The bodies of a written program match the old ones: each name in them means what it stands for.
//!
//! The crate has definitions and lemmas alone. `specs/bodies/Known.antt` says what the outline of the written program tells of
//! the names that are written; `proofs/bodies/Sites.antt` has the site of a creation, where a method that makes objects is called.
//!
//! A program to which the written tree resolves rebuilds the old one over its hierarchy.
//!
//! Code is written only in a law. `proofs/rebuilds/Outlined.antt` says what a program has to which a tree resolves;
//! `proofs/rebuilds/Members.antt` what the types of the written tree have as members; `proofs/rebuilds/Nodes.antt` and
//! `proofs/rebuilds/Supers.antt` have the types and their order, `proofs/rebuilds/Fields.antt`, `proofs/rebuilds/Methods.antt` and
//! `proofs/rebuilds/Origins.antt` the members, `proofs/rebuilds/Makes.antt` the methods that make objects of classes with a
//! constructor, and `proofs/rebuilds/Main.antt` the method that a run begins with.
//!
//! The tree that is written of a program and a hierarchy names what is there: none of the conditions that refuse a
//! text's names holds of it.
//!
//! Code is written only in a law. `proofs/names/Conditions.antt` goes through the conditions; `proofs/names/Bodies.antt` has those
//! of a body, over what `specs/names/Stages.antt` and `specs/names/Known.antt` say of the place where it stands;
//! `proofs/names/AtNodes.antt`, `proofs/names/Separate.antt` and `proofs/names/Overloads.antt` have that the members of a type are apart.
//!
//! The tree that is written of a program and a hierarchy is one that the grammar gives, so that its text can be read again.
//!
//! Code is written only in a law. `proofs/given/Names.antt` has the names of the hierarchy, `proofs/given/Asked.antt` those of the
//! members that a body asks for, `proofs/given/Bodies.antt` the forms of a body and `proofs/given/Whole.antt` the declarations;
//! `proofs/given/Unplaced.antt` has that places do not matter.
//!
//! The program that is read from the written tree does what the old one did.
//!
//! Code is written only in the law, which puts together what the crates below prove of the written tree.
#![tactic(auto)]

ghost use Rattle.write_laws.specs.rebuilds.Laws.{TreeRebuilds};
ghost use Rattle.write_laws.specs.names.Laws.{TreeResolves};
ghost use Rattle.write_laws.specs.given.Laws.{TreeIsFormed, TreeIsGiven};
ghost use Rattle.write_laws.specs.runs.Laws.{WrittenRuns};

/// A formed program to which the tree resolves that is written of a typed program and a hierarchy that breaks
/// no obligation, rebuilds the typed one (after Streckenbach and Snelting, 2004, who write such programs). The
/// instance methods of its classes are public, and what fills in for a body gives the default of its result.
pub fn written_tree_rebuilds()
    ensures { TreeRebuilds }
{}

/// The tree that is written of a formed program and a hierarchy that breaks no obligation has none of the
/// conditions for which a text's names are refused (Java Language Specification, chapters 6 and 8): each name in it
/// is that of one thing, and each is there.
pub fn written_tree_resolves()
    ensures { TreeResolves }
{}

/// The tree that is written of a typed program and a hierarchy that breaks no obligation has the parts that the
/// grammar gives (Java Language Specification, chapters 3, 8, 14 and 15, the subset's part): names are identifiers,
/// literals are in range, and each form stands where it may. So the tokens of some text derive it: its own.
pub fn written_tree_is_given()
    ensures formed { TreeIsFormed }
    ensures given { TreeIsGiven }
{}

/// A formed program to which the tree resolves that is written of a typed program and a hierarchy that breaks no
/// obligation: it rebuilds the typed one, it is typed itself, it offers each row its columns, and it has the same
/// run for all words and every bound on the steps (after Snelting and Tip, 2000, and Streckenbach and Snelting,
/// 2004, who argue this for their tool).
pub fn written_runs()
    ensures { WrittenRuns }
{}
