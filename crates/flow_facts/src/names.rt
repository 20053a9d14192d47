//! The classes, and the names of the text.

ghost use Rattle.std.specs.Prelude.{◌≡◌, ℕ, ◌<◌, Bool, List, cond, ◌++◌, ◌∷◌, [], ◌&&◌, ◌||◌, ◌==◌, false, not, IfOk, OnOk, length, get_or, map, drop, string_bytes};
ghost use Rattle.indexmap.specs.IndexSet.{insert_key};
ghost use Rattle.std.specs.List.{flat_map, list_any};
ghost use Rattle.std.specs.Str.{bytes_eq, encode_utf8_all};
ghost use Rattle.java_core.specs.Programs.{class_seen as plain_class, local_seen};
ghost use Rattle.fact_model.specs.Taken.{texts};
ghost use Rattle.flow_rules.specs.Numbered.{sites_of};
ghost use Rattle.flow_rules.specs.Ordered.{once_after};
ghost use Rattle.flow_rules.specs.Facts.{class_seen, class_facts, is_holder, all_names, all_variables, all_words, fixed_names, maker_names, method_names, text_words, variable_names};
ghost use Rattle.flow_facts.specs.Fixed.{fixed_seen};
ghost use Rattle.flow_facts.specs.Holders.{AreStaticHolders};
ghost use Rattle.flow_facts.specs.Words.{Plain, program_of, method_seen, IsFormed, each};

use crate::Tried;
use crate::fixed::{FixedName, fixed_names};
use crate::makers::is_marked;
use fact_model::ClassInfo;
use flow_rules::Site;
use indexmap::IndexSet;
use java_core::{Class, Field, Local, Method, Program};
use kaba_base::{ClassId, Name, put};
use std::alloc::Global;
use std::mem::drop;

/// Marks the class of a member, where the member is static.
fn mark(holders: &mut [bool], is_static: bool, owner: ClassId)
    ensures count { length holders.new ≡ length holders.old }
    ensures value { (c : ℕ) → c < length holders.old
        → get_or holders.new c false ≡ (get_or holders.old c false || (is_static && (owner.0 == c))) }
{
    let class = owner.0 as usize;
    if is_static {
        if class < holders.len() {
            holders[class] = true;
        }
    }
}

/// A field or a method.
trait Member {
    ghost holds: { Self → ℕ → Bool };

    /// Marks its class, where it is static.
    fn mark_class(&self, holders: &mut [bool])
        ensures count { length holders.new ≡ length holders.old }
        ensures value { (c : ℕ) → c < length holders.old → get_or holders.new c false ≡ (get_or holders.old c false || holds self.now c) };
}

impl Member for Field {
    ghost holds = { λ f c. f.is_static && (f.owner.0 == c) };

    fn mark_class(&self, holders: &mut [bool]) {
        mark(holders, self.is_static, self.owner)
    }
}

impl Member for Method {
    ghost holds = { λ m c. m.is_static && (m.owner.0 == c) };

    fn mark_class(&self, holders: &mut [bool]) {
        mark(holders, self.is_static, self.owner)
    }
}

/// Marks the classes that have one of these as a static member.
fn mark_all<T: Member>(members: &Vec<T>, holders: &mut [bool])
    ensures count { length holders.new ≡ length holders.old }
    ensures value { (c : ℕ) → c < length holders.old → get_or holders.new c false ≡ (get_or holders.old c false
        || list_any (λ m. T.holds m c) members.now.items) }
{
    for member in members {
        member.mark_class(holders);
    }
}

/// Marks the classes that have static members.
fn mark_members(program: &Program, holders: &mut [bool])
    ensures count { length holders.new ≡ length holders.old }
    ensures value { (c : ℕ) → c < length holders.old → get_or holders.new c false ≡ (get_or holders.old c false
        || is_holder (program_of program.now) c) }
{
    mark_all(&program.fields, holders);
    mark_all(&program.methods, holders);
}

/// For each class, whether it has static members.
fn holders(alloc: Global, program: &Program) -> Tried<Vec<bool>>
    ensures { IfOk result (λ v. AreStaticHolders (program_of program.now) v.items) }
{
    let mut holders = vec![in alloc; false; program.classes.len()]?;
    mark_members(program, &mut holders);
    Ok(holders)
}

/// A class. `holder` says whether it has static members.
fn class_info(alloc: Global, class: &Class, holder: bool) -> Tried<ClassInfo>
    ensures value { (P : Plain) (c : ℕ) → holder ≡ is_holder P c
        → IfOk result (λ x. class_seen x ∷ [] ≡ class_facts P c (plain_class class.now)) }
{
    let name = made!(class.name.copy(alloc));
    let faces = made!(class.faces.as_slice().to_vec(alloc); name);
    Ok(ClassInfo {
        name,
        parent: class.parent,
        faces,
        is_interface: class.is_interface,
        holder,
    })
}

/// The classes, each with whether it has static members.
fn list_classes(alloc: Global, program: &Program, holders: &[bool]) -> Tried<Vec<ClassInfo>>
    requires { AreStaticHolders (program_of program.now) holders.now }
    ensures value { IfOk result (λ v. map class_seen v.items
        ≡ each (class_facts (program_of program.now)) 0 (program_of program.now).classes) }
{
    let mut list = Vec::new(alloc);
    for (c, class) in program.classes.iter().enumerate() {
        let info = made!(class_info(alloc, class, holders[c]); list);
        made!(put(&mut list, info); list);
    }
    Ok(list)
}

/// The classes.
pub fn class_infos(alloc: Global, program: &Program) -> Tried<Vec<ClassInfo>>
    ensures value { IfOk result (λ v. map class_seen v.items
        ≡ each (class_facts (program_of program.now)) 0 (program_of program.now).classes) }
{
    let holders = made!(holders(alloc, program));
    list_classes(alloc, program, &holders)
}

/// Adds a name.
fn add_name(alloc: Global, name: &Name, names: &mut Vec<Name>) -> Tried<()>
    ensures value { OnOk result (names.new.items ≡ names.old.items ++ name.now ∷ []) }
{
    let name = made!(name.copy(alloc));
    put(names, name)
}

/// Adds the names of parameters or locals.
fn add_variables(alloc: Global, locals: &Vec<Local>, names: &mut Vec<Name>) -> Tried<()>
    ensures value { OnOk result (names.new.items ≡ names.old.items ++ map (λ v. v.name) (map local_seen locals.now.items)) }
{
    for local in locals {
        made!(add_name(alloc, &local.name, names));
    }
    Ok(())
}

/// Adds the names of the fields.
fn add_fields(alloc: Global, program: &Program, names: &mut Vec<Name>) -> Tried<()>
    ensures value { OnOk result (names.new.items ≡ names.old.items ++ map (λ f. f.name) (program_of program.now).fields) }
{
    for field in &program.fields {
        made!(add_name(alloc, &field.name, names));
    }
    Ok(())
}

/// The names of the fields, parameters and locals.
pub fn variables(alloc: Global, program: &Program) -> Tried<Vec<Name>>
    ensures value { IfOk result (λ v. v.items ≡ all_variables (program_of program.now)) }
{
    let mut names = Vec::new(alloc);
    made!(add_fields(alloc, program, &mut names); names);
    for method in &program.methods {
        made!(add_all_variables(alloc, method, &mut names); names);
    }
    Ok(names)
}

/// Adds the names of the parameters and locals of a method.
fn add_all_variables(alloc: Global, method: &Method, names: &mut Vec<Name>) -> Tried<()>
    ensures value { OnOk result (names.new.items ≡ names.old.items ++ variable_names (method_seen method.now)) }
{
    made!(add_variables(alloc, &method.params, names));
    add_variables(alloc, &method.locals, names)
}

/// Adds the names of a method with its parameters and locals, where it is no constructor.
fn add_method(alloc: Global, method: &Method, names: &mut Vec<Name>) -> Tried<()>
    ensures value { OnOk result (names.new.items ≡ names.old.items ++ method_names (method_seen method.now)) }
{
    if is_marked(&method.name) {
        return Ok(());
    }
    made!(add_name(alloc, &method.name, names));
    add_all_variables(alloc, method, names)
}

/// Adds the names of the parameters and locals of a constructor.
fn add_maker(alloc: Global, method: &Method, names: &mut Vec<Name>) -> Tried<()>
    ensures value { OnOk result (names.new.items ≡ names.old.items ++ maker_names (method_seen method.now)) }
{
    if is_marked(&method.name) {
        return add_all_variables(alloc, method, names);
    }
    Ok(())
}

/// Adds the names of the methods with their parameters and locals, but for those of constructors.
fn add_methods(alloc: Global, program: &Program, names: &mut Vec<Name>) -> Tried<()>
    ensures value { OnOk result (names.new.items ≡ names.old.items ++ flat_map method_names (program_of program.now).methods) }
{
    for method in &program.methods {
        made!(add_method(alloc, method, names));
    }
    Ok(())
}

/// Adds the names of the parameters and locals of the constructors.
fn add_makers(alloc: Global, program: &Program, names: &mut Vec<Name>) -> Tried<()>
    ensures value { OnOk result (names.new.items ≡ names.old.items ++ flat_map maker_names (program_of program.now).methods) }
{
    for method in &program.methods {
        made!(add_maker(alloc, method, names));
    }
    Ok(())
}

/// The names of the text: of the types but `Object`, of the fields, of each method with its parameters and locals, and
/// then of the parameters and locals of each constructor.
fn all_names(alloc: Global, program: &Program) -> Tried<Vec<Name>>
    ensures value { IfOk result (λ v. v.items ≡ all_names (program_of program.now)) }
{
    let mut names = Vec::new(alloc);
    made!(add_types(alloc, program, &mut names); names);
    made!(add_fields(alloc, program, &mut names); names);
    made!(add_methods(alloc, program, &mut names); names);
    made!(add_makers(alloc, program, &mut names); names);
    Ok(names)
}

/// Adds the names of the types but `Object`.
fn add_types(alloc: Global, program: &Program, names: &mut Vec<Name>) -> Tried<()>
    ensures value { OnOk result (names.new.items ≡ names.old.items ++ map (λ k. k.name) (drop 1 (program_of program.now).classes)) }
{
    if let [_, rest @ ..] = program.classes.as_slice() {
        for class in rest {
            made!(add_name(alloc, &class.name, names));
        }
    }
    Ok(())
}

/// Whether a name is new among those seen, where it then is.
fn is_new(alloc: Global, seen: &mut IndexSet<String>, name: &Name) -> Tried<bool>
    ensures added { IfOk result (λ b. b ≡ not (list_any (bytes_eq (encode_utf8_all name.now)) (map string_bytes seen.old.keys))) }
    ensures keys { IfOk result (λ b. map string_bytes seen.new.keys ≡ insert_key bytes_eq (map string_bytes seen.old.keys) (encode_utf8_all name.now)) }
    ensures names { IfOk result (λ b. texts seen.new.keys ≡ texts seen.old.keys ++ cond b (name.now ∷ []) []) }
{
    let text = made!(String::from_str(alloc, name.as_str()));
    let (_, added) = seen.insert_full(text)?;
    Ok(added)
}

/// Adds a name to the words, where it is new among those seen.
fn add_word(
    alloc: Global,
    seen: &mut IndexSet<String>,
    name: &Name,
    words: &mut Vec<Name>,
) -> Tried<()>
    ensures value { OnOk result ((rest : List (List ℕ))
        → words.new.items ++ once_after bytes_eq encode_utf8_all (map string_bytes seen.new.keys) rest
        ≡ words.old.items ++ once_after bytes_eq encode_utf8_all (map string_bytes seen.old.keys)
        (name.now ∷ rest)) }
    ensures names { OnOk result (texts seen.old.keys ≡ words.old.items → texts seen.new.keys ≡ words.new.items) }
{
    if made!(is_new(alloc, seen, name)) {
        return add_name(alloc, name, words);
    }
    Ok(())
}

/// Names, and a set of them.
#[derive(Drop)]
pub struct TextWords {
    pub list: Vec<Name>,
    pub set: IndexSet<String>,
}

/// The names of the text, each once where it first stands.
fn text_words(alloc: Global, program: &Program) -> Tried<TextWords>
    ensures value { IfOk result (λ w. w.list.items ≡ text_words (program_of program.now)) }
    ensures set { IfOk result (λ w. texts w.set.keys ≡ w.list.items) }
{
    let mut words = Vec::new(alloc);
    let mut seen = IndexSet::new(alloc);
    let names = made!(all_names(alloc, program); words, seen);
    for name in &names {
        made!(add_word(alloc, &mut seen, name, &mut words); words, seen, names);
    }
    Ok(TextWords {
        list: words,
        set: seen,
    })
}

/// Adds the names that are fixed.
fn add_fixed(alloc: Global, fixed: &[FixedName], words: &mut Vec<Name>) -> Tried<()>
    ensures value { OnOk result (words.new.items ≡ words.old.items ++ map (λ f. f.name) (map fixed_seen fixed.now)) }
{
    for one in fixed {
        made!(add_name(alloc, &one.name, words));
    }
    Ok(())
}

/// The words of a program, and the names among them that are fixed for constructors.
#[derive(Drop)]
pub struct Named {
    pub words: Vec<Name>,
    pub fixed: Vec<FixedName>,
}

/// The names of the text, each once where it first stands, and behind them those that are fixed for constructors.
pub fn words(alloc: Global, program: &Program, sites: &Vec<Site>) -> Tried<Named>
    requires formed { IsFormed (program_of program.now) }
    requires sites { sites.now.items ≡ sites_of (program_of program.now) }
    requires few { length sites.now.items < 4294967295 }
    ensures words { IfOk result (λ n. n.words.items ≡ all_words (program_of program.now)) }
    ensures fixed { IfOk result (λ n. map fixed_seen n.fixed.items ≡ fixed_names (program_of program.now)) }
{
    let named = made!(text_words(alloc, program));
    let mut words = named.list;
    let fixed = made!(fixed_names(alloc, program, sites, named.set); words);
    made!(add_fixed(alloc, fixed.as_slice(), &mut words); words, fixed);
    Ok(Named { words, fixed })
}
