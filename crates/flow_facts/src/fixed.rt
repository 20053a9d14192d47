//! The names that are fixed for constructors: of their slots, and for the methods that make objects.

ghost use Rattle.std.specs.Prelude.{◌≡◌, ◌<◌, ◌++◌, ◌∷◌, ◌&&◌, ◌==◌, [], List, false, IfOk, OnOk, codes, length, map, string_bytes};
ghost use Rattle.std.specs.Option.{is_some, option_map};
ghost use Rattle.std.specs.List.{flat_map};
ghost use Rattle.std.specs.Str.{chars};
ghost use Rattle.java_core.specs.Makers.{maker_of};
ghost use Rattle.fact_model.specs.FreeNames.{is_taken};
ghost use Rattle.fact_model.specs.Taken.{texts};
ghost use Rattle.flow_rules.specs.Numbered.{sites_of};
ghost use Rattle.flow_rules.specs.Ordered.{when};
ghost use Rattle.flow_rules.specs.Facts as plain;
ghost use Rattle.flow_rules.specs.Facts.{an_init, fixed_names, make_of, make_seen, makers_of, makers_seen, name_for, same_fixed, text_words, wished_behind, wished_inits, wished_makes};
ghost use Rattle.flow_facts.specs.Fixed.{all_fixed, fixed_seen, for_seen, wished_make};
ghost use Rattle.flow_facts.specs.Words.{Plain, program_of, IsFormed, each};

use crate::Tried;
use fact_model::{MakeInfo, MakerNames, free_name};
use flow_rules::Site;
use indexmap::IndexSet;
use java_core::{Program, maker_of};
use kaba_base::{ClassId, Name, SiteId, put};
use std::alloc::Global;
use std::mem::drop;

/// What a name is fixed for.
#[derive(Clone, Copy)]
pub enum FixedFor {
    /// The slot of the constructor of a class.
    Init(ClassId),
    /// The class that holds the methods that make objects.
    Holder,
    /// The local of each of these methods.
    Local,
    /// The method that makes the objects of a site.
    Make(SiteId),
}

/// A name, and what it is fixed for.
#[derive(Drop)]
pub struct FixedName {
    pub of: FixedFor,
    pub name: Name,
}

/// The names that are taken, and those that are fixed so far, which are among them.
#[derive(Drop)]
pub struct Fixing {
    pub taken: IndexSet<String>,
    pub fixed: Vec<FixedName>,
}

/// Adds a name to those taken, where it is free.
fn add_taken(alloc: Global, name: &Name, taken: &mut IndexSet<String>) -> Tried<()>
    ensures { OnOk result (is_taken (texts taken.old.keys) name.now ≡ false → texts taken.new.keys ≡ texts taken.old.keys ++ name.now ∷ []) }
{
    let text = made!(String::from_str(alloc, name.as_str()));
    taken.insert_full(text)?;
    Ok(())
}

/// Fixes a name: the one that is wished, with as many underscores behind it as it needs to be free.
fn fix(alloc: Global, of: FixedFor, wished: String, fixing: &mut Fixing) -> Tried<()>
    ensures value { OnOk result ((rest : List plain.FixedName) → all_fixed fixing.new rest
        ≡ all_fixed fixing.old (record { for = for_seen of; name = chars (string_bytes wished) } ∷ rest)) }
{
    let name = made!(free_name(alloc, &fixing.taken, wished));
    made!(add_taken(alloc, &name, &mut fixing.taken); name);
    put(&mut fixing.fixed, FixedName { of, name })
}

/// Two texts, one behind the other.
fn joined(alloc: Global, first: &str, second: &str) -> Tried<String>
    ensures value { IfOk result (λ s. string_bytes s ≡ first.now ++ second.now) }
{
    let mut text = made!(String::from_str(alloc, first));
    made!(text.push_str(second); text);
    Ok(text)
}

/// Fixes the name of the slot of a class's constructor, where it has one.
fn fix_init(
    alloc: Global,
    program: &Program,
    class: ClassId,
    name: &Name,
    fixing: &mut Fixing,
) -> Tried<()>
    requires { IsFormed (program_of program.now) }
    ensures value { OnOk result ((rest : List plain.FixedName) → all_fixed fixing.new rest ≡ all_fixed fixing.old
        (when (is_some (maker_of (program_of program.now) class.0)) (record { for = an_init class.0; name = codes "init_" ++ name.now } ∷ []) ++ rest)) }
{
    if maker_of(program, class).is_some() {
        let wished = made!(joined(alloc, "init_", name.as_str()));
        return fix(alloc, FixedFor::Init(class), wished, fixing);
    }
    Ok(())
}

/// Fixes the names of the slots of the constructors, by class.
fn fix_inits(alloc: Global, program: &Program, fixing: &mut Fixing) -> Tried<()>
    requires { IsFormed (program_of program.now) }
    ensures value { OnOk result ((rest : List plain.FixedName) → all_fixed fixing.new rest ≡ all_fixed fixing.old
        (each (wished_inits (program_of program.now)) 0 (program_of program.now).classes ++ rest)) }
{
    for (c, class) in program.classes.iter().enumerate() {
        made!(fix_init(alloc, program, ClassId(c as u32), &class.name, fixing));
    }
    Ok(())
}

/// Adds the site of this number, where its class has a constructor.
fn add_site(program: &Program, number: u32, site: &Site, made: &mut Vec<SiteId>) -> Tried<()>
    requires { IsFormed (program_of program.now) }
    ensures value { OnOk result (map wished_make made.new.items
        ≡ map wished_make made.old.items ++ wished_makes (program_of program.now) number site.now) }
{
    if site.ty.dim == 0 && maker_of(program, site.ty.class).is_some() {
        return put(made, SiteId(number));
    }
    Ok(())
}

/// The sites of objects whose class has a constructor.
fn sites_made(alloc: Global, program: &Program, sites: &Vec<Site>) -> Tried<Vec<SiteId>>
    requires formed { IsFormed (program_of program.now) }
    requires few { length sites.now.items < 4294967295 }
    ensures value { IfOk result (λ v. map wished_make v.items ≡ each (wished_makes (program_of program.now)) 0 sites.now.items) }
{
    let mut made = Vec::new(alloc);
    for (i, site) in sites.iter().enumerate() {
        made!(add_site(program, i as u32, site, &mut made); made);
    }
    Ok(made)
}

/// Fixes the name of the method that makes the objects of the site of this number.
fn fix_make(alloc: Global, number: u32, fixing: &mut Fixing) -> Tried<()>
    ensures value { OnOk result ((rest : List plain.FixedName) → all_fixed fixing.new rest
        ≡ all_fixed fixing.old (wished_make (record { 0 = number }) ∷ rest)) }
{
    let text = format!(in alloc; "{number}")?;
    let wished = made!(joined(alloc, "make_", text.as_str()); text);
    fix(alloc, FixedFor::Make(SiteId(number)), wished, fixing)
}

/// Fixes the name of the holder of the methods that make objects.
fn fix_holder(alloc: Global, fixing: &mut Fixing) -> Tried<()>
    ensures value { OnOk result ((rest : List plain.FixedName) → all_fixed fixing.new rest
        ≡ all_fixed fixing.old (record { for = plain.the_holder; name = codes "Makers" } ∷ rest)) }
{
    let wished = made!(String::from_str(alloc, "Makers"));
    fix(alloc, FixedFor::Holder, wished, fixing)
}

/// Fixes the name of the local of these methods.
fn fix_local(alloc: Global, fixing: &mut Fixing) -> Tried<()>
    ensures value { OnOk result ((rest : List plain.FixedName) → all_fixed fixing.new rest
        ≡ all_fixed fixing.old (record { for = plain.the_local; name = codes "made" } ∷ rest)) }
{
    let wished = made!(String::from_str(alloc, "made"));
    fix(alloc, FixedFor::Local, wished, fixing)
}

/// Fixes the names of the methods that make the objects of these sites.
fn fix_each(alloc: Global, made: &[SiteId], fixing: &mut Fixing) -> Tried<()>
    ensures value { OnOk result ((rest : List plain.FixedName) → all_fixed fixing.new rest ≡ all_fixed fixing.old (map wished_make made.now ++ rest)) }
{
    for site in made {
        made!(fix_make(alloc, site.0, fixing));
    }
    Ok(())
}

/// Fixes the names of the methods that make the objects of these sites, and before them those of their holder and their local.
fn fix_makes(alloc: Global, made: &[SiteId], fixing: &mut Fixing) -> Tried<()>
    ensures value { OnOk result ((rest : List plain.FixedName) → all_fixed fixing.new rest
        ≡ all_fixed fixing.old (wished_behind (map wished_make made.now) ++ rest)) }
{
    if made.is_empty() {
        return Ok(());
    }
    made!(fix_holder(alloc, fixing));
    made!(fix_local(alloc, fixing));
    fix_each(alloc, made, fixing)
}

/// The names that are fixed for constructors, in their order. The words of the text are taken.
pub fn fixed_names(
    alloc: Global,
    program: &Program,
    sites: &Vec<Site>,
    taken: IndexSet<String>,
) -> Tried<Vec<FixedName>>
    requires formed { IsFormed (program_of program.now) }
    requires sites { sites.now.items ≡ sites_of (program_of program.now) }
    requires few { length sites.now.items < 4294967295 }
    requires taken { texts taken.keys ≡ text_words (program_of program.now) }
    ensures value { IfOk result (λ v. map fixed_seen v.items ≡ fixed_names (program_of program.now)) }
{
    let fixed = Vec::new(alloc);
    let mut fixing = Fixing { taken, fixed };
    made!(fix_inits(alloc, program, &mut fixing); fixing);
    let made = made!(sites_made(alloc, program, sites); fixing);
    made!(fix_makes(alloc, made.as_slice(), &mut fixing); fixing, made);
    Ok(fixing.fixed)
}

/// Whether two names are fixed for the same.
fn same_fixed(one: FixedFor, other: FixedFor) -> bool
    ensures value { result ≡ same_fixed (for_seen one) (for_seen other) }
{
    match one {
        FixedFor::Init(class) => match other {
            FixedFor::Init(wanted) => class.0 == wanted.0,
            _ => false,
        },
        FixedFor::Holder => matches!(other, FixedFor::Holder),
        FixedFor::Local => matches!(other, FixedFor::Local),
        FixedFor::Make(site) => match other {
            FixedFor::Make(wanted) => site.0 == wanted.0,
            _ => false,
        },
    }
}

/// The name that is fixed for something, where one is.
pub fn name_for(fixed: &[FixedName], of: FixedFor) -> Option<&Name>
    ensures value { option_map (λ x. x.now) result ≡ name_for (for_seen of) (map fixed_seen fixed.now) }
{
    for one in fixed {
        if same_fixed(of, one.of) {
            return Some(&one.name);
        }
    }
    None
}

/// The names of the holder and of the local of the methods that make objects, where they are fixed.
pub fn makers_of(alloc: Global, fixed: &[FixedName]) -> Tried<Option<MakerNames>>
    ensures value { (P : Plain) → map fixed_seen fixed.now ≡ fixed_names P → IfOk result (λ o. option_map makers_seen o ≡ makers_of P) }
{
    let Some(holder) = name_for(fixed, FixedFor::Holder) else {
        return Ok(None);
    };
    let Some(local) = name_for(fixed, FixedFor::Local) else {
        return Ok(None);
    };
    let holder = made!(holder.copy(alloc));
    let local = made!(local.copy(alloc); holder);
    Ok(Some(MakerNames { holder, local }))
}

/// Adds the site that a name is fixed for with the name, where it is fixed for one.
fn add_make(alloc: Global, one: &FixedName, makes: &mut Vec<MakeInfo>) -> Tried<()>
    ensures value { OnOk result (map make_seen makes.new.items ≡ map make_seen makes.old.items ++ make_of (fixed_seen one.now)) }
{
    if let FixedFor::Make(site) = one.of {
        let name = made!(one.name.copy(alloc));
        return put(makes, MakeInfo { site, name });
    }
    Ok(())
}

/// The names of the methods that make objects, by site.
pub fn makes_of(alloc: Global, fixed: &[FixedName]) -> Tried<Vec<MakeInfo>>
    ensures value { IfOk result (λ v. map make_seen v.items ≡ flat_map make_of (map fixed_seen fixed.now)) }
{
    let mut makes = Vec::new(alloc);
    for one in fixed {
        made!(add_make(alloc, one, &mut makes); makes);
    }
    Ok(makes)
}
