//! Fields, methods and slots.
#![tactic(auto)]

ghost use Rattle.std.specs.Prelude.{◌≡◌, ℕ, Option, None, [], IfOk, OnOk, Ok, is_some, length, map};
ghost use Rattle.std.specs.declared.vec.Vec.{Vec};
ghost use Rattle.std.specs.declared.alloc.Global.{Global};
ghost use Rattle.java_tree.specs.Syntax.{head_of, member_of, members, heads, decl_of, decls};
ghost use Rattle.java_tree.specs.declared.Head.{Head};
ghost use Rattle.java_core.specs.declared.Ty.{Ty};
ghost use Rattle.name_types.specs.declared.members.Draft.{Draft};
ghost use Rattle.name_laws.specs.Answers.{GivesValue, run};
ghost use Rattle.name_types.specs.Found.{AreDeclarationsFound, members_seen, with_method, with_field, slot_of};
ghost use Rattle.name_laws.specs.Tables.{field_in, method_in};
ghost use Rattle.java_core.specs.declared.Local.{Local};
ghost use Rattle.java_core.specs.Makers.{maker_name};
ghost use Rattle.java_core.specs.Programs.{class_seen};
ghost use Rattle.name_rules.specs.Outline.{maker_head, classes_alone};
ghost use Rattle.name_laws.specs.Classes.{no_flags};
ghost use Rattle.name_types.specs.Writers.{bare_head, with_maker};
ghost use Rattle.name_laws.specs.Members.{Members, is_texts, takes_texts, is_main, add_heading, head_step, is_wrong_body, field_step, maker_step, member_step, interface_step, decl_step, implied_step, with_implied, members_of, no_members};

use crate::slots::{is_base, slotted};
use crate::writers::{declares_maker, has_writer, writers};
use java_core::{Class, Field, Local, Slot, Ty, TyBase, maker_name};
use java_tree::{Decl, Head, Member, Modifier, Param, Stmt, TypeName};
use kaba_base::{ClassId, Name, Place, made};
use name_laws::{Flags, Heading};
use name_rules::{Form, Kind, Refusal};
use name_tables::{
    Declared, Owned, Spots, Types, after, flags_of, is_text, names_type, number_at, params_of,
    result_of, type_of,
};
use std::alloc::{AllocError, Global};

/// The members so far.
#[derive(Drop)]
pub struct Draft {
    pub declared: Declared,
    pub slots: Vec<Slot>,
    /// Where the slots of each key stand.
    pub keyed_slots: Vec<Vec<usize>>,
}

/// Whether the parameters are one `String[]`.
fn takes_texts(locals: &[Local]) -> bool
    ensures { result ≡ takes_texts locals.now }
{
    match locals {
        [] => false,
        [local] => is_base(local.ty.base, TyBase::Str) & (local.ty.dim == 1),
        [_, _, ..] => false,
    }
}

/// Whether it is `static void main(String[] ..)`.
fn is_main(
    alloc: Global,
    is_static: bool,
    name: &Name,
    locals: &[Local],
    outcome: Option<Ty>,
) -> Result<bool, AllocError>
    ensures { IfOk result (λ told. told ≡ is_main is_static name.now locals.now outcome) }
{
    let main = is_text(alloc, name, "main")?;
    Ok(is_static & outcome.is_none() & main & takes_texts(locals))
}

/// Whether a class has a method of this name.
fn has_method(draft: &Draft, owner: u32, name: &Name) -> bool
    requires { AreDeclarationsFound draft.now }
    ensures { result ≡ is_some (method_in draft.now.declared.headings.items owner name.now) }
{
    draft.declared.own_methods.at(owner, name).is_some()
}

/// Whether a class has a field of this name.
fn has_field(draft: &Draft, owner: u32, name: &Name) -> bool
    requires { AreDeclarationsFound draft.now }
    ensures { result ≡ is_some (field_in draft.now.declared.fields.items owner name.now) }
{
    draft.declared.own_fields.at(owner, name).is_some()
}

/// The number of the next method.
fn next_method(draft: &Draft) -> Result<u32, Refusal>
    ensures { GivesValue (λ k. k) result (Ok (length draft.now.declared.headings.items)) }
{
    number_at(draft.declared.headings.len())
}

/// One method more.
fn add_method(alloc: Global, draft: &mut Draft, heading: Heading) -> Result<(), Refusal>
    requires found { AreDeclarationsFound draft.old }
    ensures given { GivesValue (λ _. members_seen draft.new) result (Ok (with_method (members_seen draft.old) heading)) }
    ensures found { OnOk result (AreDeclarationsFound draft.new) }
{
    let number = next_method(draft)?;
    draft
        .declared
        .own_methods
        .note(alloc, heading.owner, &heading.name, number)?;
    draft
        .declared
        .method_spots
        .note(alloc, &heading.name, number)?;
    draft.declared.headings.push(heading)?;
    Ok(())
}

/// One field more.
fn add_field(alloc: Global, draft: &mut Draft, field: Field) -> Result<(), Refusal>
    requires found { AreDeclarationsFound draft.old }
    ensures given { GivesValue (λ _. members_seen draft.new) result (Ok (with_field (members_seen draft.old) field)) }
    ensures found { OnOk result (AreDeclarationsFound draft.new) }
{
    let number = number_at(draft.declared.fields.len())?;
    draft
        .declared
        .own_fields
        .note(alloc, field.owner.0, &field.name, number)?;
    draft.declared.fields.push(field)?;
    Ok(())
}

/// The slot of a method of this name; a static method has none.
fn slot_of(
    alloc: Global,
    draft: &mut Draft,
    is_static: bool,
    name: &Name,
    locals: &[Local],
    outcome: Option<Ty>,
) -> Result<Option<u32>, Refusal>
    requires found { AreDeclarationsFound draft.old }
    ensures given { GivesValue {A = Option ℕ} {B = Option ℕ × Members} (λ k. (k, members_seen draft.new)) result
        (Ok (slot_of is_static name.now locals.now outcome (members_seen draft.old))) }
    ensures found { OnOk result (AreDeclarationsFound draft.new) }
{
    if is_static {
        return Ok(None);
    }
    let first = next_method(draft)?;
    let slot = slotted(
        alloc,
        &mut draft.slots,
        &mut draft.keyed_slots,
        name,
        locals,
        outcome,
        first,
    )?;
    Ok(Some(slot))
}

/// A method of a name, these parameters and this result, which has such modifiers.
fn add_heading(
    alloc: Global,
    owner: u32,
    draft: &mut Draft,
    flags: Flags,
    name: Name,
    locals: &[Local],
    outcome: Option<Ty>,
    place: Place,
) -> Result<(), Refusal>
    requires found { AreDeclarationsFound draft.old }
    ensures given { GivesValue (λ _. members_seen draft.new) result (Ok (add_heading (members_seen draft.old) owner
        (bare_head name place) flags locals.now outcome)) }
    ensures found { OnOk result (AreDeclarationsFound draft.new) }
{
    let is_main = made!(is_main(alloc, flags.is_static, &name, locals, outcome) => Refusal; name);
    let slot = made!(slot_of(alloc, draft, flags.is_static, &name, locals, outcome); name);
    let heading = Heading {
        owner,
        name,
        is_static: flags.is_static,
        is_private: flags.is_private,
        is_main,
        slot,
        place,
    };
    add_method(alloc, draft, heading)
}

/// One method more of a class or interface.
fn head_step(
    alloc: Global,
    known: &Types,
    owner: u32,
    draft: &mut Draft,
    head: &Head,
    flags: Flags,
) -> Result<(), Refusal>
    requires found { AreDeclarationsFound draft.old }
    ensures given { GivesValue (λ _. members_seen draft.new) result (head_step known.now owner (members_seen draft.old)
        (head_of head.now) flags) }
    ensures found { OnOk result (AreDeclarationsFound draft.new) }
{
    if has_method(draft, owner, &head.name) {
        return Err(Refusal::Twice(head.name.copy(alloc)?, head.place));
    }
    let params = params_of(alloc, known, head.params.as_slice())?;
    let outcome = result_of(alloc, known, &head.result)?;
    let name = head.name.copy(alloc)?;
    add_heading(
        alloc,
        owner,
        draft,
        flags,
        name,
        params.as_slice(),
        outcome,
        head.place,
    )
}

/// Whether the body of a method is missing or not allowed.
fn is_wrong_body(in_abstract: bool, is_abstract: bool, body: &Option<Vec<Stmt>>) -> bool
    ensures { result ≡ is_wrong_body in_abstract is_abstract (is_some body.now) }
{
    if is_abstract {
        body.is_some() | !in_abstract
    } else {
        body.is_none()
    }
}

/// One field more of a class.
fn field_step(
    alloc: Global,
    known: &Types,
    owner: u32,
    draft: &mut Draft,
    flags: Flags,
    ty: &TypeName,
    name: &Name,
    place: Place,
) -> Result<(), Refusal>
    requires found { AreDeclarationsFound draft.old }
    ensures given { GivesValue (λ _. members_seen draft.new) result (field_step known.now owner (members_seen draft.old)
        flags ty.now name.now place) }
    ensures found { OnOk result (AreDeclarationsFound draft.new) }
{
    let ty = type_of(alloc, known, ty)?;
    if names_type(alloc, known, name)? {
        return Err(Refusal::TwoKinds(name.copy(alloc)?, place));
    }
    if has_field(draft, owner, name) {
        return Err(Refusal::Twice(name.copy(alloc)?, place));
    }
    let field = Field {
        owner: ClassId(owner),
        name: name.copy(alloc)?,
        is_static: flags.is_static,
        ty,
        place,
    };
    add_field(alloc, draft, field)
}

/// One constructor more, under the name of its class, which has none yet.
fn maker_step(
    alloc: Global,
    known: &Types,
    owner: u32,
    draft: &mut Draft,
    mods: &[Modifier],
    name: &Name,
    params: &[Param],
    place: Place,
) -> Result<(), Refusal>
    requires found { AreDeclarationsFound draft.old }
    ensures given { GivesValue (λ _. members_seen draft.new) result (maker_step known.now owner (members_seen draft.old)
        mods.now name.now params.now place) }
    ensures found { OnOk result (AreDeclarationsFound draft.new) }
{
    let flags = flags_of(Kind::Maker, mods)?;
    if !known.is_named(alloc, owner, name)? {
        return Err(Refusal::Unknown(name.copy(alloc)?, place));
    }
    let own = maker_name(alloc, name)?;
    if has_method(draft, owner, &own) {
        return Err(Refusal::Overload(name.copy(alloc)?, place));
    }
    let params = params_of(alloc, known, params)?;
    add_heading(
        alloc,
        owner,
        draft,
        flags,
        own,
        params.as_slice(),
        None,
        place,
    )
}

/// One member more of a class.
fn member_step(
    alloc: Global,
    known: &Types,
    owner: u32,
    in_abstract: bool,
    draft: &mut Draft,
    member: &Member,
) -> Result<(), Refusal>
    requires found { AreDeclarationsFound draft.old }
    ensures given { GivesValue (λ _. members_seen draft.new) result (member_step known.now owner in_abstract (members_seen draft.old)
        (member_of member.now)) }
    ensures found { OnOk result (AreDeclarationsFound draft.new) }
{
    match member {
        Member::Field {
            mods,
            ty,
            name,
            place,
        } => {
            let flags = flags_of(Kind::Field, mods.as_slice())?;
            field_step(alloc, known, owner, draft, flags, ty, name, *place)
        }
        Member::Method { head, body, .. } => {
            let flags = flags_of(Kind::Method, head.mods.as_slice())?;
            if is_wrong_body(in_abstract, flags.is_abstract, body) {
                return Err(Refusal::NotInProfile(Form::Body, head.place));
            }
            head_step(alloc, known, owner, draft, head, flags)
        }
        Member::Maker {
            mods,
            name,
            params,
            place,
            ..
        } => maker_step(
            alloc,
            known,
            owner,
            draft,
            mods.as_slice(),
            name,
            params.as_slice(),
            *place,
        ),
    }
}

/// One method more of an interface.
fn interface_step(
    alloc: Global,
    known: &Types,
    owner: u32,
    draft: &mut Draft,
    head: &Head,
) -> Result<(), Refusal>
    requires found { AreDeclarationsFound draft.old }
    ensures given { GivesValue (λ _. members_seen draft.new) result (interface_step known.now owner (members_seen draft.old)
        (head_of head.now)) }
    ensures found { OnOk result (AreDeclarationsFound draft.new) }
{
    let flags = flags_of(Kind::Head, head.mods.as_slice())?;
    head_step(alloc, known, owner, draft, head, flags)
}

/// The members of a class.
fn class_members(
    alloc: Global,
    known: &Types,
    owner: u32,
    in_abstract: bool,
    draft: &mut Draft,
    list: &Vec<Member>,
) -> Result<(), Refusal>
    requires found { AreDeclarationsFound draft.old }
    ensures given { GivesValue (λ _. members_seen draft.new) result (run (member_step known.now owner in_abstract) (members_seen draft.old)
        (members list.now.items)) }
    ensures found { OnOk result (AreDeclarationsFound draft.new) }
{
    for member in list {
        member_step(alloc, known, owner, in_abstract, draft, member)?;
    }
    Ok(())
}

/// The methods of an interface.
fn interface_members(
    alloc: Global,
    known: &Types,
    owner: u32,
    draft: &mut Draft,
    list: &Vec<Head>,
) -> Result<(), Refusal>
    requires found { AreDeclarationsFound draft.old }
    ensures given { GivesValue (λ _. members_seen draft.new) result (run (interface_step known.now owner) (members_seen draft.old)
        (heads list.now.items)) }
    ensures found { OnOk result (AreDeclarationsFound draft.new) }
{
    for head in list {
        interface_step(alloc, known, owner, draft, head)?;
    }
    Ok(())
}

/// The members of one type more, and the number of the next type.
fn decl_step(
    alloc: Global,
    known: &Types,
    owner: u32,
    draft: &mut Draft,
    decl: &Decl,
) -> Result<u32, Refusal>
    requires found { AreDeclarationsFound draft.old }
    ensures given { GivesValue {A = ℕ} {B = ℕ × Members} (λ k. (k, members_seen draft.new)) result
        (decl_step known.now (owner, members_seen draft.old) (decl_of decl.now)) }
    ensures found { OnOk result (AreDeclarationsFound draft.new) }
{
    match decl {
        Decl::Class { mods, members, .. } => {
            let flags = flags_of(Kind::Class, mods.as_slice())?;
            class_members(alloc, known, owner, flags.is_abstract, draft, members)?;
        }
        Decl::Interface { heads, .. } => interface_members(alloc, known, owner, draft, heads)?,
    }
    after(owner)
}

/// The members of all types of a list, and the number of the next type.
fn all_members(
    alloc: Global,
    known: &Types,
    draft: &mut Draft,
    list: &[Decl],
) -> Result<u32, Refusal>
    requires found { AreDeclarationsFound draft.old }
    ensures given { GivesValue {A = ℕ} {B = ℕ × Members} (λ k. (k, members_seen draft.new)) result
        (run (decl_step known.now) (1, members_seen draft.old) (decls list.now)) }
    ensures found { OnOk result (AreDeclarationsFound draft.new) }
{
    let mut owner = 1;
    for decl in list {
        owner = decl_step(alloc, known, owner, draft, decl)?;
    }
    Ok(owner)
}

/// No modifiers.
fn no_flags() -> Flags
    ensures { result ≡ no_flags }
{
    Flags {
        is_public: false,
        is_protected: false,
        is_private: false,
        is_abstract: false,
        is_static: false,
        is_final: false,
    }
}

/// The constructor of a class of this name that writes none: without parameters.
fn add_implied(
    alloc: Global,
    owner: u32,
    draft: &mut Draft,
    name: &Name,
    place: Place,
) -> Result<(), Refusal>
    requires found { AreDeclarationsFound draft.old }
    ensures given { GivesValue (λ _. members_seen draft.new) result (Ok (add_heading (members_seen draft.old) owner
        (maker_head name.now [] [] place) no_flags [] None)) }
    ensures found { OnOk result (AreDeclarationsFound draft.new) }
{
    let own = maker_name(alloc, name)?;
    add_heading(alloc, owner, draft, no_flags(), own, &[], None, place)
}

/// The constructor that a class has without writing one, where `above` says that an ancestor writes one.
fn implied_step(
    alloc: Global,
    above: bool,
    owner: u32,
    draft: &mut Draft,
    decl: &Decl,
) -> Result<(), Refusal>
    requires found { AreDeclarationsFound draft.old }
    ensures given { GivesValue (λ _. members_seen draft.new) result (Ok (with_maker above owner (members_seen draft.old) (decl_of decl.now))) }
    ensures found { OnOk result (AreDeclarationsFound draft.new) }
{
    if declares_maker(decl) || !above {
        return Ok(());
    }
    match decl {
        Decl::Class { name, place, .. } => add_implied(alloc, owner, draft, name, *place),
        Decl::Interface { name, place, .. } => add_implied(alloc, owner, draft, name, *place),
    }
}

/// The constructors that classes have without writing them, behind all other members.
fn all_implied(
    alloc: Global,
    classes: &Vec<Class>,
    draft: &mut Draft,
    list: &[Decl],
) -> Result<(), Refusal>
    requires found { AreDeclarationsFound draft.old }
    requires classes { map class_seen classes.now.items ≡ (classes_alone (decls list.now)).classes }
    ensures given { GivesValue (λ _. members_seen draft.new) result
        (Ok (with_implied (decls list.now) (1, members_seen draft.old) (decls list.now)).1) }
    ensures found { OnOk result (AreDeclarationsFound draft.new) }
{
    let writers = writers(alloc, list)?;
    let mut owner = 1;
    for decl in list {
        let above = has_writer(classes, &writers, owner);
        implied_step(alloc, above, owner, draft, decl)?;
        owner = after(owner)?;
    }
    Ok(())
}

/// All members of a tree, whose classes these are.
pub fn members_of(
    alloc: Global,
    known: &Types,
    classes: &Vec<Class>,
    list: &[Decl],
) -> Result<Draft, Refusal>
    requires { map class_seen classes.now.items ≡ (classes_alone (decls list.now)).classes }
    ensures given { GivesValue {A = Draft} {B = Members} members_seen result (members_of known.now (decls list.now)) }
    ensures found { IfOk result AreDeclarationsFound }
{
    let mut draft = Draft {
        declared: Declared {
            fields: Vec::new(alloc),
            headings: Vec::new(alloc),
            own_fields: Owned::new(alloc),
            own_methods: Owned::new(alloc),
            method_spots: Spots::new(alloc),
        },
        slots: Vec::new(alloc),
        keyed_slots: Vec::new(alloc),
    };
    made!(all_members(alloc, known, &mut draft, list); draft);
    made!(all_implied(alloc, classes, &mut draft, list); draft);
    Ok(draft)
}
