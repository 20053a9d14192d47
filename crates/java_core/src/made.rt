//! A program from its parts.
#![tactic(auto)]

ghost use Rattle.std.specs.Prelude.{◌≡◌, map, IfOk};
ghost use Rattle.java_core.specs.Plain.{class_seen};
ghost use Rattle.java_core.specs.Nearest.{superclasses};
ghost use Rattle.java_core.specs.Tables.{AreFieldTables};
ghost use Rattle.java_core.specs.Subtypes.{subtype_rows};
ghost use Rattle.java_core.specs.Programs.{IsMadeOf};

use crate::tables::{MemberTables, MethodTables, Tables};
use crate::{Class, Field, Hierarchy, Method, Program, Slot};
use kaba_base::{ClassId, MemberId};
use std::alloc::{AllocError, Global};
use std::mem::drop;

impl Program {
    /// The program of these parts; `AllocError` where memory is short.
    pub fn new(
        alloc: Global,
        classes: Vec<Class>,
        fields: Vec<Field>,
        methods: Vec<Method>,
        slots: Vec<Slot>,
        main: MemberId,
        above: Hierarchy,
        parents: Vec<Option<ClassId>>,
        field_tables: MemberTables,
    ) -> Result<Program, AllocError>
        requires above { above ≡ subtype_rows (map class_seen classes.items) }
        requires parents { parents.items ≡ superclasses classes.items }
        requires tables { AreFieldTables parents.items fields.items field_tables }
        ensures { IfOk result (λ p. IsMadeOf classes fields methods slots main p) }
    {
        match MethodTables::new(
            alloc,
            parents.as_slice(),
            methods.as_slice(),
            above.supertypes_first(),
        ) {
            Ok(method_tables) => Ok(Program {
                classes,
                fields,
                methods,
                slots,
                main,
                above,
                tables: Tables {
                    parents,
                    fields: field_tables,
                    methods: method_tables,
                },
            }),
            Err(error) => {
                drop(classes);
                drop(fields);
                drop(methods);
                drop(slots);
                drop(above);
                drop(parents);
                drop(field_tables);
                Err(error)
            }
        }
    }

    /// The types in an order in which each comes behind those that it names as its supertypes, where there is no cycle. Nothing is
    /// promised of it: what is filled in by it is tested.
    pub fn supertypes_first(&self) -> &[u32] {
        self.above.supertypes_first()
    }
}
