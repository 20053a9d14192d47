//! Trails: claims, the rules that give them, and steps.

use kaba_base::{ColId, RowId, SiteId};

/// What a step claims.
#[derive(Clone, Copy, PartialEq, Eq)]
pub enum Claim {
    /// A site is in a flow point.
    InPoint(u32, SiteId),
    /// A site is in a cell.
    InCell(u32, SiteId),
    /// A row has a column.
    Entry(RowId, ColId),
}

/// The rule that gives a claim: an inclusion of points-to sets (P1 to P8), or a rule of the table (T1 to T11).
#[derive(Clone, Copy, PartialEq, Eq)]
pub enum WhyRule {
    /// A creation that flows into a point.
    P1,
    /// A flow from a point to another.
    P2,
    /// A read of a field or of an element.
    P3,
    /// A write of a field or of an element.
    P4,
    /// The receiver of a call into the `this` of the body that runs.
    P5,
    /// An argument into that body's parameter.
    P6,
    /// That body's result into the call.
    P7,
    /// A cast or an `instanceof`.
    P8,
    /// The access of a field.
    T1,
    /// The declaration of a method that is called.
    T2,
    /// The body that a site in the receiver of a call runs.
    T3,
    /// The body of a method, for its `this`.
    T4,
    /// The declaration of a body.
    T5,
    /// The columns of the `this` of a body.
    T6,
    /// The body that a super call runs.
    T7,
    /// The columns of the upper row of a tie.
    T8,
    /// The columns of a row, for a site in its set.
    T9,
    /// The member that another one hides.
    T10,
    /// The mark of a tested type or of an array's base.
    T11,
}

/// A step of a trail: its claim, the rule, and the numbers of the earlier steps from whose claims the rule gives it.
#[derive(Drop)]
pub struct WhyStep {
    pub claim: Claim,
    pub rule: WhyRule,
    pub from: Vec<u32>,
}

/// Steps, each from earlier ones.
#[derive(Drop)]
pub struct Trail {
    pub steps: Vec<WhyStep>,
}
