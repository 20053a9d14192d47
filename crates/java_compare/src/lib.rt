//! Whether two syntax trees are equal, places aside, and how large one is.
#![tactic(auto)]

/// The sum of what is counted in each of a list.
macro_rules! sum {
    ($list:expr, $count:ident) => {{
        let mut all = 0;
        for one in $list {
            all += $count(one);
        }
        all
    }};
}

/// What is counted in a part that may be left out.
macro_rules! count_if {
    ($part:ident, $count:ident) => {
        match $part {
            None => 0,
            Some(one) => $count(one),
        }
    };
}

/// Whether two lists are equally long, and equal at each place.
macro_rules! all_equal {
    ($a:ident, $b:ident, $equal:ident) => {{
        if $a.len() != $b.len() {
            return false;
        }
        for i in 0..$a.len() {
            if !$equal(&$a[i], &$b[i]) {
                return false;
            }
        }
        true
    }};
}

/// Whether both are left out, or both are there and equal.
macro_rules! may_equal {
    ($a:ident, $b:ident, $equal:ident) => {
        match $a {
            None => match $b {
                None => true,
                Some(_) => false,
            },
            Some(one) => match $b {
                None => false,
                Some(other) => $equal(one, other),
            },
        }
    };
}

/// Whether the other tree has this form too, with equal parts.
macro_rules! same_form {
    ($other:ident, $form:pat => $equal:expr) => {
        match $other {
            $form => $equal,
            _ => false,
        }
    };
}

/// Whether two trees have the same of these forms, with each of the parts that are named equal.
macro_rules! same_forms {
    ($a:ident, $b:ident; $($form:path { $first:ident $one:ident $equal:ident $(, $field:ident $other:ident $by:ident)* })*) => {
        match $a {
            $($form { $first, $($field,)* .. } =>
                same_form!($b, $form { $first: $one, $($field: $other,)* .. } => $equal($first, $one) $(&& $by($field, $other))*),)*
        }
    };
}

ghost use Rattle.java_compare.specs.Laws.{OneComparison};

mod compare;
mod compare_bodies;
mod measure;
mod pairs;

pub use compare::same;
pub use measure::size;

/// The contract of `same` has one result: two answers that meet it for the same trees are equal.
pub fn one_answer()
    ensures value { OneComparison }
{}
