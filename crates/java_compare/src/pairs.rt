//! Equality of lists, and of what may be left out, by the equality of what is in them.
#![tactic(auto)]

ghost use Rattle.std.specs.Prelude.{◌≡◌, Bool};
ghost use Rattle.std.specs.Fn.{FnReturnsAtPair};
ghost use Rattle.java_compare.specs.Same.{all_same, may_same};

/// Whether two lists are equally long and equal at each place.
#[tactic(auto, using(crate::proofs::Sameness::lists))]
pub fn equal_lists<T, F: Fn(&T, &T) -> bool>(a: &[T], b: &[T], equal: F) -> bool
    requires { F.IsAlwaysCallable equal }
    ensures value { (same : T → T → Bool) → ((x y : T) (r : Bool) → FnReturnsAtPair F.Fn equal x y r → r ≡ same x y) → result ≡ all_same same a.now b.now }
{
    all_equal!(a, b, equal)
}

/// Whether both are left out, or both are there and equal.
pub fn equal_options<T, F: Fn(&T, &T) -> bool>(a: &Option<T>, b: &Option<T>, equal: F) -> bool
    requires { F.IsAlwaysCallable equal }
    ensures value { (same : T → T → Bool) → ((x y : T) (r : Bool) → FnReturnsAtPair F.Fn equal x y r → r ≡ same x y) → result ≡ may_same same a.now b.now }
{
    may_equal!(a, b, equal)
}
