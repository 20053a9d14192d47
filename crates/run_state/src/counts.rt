//! Counts as ints.

ghost use Rattle.std.specs.Prelude.{◌≡◌};
ghost use Rattle.java_meaning.specs.Values.{int_of, natural_of};

/// A length as an `int`: the same number, within the limits of strings and arrays.
#[inline(always)]
pub fn int_of(count: usize) -> i32
    ensures { result ≡ int_of count }
{
    ((count % 4_294_967_296) as u32).cast_signed()
}

/// The count or place that a number is, if it is not negative.
#[inline(always)]
pub fn natural(number: i32) -> Option<u32>
    ensures { result ≡ natural_of number }
{
    if number < 0 {
        None
    } else {
        Some(number as u32)
    }
}
