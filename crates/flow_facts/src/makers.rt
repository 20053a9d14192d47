//! The names of constructors among the methods.
#![tactic(auto)]

ghost use Rattle.std.specs.Prelude.{◌≡◌};
ghost use Rattle.std.specs.Str.{encode_utf8_all};
ghost use Rattle.flow_rules.specs.Facts.{shown_name, is_marked};

use kaba_base::Name;

/// The name of a method as it is printed: that of a constructor is its class's.
pub fn shown_name(name: &Name) -> &str
    ensures value { result.now ≡ encode_utf8_all (shown_name name.now) }
{
    match name.as_str().strip_prefix('<') {
        Some(shown) => shown,
        None => name.as_str(),
    }
}

/// Whether a method of this name is a constructor.
pub fn is_marked(name: &Name) -> bool
    ensures value { result ≡ is_marked name.now }
{
    match name.as_str().strip_prefix('<') {
        Some(_) => true,
        None => false,
    }
}
