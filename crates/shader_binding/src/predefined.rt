// The variables of a primitive that bind to no parameter.
ghost use Rattle.std.specs.Prelude.{◌≡◌};
ghost use Rattle.shader_binding.specs.Predefined.{sets_predefined as sets_of};

use fixed_math::Text;

/// Whether variables of that name set predefined variables alone, and bind to no parameter.
pub fn sets_predefined(name: &Text) -> bool
    ensures { result ≡ sets_of name.now }
{
    let name = name.as_str();
    name == "P"
        || name == "N"
        || name == "Cs"
        || name == "Os"
        || name == "s"
        || name == "t"
        || name == "st"
}
