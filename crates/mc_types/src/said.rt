// What rules say of a piece, and what a place wants.

ghost use Rattle.std.specs.Prelude.{◌≡◌};
ghost use Rattle.mc_prog.specs.Said.{type_of, is_faulty, at, fine, wrong, wants, wants_type, value_by};

use crate::types::allows;
use mc_prog::program::TypeInfo;
use mc_prog::typing::{Allowed, BOOLEAN, Change, Meaning, Said, Typed};
use mc_tree::fault::{Code, Fault};
use mc_tree::place::Place;

/// A part of which nothing is known, for a fault in it.
pub const UNKNOWN: Meaning = Meaning::Unknown(Change::May);

/// A fault of this code at this place.
pub fn fault_at(code: Code, place: Place) -> Option<Fault>
    ensures { result ≡ at code place }
{
    Some(Fault { code, place })
}

/// What has this meaning, and no fault of its own.
pub fn fine(meaning: Meaning) -> Said
    ensures { result ≡ fine meaning }
{
    Said {
        meaning,
        fault: None,
    }
}

/// What has a fault of its own.
pub fn wrong(meaning: Meaning, code: Code, place: Place) -> Said
    ensures { result ≡ wrong meaning code place }
{
    Said {
        meaning,
        fault: fault_at(code, place),
    }
}

/// The type of a value or of a variable.
pub fn type_of(meaning: Meaning) -> Option<u32>
    ensures { result ≡ type_of meaning }
{
    match meaning {
        Meaning::Constant(type_of, _) | Meaning::Trap(type_of) | Meaning::Value(type_of) => Some(
            type_of,
        ),
        Meaning::Variable(variable) => Some(variable.type_of),
        Meaning::Bit(_) => Some(BOOLEAN),
        _ => None,
    }
}

/// Whether something has a fault in it already.
pub fn is_faulty(meaning: Meaning) -> bool
    ensures { result ≡ is_faulty meaning }
{
    matches!(
        meaning,
        Meaning::Nothing | Meaning::Faulty | Meaning::Unknown(_) | Meaning::NoValue
    )
}

/// The fault of a part whose type the place does not allow.
pub fn wants(types: &[TypeInfo], allowed: Allowed, code: Code, part: Typed) -> Option<Fault>
    ensures { result ≡ wants types.now allowed code part }
{
    if is_faulty(part.meaning) {
        return None;
    }
    match type_of(part.meaning) {
        Some(t) if allows(types, allowed, t) => None,
        _ => fault_at(code, part.place),
    }
}

/// The fault of a part of another type.
pub fn wants_type(types: &[TypeInfo], t: u32, code: Code, part: Typed) -> Option<Fault>
    ensures { result ≡ wants_type types.now t code part }
{
    wants(types, Allowed::Only(t), code, part)
}

/// A value of its type, of which nothing more is known.
pub fn value_by(type_of: Option<u32>) -> Meaning
    ensures { result ≡ value_by type_of }
{
    match type_of {
        Some(t) => Meaning::Value(t),
        None => Meaning::Faulty,
    }
}
