// What is known of a piece, by what is known of its parts.

ghost use Rattle.std.specs.Prelude.{◌≡◌, IfOk, length};
ghost use Rattle.mc_prog.specs.Known.{Known as WhatIsKnown};
ghost use Rattle.mc_prog.specs.PieceTypes.{arguments_of, fixed_of, is_factor, more_by};
ghost use Rattle.mc_prog.specs.ExpressionTypes.{greater, greatest_nest, most_arguments};
ghost use Rattle.mc_prog.specs.DeclarationTypes.{place_of_piece, typed_by};
ghost use Rattle.mc_pieces.specs.Constructs.{around_of, construct_of};
ghost use Rattle.mc_types.specs.IsKnown.{IsKnown};

use crate::constants::is_constant;
use crate::expressions::{all_fixed, converts, greater, greatest_nest, most_arguments};
use crate::known::{is_standard_use, name_meaning};
use crate::lookup::Known;
use crate::parts::part;
use mc_pieces::piece::{Around, Construct, Piece};
use mc_prog::typing::{Said, Typed};
use mc_tree::place::Place;
use mc_word::bytes::Memory;

/// Where a piece stands: at its own first token, or at that of its first part.
pub fn place_of(typed: &[Typed], piece: &Piece) -> Place
    ensures { result ≡ place_of_piece typed.now piece.now }
{
    match piece.front {
        Some(front) => front,
        None => part(typed, piece.parts.parts.as_slice(), 0).place,
    }
}

// Whether a piece has only constants in it, by its parts.
fn fixed_of(known: Known, around: Around, fixed: bool, construct: Construct) -> bool
    ensures { (k : WhatIsKnown) → IsKnown k known.entry → result ≡ fixed_of k (around_of around) fixed (construct_of construct.entry) }
{
    match construct {
        Construct::Name(id) => is_constant(name_meaning(known, around, id)),
        Construct::Calling(id) => {
            is_standard_use(known, id) && converts(name_meaning(known, around, id)) && fixed
        }
        _ => fixed,
    }
}

// Whether a piece is a factor.
fn is_factor(construct: Construct) -> bool
    ensures { result ≡ is_factor (construct_of construct.entry) }
{
    matches!(
        construct,
        Construct::Number(_)
            | Construct::Character(_)
            | Construct::Text(_)
            | Construct::Designated
            | Construct::Calling(_)
            | Construct::Group
            | Construct::Negation
            | Construct::Bits
    )
}

// The greatest number of factors that are open at once in a piece.
fn nest_of(construct: Construct, parts: &[Typed]) -> Result<u32, Memory>
    ensures { IfOk result (λ n. n ≡ more_by (is_factor (construct_of construct.entry)) (greatest_nest parts.now)) }
{
    let nest = greatest_nest(parts);
    if is_factor(construct) {
        return nest.checked_add(1).ok_or(Memory);
    }
    Ok(nest)
}

// The greatest number of arguments of a call in a piece.
fn arguments_of(construct: Construct, parts: &[Typed]) -> Result<u32, Memory>
    ensures { IfOk result (λ n. n ≡ greater (arguments_of (length parts.now) (construct_of construct.entry)) (most_arguments parts.now)) }
{
    let own = match construct {
        Construct::Calling(_) | Construct::Statement(_) => {
            u32::try_from(parts.len()).map_err(|_| Memory)?
        }
        _ => 0,
    };
    Ok(greater(own, most_arguments(parts)))
}

/// What is known of a piece, by what is known of its parts and what is said of it; `node` is the node that it stands for.
pub fn typed_by(
    known: Known,
    parts: &[Typed],
    place: Place,
    around: Around,
    construct: Construct,
    node: u32,
    said: Said,
) -> Result<Typed, Memory>
    ensures { IfOk result (λ typed. (k : WhatIsKnown) → IsKnown k known.entry → typed ≡ typed_by k parts.now place (around_of around) (construct_of construct.entry) node said) }
{
    Ok(Typed {
        place,
        meaning: said.meaning,
        fixed: fixed_of(known, around, all_fixed(parts), construct),
        nest: nest_of(construct, parts)?,
        arguments: arguments_of(construct, parts)?,
        node,
    })
}
