// What came of the piece that the input begins with, by how it was read and how its walk ended, whatever says what was refused.
ghost use Rattle.std.specs.Prelude.{◌≡◌};
ghost use Rattle.walk_all.specs.views.FirstPiece.{has_arity, used_by, first_made};

use crate::First;
use piece::Prefix;
use walk::Walk;

// Whether a piece was read that has so many arguments. Not where it was refused.
pub fn has_arity<E: Copy>(prefix: Result<Prefix, E>, arity: u8) -> bool
    ensures { result ≡ has_arity prefix arity }
{
    match prefix {
        Ok(piece) => piece.arity == arity,
        Err(_) => false,
    }
}

// The place from which on the cells of a piece are empty. Not one within its last argument.
pub fn used_by<E: Copy>(prefix: Result<Prefix, E>) -> usize
    ensures { result ≡ used_by prefix }
{
    match prefix {
        Ok(piece) => 85 * (piece.arity as usize),
        Err(_) => 680,
    }
}

// What came of a piece. Not a refusal of its walk where the piece itself could not be read.
pub fn first_of<E: Copy>(prefix: Result<Prefix, E>, walk: Result<Walk, E>) -> Result<First<E>, E>
    ensures { result ≡ first_made prefix walk }
{
    let piece = prefix?;
    Ok(First {
        bytes: piece.bytes,
        walk,
    })
}
