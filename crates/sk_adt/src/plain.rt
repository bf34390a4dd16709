//! The plain form of a text with algebraic types.
ghost use Rattle.std.specs.Prelude.{◌≡◌, Ok, IfOk};
ghost use Rattle.sk_adt.specs.Words.{known_in};
ghost use Rattle.sk_adt.specs.Lowering.{plain_form, lowered_pieces, lowered, Answers};

use crate::algebraic::{AdtFault, Lowered};
use crate::branch::push_pieces;
use crate::build::built;
use crate::faults::fault_of;
use crate::form::{Known, Piece, TypeWords};
use crate::piece::pieces_of;
use crate::words::{algebraics, known_in, list_pieces};
use sk_base::List;
use sk_tree::Token;
use sk_types_names::Listed;
use std::alloc::{AllocError, Global};

/// The tokens of the plain sketch of a text with algebraic types, and these types: `lowered` says which tokens and types
/// these are, and else which fault there is. Want of memory is an answer of its own.
#[tactic(auto, unfolding(crate::specs::Lowering::lowered))]
pub fn lower(alloc: Global, tokens: &[Token]) -> Result<Lowered, AdtFault>
    ensures { Answers result (lowered tokens.now) }
{
    match pieces_of(alloc, tokens)? {
        Err(at) => Err(AdtFault::NoForm { at }),
        Ok(pieces) => lower_pieces(alloc, pieces.as_slice()),
    }
}

// The same, of the pieces of a text.
fn lower_pieces(alloc: Global, pieces: &[Piece]) -> Result<Lowered, AdtFault>
    ensures { Answers result (lowered_pieces (Ok pieces.now)) }
{
    let mut types = List::new(alloc);
    let mut switches = List::new(alloc);
    list_pieces(alloc, &mut types, &mut switches, pieces)?;
    let known = known_in(alloc, types.as_slice())?;
    match fault_of(alloc, types.as_slice(), &known, switches.as_slice())? {
        Some(fault) => Err(fault),
        None => {
            let lowered = plain_form(alloc, types.as_slice(), &known, pieces)?;
            Ok(lowered)
        }
    }
}

// The plain form of pieces that have no fault.
fn plain_form(
    alloc: Global,
    types: &[TypeWords],
    known: &Listed<Known>,
    pieces: &[Piece],
) -> Result<Lowered, AllocError>
    requires { known.now ≡ known_in types.now }
    ensures { IfOk result (λ l. l ≡ plain_form types.now pieces.now) }
{
    let mut inside = Vec::new(alloc);
    let mut branched = Vec::new(alloc);
    push_pieces(alloc, known, &mut inside, &mut branched, pieces)?;
    let tokens = List::from_vec(built(alloc, known, branched.as_slice())?);
    let types = algebraics(alloc, types)?;
    Ok(Lowered { tokens, types })
}
