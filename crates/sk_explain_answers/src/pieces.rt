//! What stands between signs.
ghost use Rattle.std.specs.Prelude.{◌≡◌, ◌≤◌, ◌<◌, ◌++◌, [], ◌∷◌, length, option_map, IfOk, IfSome, OnOk};
ghost use Rattle.sk_explain_answers.specs.Pieces.{front_of, back_of, pieces};

use sk_base::{List, Name};
use std::alloc::{AllocError, Global};

// How many bytes stand before the first of a sign.
#[tactic(auto, using(crate::proofs::PieceLemmas::front_within))]
fn length_before(sign: u8, bytes: &[u8]) -> usize
    ensures value { result ≡ length (front_of sign bytes.now) }
    ensures within { result ≤ length bytes.now }
{
    let mut rest = bytes;
    while let [byte, after @ ..] = rest {
        if *byte == sign {
            break;
        }
        rest = after;
    }
    bytes.len() - rest.len()
}

// What stands before the first of a sign, and what behind it, where it stands at all.
#[tactic(auto, using(crate::proofs::PieceLemmas::front_taken, crate::proofs::PieceLemmas::back_left))]
fn parts_at<'a>(sign: u8, bytes: &'a [u8]) -> (&'a [u8], Option<&'a [u8]>)
    ensures front { result.0.now ≡ front_of sign bytes.now }
    ensures back { option_map (λ back. back.now) result.1 ≡ back_of sign bytes.now }
    ensures shorter { IfSome result.1 (λ back. length back.now < length bytes.now) }
{
    let (front, behind) = bytes.split_at(length_before(sign, bytes));
    match behind.split_first() {
        None => (front, None),
        Some((_, back)) => (front, Some(back)),
    }
}

// Puts a copy of a piece behind others.
fn push_piece(alloc: Global, list: &mut List<Name>, piece: &[u8]) -> Result<(), AllocError>
    ensures { OnOk result (list.new ≡ list.old ++ piece.now ∷ []) }
{
    let piece = Name::from_slice(alloc, piece)?;
    list.push(piece)?;
    Ok(())
}

/// What stands between signs.
pub fn pieces(alloc: Global, sign: u8, bytes: &[u8]) -> Result<List<Name>, AllocError>
    ensures { IfOk result (λ list. list ≡ pieces sign bytes.now) }
{
    let mut list = List::new(alloc);
    let mut left = Some(bytes);
    while let Some(rest) = left {
        let (piece, behind) = parts_at(sign, rest);
        push_piece(alloc, &mut list, piece)?;
        left = behind;
    }
    Ok(list)
}
