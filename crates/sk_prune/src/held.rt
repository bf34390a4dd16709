//! Values that are held while another is made.
ghost use Rattle.std.specs.Prelude.{◌≡◌, MatchResult, Ok, Err};

/// A held value beside one just made, or the error of its making. What is held is dropped here alone, so that the caller's
/// proof has no drop of a tree at the exit.
pub fn beside<A: Drop, B, E>(held: A, made: Result<B, E>) -> Result<(A, B), E>
    ensures { MatchResult made (λ b. result ≡ Ok (held, b)) (λ e. result ≡ Err e) }
{
    match made {
        Ok(b) => Ok((held, b)),
        Err(e) => Err(e),
    }
}
