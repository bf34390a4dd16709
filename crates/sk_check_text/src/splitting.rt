//! The parts of an input.

ghost use Rattle.std.specs.Prelude.{◌≡◌, true, None, Some, MatchOption};
ghost use Rattle.sk_check_text.specs.Splitting.{Splits};
ghost use Rattle.sk_check_text.specs.Steps.{behind_feed, behind_mark, mark_at, first_mark};

/// What stands on the line between the parts.
const MARK: &[u8] = b"//%%";

/// A sketch and what stands behind the mark.
pub(crate) struct Parts<'a> {
    pub(crate) sketch: &'a [u8],
    pub(crate) behind: &'a [u8],
}

/// What stands behind the line feed with which a text begins, or nothing behind an empty one.
fn behind_feed(text: &[u8]) -> Option<&[u8]>
    ensures { MatchOption result (behind_feed text.now ≡ None) (λ behind. behind_feed text.now ≡ Some behind.now) }
{
    match text {
        [] => Some(text),
        [b'\n', behind @ ..] => Some(behind),
        _ => None,
    }
}

/// What stands behind the mark's line, where a text begins with it.
fn behind_mark(text: &[u8]) -> Option<&[u8]>
    ensures { MatchOption result (behind_mark text.now ≡ None) (λ behind. behind_mark text.now ≡ Some behind.now) }
{
    match text.strip_prefix(MARK) {
        Some(rest) => behind_feed(rest),
        None => None,
    }
}

/// The same, at the start of a line.
fn mark_at(starts: bool, text: &[u8]) -> Option<&[u8]>
    ensures { MatchOption result (mark_at starts text.now ≡ None) (λ behind. mark_at starts text.now ≡ Some behind.now) }
{
    if starts { behind_mark(text) } else { None }
}

/// How many bytes stand before the first line that is the mark, and what stands behind that line.
fn first_mark(input: &[u8]) -> Option<(usize, &[u8])>
    ensures { MatchOption result (first_mark true 0 input.now ≡ None) (λ found. first_mark true 0 input.now ≡ Some (found.0, found.1.now)) }
{
    let mut rest = input;
    let mut at: usize = 0;
    let mut starts = true;
    while let [byte, after @ ..] = rest {
        match mark_at(starts, rest) {
            Some(behind) => return Some((at, behind)),
            None => {
                starts = *byte == b'\n';
                at += 1;
                rest = after;
            }
        }
    }
    None
}

/// Divides an input at the first line that is the mark, in one pass.
pub(crate) fn split(input: &[u8]) -> Parts<'_>
    ensures { Splits input.now result.sketch.now result.behind.now }
{
    match first_mark(input) {
        Some((at, behind)) => {
            let (sketch, _) = input.split_at(at);
            Parts { sketch, behind }
        }
        None => Parts {
            sketch: input,
            behind: b"",
        },
    }
}
