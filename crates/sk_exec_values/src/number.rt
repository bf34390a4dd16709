//! Numbers as the values of a call spell them.
ghost use Rattle.std.specs.Prelude.{◌≡◌, ◌<◌, ◌≤◌, nat_lt, IfSome, if◌then◌else◌};
ghost use Rattle.std.specs.List.{list_all};
ghost use Rattle.sk_tree.specs.Shapes.{is_digit};
ghost use Rattle.sk_tree.specs.Tokens.{number_of};
ghost use Rattle.sk_opts.specs.Settings.{is_number};

#[tactic(auto, unfolding(sk_tree::specs::Shapes::is_digit))]
fn is_digit(b: u8) -> bool
    ensures { result ≡ is_digit b }
{
    b'0' <= b && b <= b'9'
}

fn are_digits(word: &[u8]) -> bool
    ensures { result ≡ list_all is_digit word.now }
{
    let mut rest = word;
    while let [b, after @ ..] = rest {
        if !is_digit(*b) {
            return false;
        }
        rest = after;
    }
    true
}

/// Whether a word is 1 to 10 digits.
pub fn is_number(word: &[u8]) -> bool
    ensures { result ≡ is_number word.now }
{
    1 <= word.len() && word.len() <= 10 && are_digits(word)
}

/// The number that the digits spell, where it is below a limit.
pub fn number_below(limit: u64, digits: &[u8]) -> Option<u64>
    requires low { 0 < limit }
    requires high { limit ≤ 4294967296 }
    ensures below { IfSome result (λ number. number < limit) }
    ensures value { result ≡ (if nat_lt (number_of digits.now) limit then Some (number_of digits.now) else None) }
{
    let mut number: u64 = 0;
    for b in digits {
        number = 10 * number + b.saturating_sub(48) as u64;
        if number >= limit {
            return None;
        }
    }
    Some(number)
}
