//! Numbers as words spell them, and words that hold signs between parts.
ghost use Rattle.std.specs.Prelude.{◌≡◌, ◌≤◌, ◌<◌, length, option_map, IfSome};
ghost use Rattle.std.specs.List.{list_all};
ghost use Rattle.sk_explain_notes.specs.Numbers.{is_digit, number_from, is_number, number_of, are_numbers, front_of, back_of};

fn is_digit(byte: u8) -> bool
    ensures { result ≡ is_digit byte }
{
    b'0' <= byte && byte <= b'9'
}

fn are_digits(word: &[u8]) -> bool
    ensures { result ≡ list_all is_digit word.now }
{
    let mut rest = word;
    while let [byte, after @ ..] = rest {
        if !is_digit(*byte) {
            return false;
        }
        rest = after;
    }
    true
}

// Whether a word is 1 to 10 digits.
fn is_number(word: &[u8]) -> bool
    ensures { result ≡ is_number word.now }
{
    1 <= word.len() && word.len() <= 10 && are_digits(word)
}

// The number of these bytes, each taken as a digit.
#[tactic(auto, using(crate::proofs::NumberLemmas::power_within))]
fn number_from(digits: &[u8]) -> u64
    requires { length digits.now ≤ 10 }
    ensures { result ≡ number_from 0 digits.now }
{
    let mut number: u64 = 0;
    for byte in digits {
        number = 10 * number + u64::from(byte.saturating_sub(48));
    }
    number
}

/// The number that a word spells: 1 to 10 digits.
pub fn number_of(word: &[u8]) -> Option<u64>
    ensures { result ≡ number_of word.now }
{
    if is_number(word) {
        Some(number_from(word))
    } else {
        None
    }
}

// How many bytes of a word stand before the first of a sign.
#[tactic(auto, using(crate::proofs::NumberLemmas::front_within))]
fn length_before(sign: u8, word: &[u8]) -> usize
    ensures value { result ≡ length (front_of sign word.now) }
    ensures within { result ≤ length word.now }
{
    let mut rest = word;
    while let [byte, after @ ..] = rest {
        if *byte == sign {
            break;
        }
        rest = after;
    }
    word.len() - rest.len()
}

/// What stands in a word before the first of a sign, and what behind it, where it stands at all.
#[tactic(auto, using(crate::proofs::NumberLemmas::front_taken, crate::proofs::NumberLemmas::back_left))]
pub fn parts_at<'a>(sign: u8, word: &'a [u8]) -> (&'a [u8], Option<&'a [u8]>)
    ensures front { result.0.now ≡ front_of sign word.now }
    ensures back { option_map (λ back. back.now) result.1 ≡ back_of sign word.now }
    ensures shorter { IfSome result.1 (λ back. length back.now < length word.now) }
{
    let (front, behind) = word.split_at(length_before(sign, word));
    match behind.split_first() {
        None => (front, None),
        Some((_, back)) => (front, Some(back)),
    }
}

/// Whether a word spells numbers with commas between them.
#[tactic(auto, using(crate::proofs::NumberLemmas::first_piece))]
pub fn are_numbers(word: &[u8]) -> bool
    ensures { result ≡ are_numbers word.now }
{
    let mut left = Some(word);
    while let Some(rest) = left {
        let (number, behind) = parts_at(b',', rest);
        if !is_number(number) {
            return false;
        }
        left = behind;
    }
    true
}
