//! Laws of inputs as certificates list them.
ghost use Rattle.sk_cert_inputs.specs.Laws.{ApartAreDistinct, DistinctAreApart, ListedOnce};

/// A law, with nothing to run: what a certificate lists are the inputs of one list at most, and they are distinct exactly
/// where they are listed apart.
pub fn listed_again()
    ensures once { ListedOnce }
    ensures apart { DistinctAreApart }
    ensures distinct { ApartAreDistinct }
{}
