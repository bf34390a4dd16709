//! Laws of fillings.
ghost use Rattle.sk_model.specs.FillingLaws.{FilledHasNoSites, FilledByWhatStands};

/// A filling has no sites.
#[tactic(auto, using(crate::proofs::Bare::filled_has_no_sites))]
pub fn filled_has_no_sites()
    ensures { FilledHasNoSites }
{}

/// A filling depends on the sites that stand alone.
#[tactic(auto, using(crate::proofs::WhatStands::filled_by_what_stands))]
pub fn filled_by_what_stands()
    ensures { FilledByWhatStands }
{}
