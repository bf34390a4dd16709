//! When people are shown that a search goes on.
ghost use Rattle.std.specs.Prelude.{◌≡◌};
ghost use Rattle.sk_explain_search.specs.Shown.{is_due, is_looked};

use sk_watch::News;

/// A search is shown after so many milliseconds.
const FIRST_SHOWN: u64 = 1_000;

/// The line is written anew after so many milliseconds.
const SHOWN_AGAIN: u64 = 100;

/// The clock is looked at once in so many conflicts.
const CONFLICTS_A_LOOK: u64 = 16;

/// Whether it is time for the line, so many milliseconds after the beginning, where it was last written at a time, or not yet: after a
/// second, and then ten times in a second at most.
pub fn is_due(written: Option<u64>, now: u64) -> bool
    ensures { result ≡ is_due written now }
{
    match written {
        None => FIRST_SHOWN <= now,
        Some(written) => SHOWN_AGAIN <= now.saturating_sub(written),
    }
}

/// Whether the clock is looked at on a piece of news, where so many conflicts were counted: at a conflict once in sixteen times.
pub fn is_looked(news: News<'_>, conflicts: u64) -> bool
    ensures { result ≡ is_looked news.entry conflicts }
{
    match news {
        News::Conflict { .. } => conflicts % CONFLICTS_A_LOOK == 0,
        News::Phase(_)
        | News::Graph { .. }
        | News::Formula { .. }
        | News::Input { .. }
        | News::Better { .. } => true,
    }
}
