//! What holds of the definitions.
ghost use Rattle.sk_check_text.specs.Laws.{SplitsOnce, EachSplits};

/// Each input has one sketch and one part behind the mark.
pub fn splits_once()
    ensures once { SplitsOnce }
    ensures each { EachSplits }
{}
