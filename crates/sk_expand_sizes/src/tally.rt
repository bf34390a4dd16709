//! Numbers of steps and of records, which stop above their limits.
ghost use Rattle.std.specs.Prelude.{◌≡◌};
ghost use Rattle.sk_expand_sizes.specs.Tally.{added, begun, is_over, news_in};

/// The most steps over all obligations.
const MOST_STEPS: u32 = 262144;

/// One record more than an obligation may make.
const TOO_MANY_NEWS: u32 = 257;

/// The steps of the obligations so far, and the records of the last one, of which no more are counted than one too
/// many.
#[derive(Drop, Clone, Copy)]
pub enum Tally {
    /// There are more steps than may be.
    Over,
    Within { steps: u32, news: u32 },
}

impl Tally {
    /// Whether there are more steps than may be.
    pub fn is_over(&self) -> bool
        ensures { result ≡ is_over self.now }
    {
        match self {
            Tally::Over => true,
            Tally::Within { steps: _, news: _ } => false,
        }
    }

    /// The records of the last obligation.
    pub fn news(&self) -> u32
        ensures { result ≡ news_in self.now }
    {
        match self {
            Tally::Over => 0,
            Tally::Within { steps: _, news } => *news,
        }
    }

    /// The same steps, at the start of one more obligation.
    pub fn begun(self) -> Tally
        ensures { result ≡ begun self }
    {
        match self {
            Tally::Over => Tally::Over,
            Tally::Within { steps, news: _ } => Tally::Within { steps, news: 0 },
        }
    }

    /// With more steps and records.
    #[tactic(auto, unfolding(crate::specs::Tally::added), using(crate::proofs::Tallies::stops))]
    pub fn added(self, steps: u128, news: u128) -> Tally
        ensures { result ≡ added self steps news }
    {
        match self {
            Tally::Over => Tally::Over,
            Tally::Within {
                steps: before,
                news: made,
            } => {
                let all = (before as u128).saturating_add(steps);
                if all > MOST_STEPS as u128 {
                    return Tally::Over;
                }
                let news = (made as u128)
                    .saturating_add(news)
                    .min(TOO_MANY_NEWS as u128);
                Tally::Within {
                    steps: all as u32,
                    news: news as u32,
                }
            }
        }
    }
}
