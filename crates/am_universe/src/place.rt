ghost use Rattle.std.specs.Prelude.{◌≡◌};
ghost use Rattle.am_universe.specs.Place.{place_text};

/// Where a fault is.
#[derive(Clone, Copy, Debug, PartialEq, Eq)]
pub enum Place {
    /// The universe file.
    Universe,
    /// The configuration file.
    Config,
    /// The old configuration file of a comparison.
    Old,
    /// The new configuration file of a comparison.
    New,
    /// The file of silences.
    Silences,
    /// The file of firing alerts.
    Alerts,
    /// The file of alerting rules.
    Rules,
    /// The instant that is asked about.
    Instant,
    /// The question.
    Question,
    /// The label set to explain.
    Set,
    /// The token that a page starts from.
    Token,
    /// The writer.
    Output,
    /// Memory.
    Memory,
}

impl Place {
    /// The word for the place that the program prints, as `universe`.
    pub fn text(self) -> &'static str
        ensures text { result.now ≡ place_text self }
    {
        match self {
            Place::Universe => "universe",
            Place::Config => "config",
            Place::Old => "old",
            Place::New => "new",
            Place::Silences => "silences",
            Place::Alerts => "alerts",
            Place::Rules => "rules",
            Place::Instant => "instant",
            Place::Question => "question",
            Place::Set => "set",
            Place::Token => "token",
            Place::Output => "output",
            Place::Memory => "memory",
        }
    }
}
