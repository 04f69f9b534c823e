ghost use Rattle.std.specs.Prelude.{◌≡◌};
ghost use Rattle.history.specs.ByRules.{strict_rules};

/// What a lost line may say of whether anything was performed.
#[derive(Clone, Copy, Debug, PartialEq, Eq)]
pub enum Failed {
    /// Nothing: a lost call may have been performed or not.
    Lost,
    /// That nothing was performed, at no attempt, by `"void":true`, which is trusted.
    Trusted,
}

/// How often a store performs a write.
#[derive(Clone, Copy, Debug, PartialEq, Eq)]
pub enum Writes {
    /// Once at most.
    Once,
    /// A write without a condition maybe a second time, and no third. In what is judged a second call stands
    /// for that, which takes room, so that a text has room for fewer events.
    Repeated,
}

/// The rules by which a history text is read.
#[derive(Clone, Copy, Debug, PartialEq, Eq)]
pub struct TextRules {
    /// What a lost line may say.
    pub failed: Failed,
    /// How often a write may be performed.
    pub writes: Writes,
}

impl TextRules {
    /// Returns the strict rules, by which `read` reads: lost lines say nothing, and a write is performed once at
    /// most.
    pub fn strict() -> TextRules
        ensures { result ≡ strict_rules }
    {
        TextRules {
            failed: Failed::Lost,
            writes: Writes::Once,
        }
    }
}
