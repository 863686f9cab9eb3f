ghost use Rattle.std.specs.Prelude.{◌≡◌, ◌<◌, ◌≤◌, MatchOption};
ghost use Rattle.am_command_line.specs.declared.steps.TheConstants.{MIN_STEPS};

/// The fewest steps of a budget: one more than a universe may have labels. With that many, a page
/// gets past the choice at which it begins, so a sequence of pages comes to an end.
pub const MIN_STEPS: u64 = 65;

/// A budget of steps: the most prefixes of choices that a page may judge, at least [`MIN_STEPS`].
#[derive(Clone, Copy)]
pub struct Steps {
    count: u64,
    ghost enough: { MIN_STEPS ≤ count },
}

impl Steps {
    ghost use Rattle.am_command_line.specs.StepsView.{step_count};

    /// Makes a budget of `count` steps, or returns `None` for fewer than [`MIN_STEPS`].
    pub fn new(count: u64) -> Option<Steps>
        ensures { MatchOption result (count < MIN_STEPS) (λ steps. step_count steps ≡ count) }
    {
        if count < MIN_STEPS {
            return None;
        }
        Some(Steps { count })
    }

    /// Returns the number of steps, at least [`MIN_STEPS`].
    pub fn get(self) -> u64
        ensures count { result ≡ step_count self }
        ensures enough { MIN_STEPS ≤ result }
    {
        self.count
    }
}
