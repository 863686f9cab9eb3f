ghost use Rattle.std.specs.Prelude.{◌≡◌, ℕ, ◌<◌, List, Bool, length, slice_get, IsTrue, Some};
ghost use Rattle.am_universe.specs.Choice.{admits};
ghost use Rattle.am_search.specs.declared.verdict.Verdict.{Verdict};
ghost use Rattle.am_search.specs.Judge.{IsJudge};

use crate::Verdict;
use am_universe::Choice;

/// Says which choices over some labels are true, and what is known at a prefix.
pub trait Judge {
    /// How many values each label has, in declared order.
    ghost sizes: { Self → List ℕ };

    /// Whether a whole choice is true.
    ghost truth: { Self → List ℕ → Bool };

    /// What `judge` returns at a prefix.
    ghost verdict: { Self → List ℕ → Verdict };

    /// How many labels there are, at most `MAX_LABELS`.
    fn labels(&self) -> usize
        ensures labels { result ≡ length (sizes self.now) };

    /// How many values the label at `i` has, 1 to `MAX_VALUES`.
    fn size(&self, i: usize) -> usize
        requires { i < length (sizes self.now) }
        ensures size { slice_get (sizes self.now) i ≡ Some result };

    /// Returns what is known of the completions of a prefix: `Yes` means that all are true, and
    /// `No` that none is.
    ///
    /// The prefix must be one that the sizes admit. At a whole choice, which is its only
    /// completion, the verdict is never `Open`.
    fn judge(&self, prefix: &Choice) -> Verdict
        requires { IsTrue (admits (sizes self.now) prefix.now) }
        ensures verdict { result ≡ verdict self.now prefix.now };

    // The law holds for every value of the type, so a search has it without a call. In a law, a
    // type stands for what contracts can see of it, without its invariant. So a judge keeps what it
    // knows of itself in a ghost field, as `Plan` of `am_plans` does.
    ghost laws: { (judge : Self) → IsJudge (sizes judge) (truth judge) (verdict judge) };
}
