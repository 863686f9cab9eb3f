//! Two questions about a verdict.
//!
//! A walk answers one of them instead of returning a verdict. The answers are truth values, so
//! `&&`, `||` and `any` join them and stop at the first part that decides. `not` exchanges the two
//! questions, so one function, with one proof, answers both.

ghost use Rattle.std.specs.Prelude.{◌≡◌, not};
ghost use Rattle.am_judged_lists.specs.Certainty.{passes, other};
ghost use Rattle.am_judged_lists.specs.Cube.{verdict_at};

use crate::cube::Cube;
use am_search::Verdict;
use am_universe::Choice;

/// A question about a verdict. A verdict passes if the answer is yes.
#[derive(Clone, Copy)]
pub enum Certainty {
    /// Whether it is not `No`.
    May,
    /// Whether it is `Yes`.
    Must,
}

impl Certainty {
    /// The other question. The opposite of a verdict passes it exactly if the verdict does not pass
    /// this one.
    pub fn other(self) -> Certainty
        ensures other { result ≡ other self }
    {
        match self {
            Certainty::May => Certainty::Must,
            Certainty::Must => Certainty::May,
        }
    }

    /// Whether a verdict passes.
    pub fn allows(self, verdict: Verdict) -> bool
        ensures passes { result ≡ passes self verdict }
    {
        match self {
            Certainty::May => verdict != Verdict::No,
            Certainty::Must => verdict == Verdict::Yes,
        }
    }

    /// Whether the verdict of a cube passes at a prefix.
    #[inline(always)]
    pub fn holds(self, cube: &Cube, prefix: &Choice) -> bool
        ensures verdict { result ≡ passes self (verdict_at cube.now prefix.now) }
    {
        match self {
            Certainty::May => cube.may(prefix),
            Certainty::Must => cube.must(prefix),
        }
    }

    /// Whether the opposite of the verdict of a cube passes at a prefix.
    pub fn fails(self, cube: &Cube, prefix: &Choice) -> bool
        ensures verdict { result ≡ not (passes (other self) (verdict_at cube.now prefix.now)) }
    {
        !self.other().holds(cube, prefix)
    }
}
