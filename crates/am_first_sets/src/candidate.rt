ghost use Rattle.std.specs.Prelude.{◌≡◌, None, IsTrue, not, ◌&&◌};

use am_judged_lists::Cube;
use am_universe::Choice;

/// A literal: the cube of a list of matchers, which a label set has to match or must not match.
///
/// `named` says whether the literal is named as one of those that are to blame. The caller
/// recognizes the literal by its `tag`.
#[derive(Clone, Copy)]
pub struct Candidate<'a> {
    pub cube: &'a Cube,
    /// Whether the label set has to match; if not, it must not match.
    pub wanted: bool,
    pub named: bool,
    pub tag: usize,
}

impl<'a> Candidate<'a> {
    ghost use Rattle.am_first_sets.specs.Literals.{holds_at};

    /// Whether the literal is true at a choice.
    #[tactic(auto, using(crate::proofs::CubeTruth::matches_is))]
    pub fn holds(&self, choice: &Choice) -> bool
        ensures { result ≡ holds_at choice.now self.now }
    {
        self.cube.must(choice) == self.wanted
    }

    /// Whether the literal is named, and asks for no match.
    pub(crate) fn asks_for_no_match(&self) -> bool
        ensures { result ≡ (self.now.named && not self.now.wanted) }
    {
        self.named && !self.wanted
    }

    /// How many labels the literal asks about.
    pub(crate) fn labels(&self) -> usize {
        self.cube.mask_count()
    }

    /// Whether the literal asks about this number of labels. `None` stands for any number.
    pub(crate) fn asks_about(&self, labels: Option<usize>) -> bool
        ensures { labels ≡ None → IsTrue result }
    {
        match labels {
            Some(labels) => self.labels() == labels,
            None => true,
        }
    }
}
