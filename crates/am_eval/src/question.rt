//! Questions, as they are kept in memory.

ghost use Rattle.std.specs.Prelude.{◌≡◌};
ghost use Rattle.am_eval.specs.QuestionView.{question_view};
ghost use Rattle.am_eval.specs.Tree.{Part};
ghost use Rattle.am_eval.specs.Question as spec;
ghost use Rattle.am_eval.specs.declared.reach.Reach.TheVariants.{Ends, Enters};

use crate::property::Property;
use crate::reach::Reach;
use am_config::Path;
use am_labels::Matchers;

/// A question about the label set of an alert.
#[derive(Drop)]
pub enum Question {
    /// True of every alert.
    Any,
    /// Some silence hides the alert.
    Silenced,
    /// Some firing alert inhibits the alert, by a rule.
    Inhibited,
    /// The alert ends at a route that has the receiver at this position.
    Receiver(usize),
    /// The alert ends at the route at this path.
    Ends(Path),
    /// The alert ends at the route at this path, or at one below it.
    Enters(Path),
    /// The alert matches every matcher.
    Braces(Matchers),
    /// The question is false.
    Not(Box<Question>),
    /// Both are true.
    And(Box<Question>, Box<Question>),
    /// One of them is true, or both.
    Or(Box<Question>, Box<Question>),
}

impl Question {
    /// The question whether the alert has a property.
    pub fn property(property: Property) -> Question
        ensures property { question_view result ≡ Part (spec.Is property) }
    {
        match property {
            Property::Any => Question::Any,
            Property::Silenced => Question::Silenced,
            Property::Inhibited => Question::Inhibited,
        }
    }

    /// The question whether the alert ends at a route that has the receiver at a position.
    ///
    /// It is false if the configuration has no such receiver.
    pub fn receiver(receiver: usize) -> Question
        ensures receiver { question_view result ≡ Part (spec.Receiver receiver) }
    {
        Question::Receiver(receiver)
    }

    /// The question whether the alert reaches the route at a path, in one of the two ways.
    ///
    /// It is false if the configuration has no such route.
    pub fn route(reach: Reach, path: Path) -> Question
        ensures route { question_view result ≡ Part (spec.Route reach path) }
    {
        match reach {
            Reach::Ends => Question::ends(path),
            Reach::Enters => Question::enters(path),
        }
    }

    /// The question whether the alert ends at the route at a path, as [`Question::route`] says.
    pub fn ends(path: Path) -> Question
        ensures ends { question_view result ≡ Part (spec.Route Ends path) }
    {
        Question::Ends(path)
    }

    /// The question whether the alert ends at the route at a path, or at one below it.
    pub fn enters(path: Path) -> Question
        ensures enters { question_view result ≡ Part (spec.Route Enters path) }
    {
        Question::Enters(path)
    }
}
