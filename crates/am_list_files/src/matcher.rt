//! The name, the text and the pattern of a matcher or a label, in any file.

ghost use Rattle.std.specs.Prelude.{◌≡◌, ◌≢◌, [], IfOk};
ghost use Rattle.serde_json.specs.View.{view};
ghost use Rattle.am_json.specs.Reading.{Gives};
ghost use Rattle.am_list_files.specs.MatcherFaults.{label_name_fault, check_matcher};
ghost use Rattle.am_list_files.specs.NamedText.{named_text_form};

use am_json::{ReadError, as_text, or_refused, refuse_for};
use am_labels::{Matcher, Op};
use am_universe::Kind;
use serde_json::Value;
use std::alloc::Global;

/// Why the name of a label is refused: `Empty` for the empty text, and `None` for any other.
///
/// It is for readers of files, which check a name before they read the parts after it.
pub fn label_name_fault(name: &str) -> Option<Kind>
    ensures fault { result ≡ label_name_fault name.now }
{
    if name.is_empty() {
        Some(Kind::Empty)
    } else {
        None
    }
}

/// Makes a matcher, and refuses a pattern at the value that is being read.
///
/// It is for readers of files. The name must not be empty. The refusals of a pattern are those of
/// [`Matcher::new`].
#[tactic(auto, using(am_json::proofs::Readings::found_gives))]
pub fn new_matcher(alloc: Global, name: &str, op: Op, value: &str) -> Result<Matcher, ReadError>
    requires named { name.now ≢ [] }
    ensures reading { Gives (λ m. m) result
        (check_matcher (record { name = name.now; op = op; value = value.now })) }
{
    let name = String::from_str(alloc, name)?;
    let value = String::from_str(alloc, value)?;
    or_refused(alloc, Matcher::new(alloc, name, op, value))
}

/// Reads the text that belongs to a name, in an object of names and texts.
///
/// It is for readers of files. Refuses the value that is being read: with `Empty` if the name is
/// empty, and else with `Shape` if the value is not a string.
#[tactic(auto, unfolding(crate::specs::NamedText::named_text_form))]
pub fn read_named_text<'v>(
    alloc: Global,
    name: &str,
    value: &'v Value,
) -> Result<&'v str, ReadError>
    ensures reading { Gives (λ t. t.now) result (named_text_form name.now (view value.now)) }
    ensures named { IfOk result (λ _. name.now ≢ []) }
{
    refuse_for(alloc, label_name_fault(name))?;
    as_text(alloc, value)
}
