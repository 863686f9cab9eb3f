//! The matchers that narrow a universe.

ghost use Rattle.std.specs.Prelude.{◌≡◌, ◌<◌, length, option_and_then, slice_get, Some, IfOk};
ghost use Rattle.am_universe.specs.Universe.{IsUniverse, Label};
ghost use Rattle.am_rule_outcomes.specs.Narrowing.{kept_matcher, kept_matchers};

use am_labels::{Matcher, Matchers, Op};
use am_universe::Universe;
use std::alloc::{AllocError, Global};

/// Returns a matcher for each label that has a position in a narrowing. It asks for the text that
/// the label has there. Fails only if memory runs out.
pub(crate) fn kept_matchers(
    alloc: Global,
    universe: &Universe,
    narrowing: &[Option<usize>],
) -> Result<Matchers, AllocError>
    ensures { IfOk result (λ made. made ≡ kept_matchers universe.now narrowing.now) }
{
    let mut matchers = Vec::new(alloc);
    for i in 0..universe.len() {
        if let Some(position) = kept_position(narrowing, i) {
            matchers.push(kept_matcher(alloc, universe, i, position)?)?;
        }
    }
    Ok(Matchers::of(matchers))
}

/// The position of the one value that a label keeps, if it keeps one alone.
fn kept_position(narrowing: &[Option<usize>], i: usize) -> Option<usize>
    ensures { result ≡ option_and_then (λ kept. kept) (slice_get narrowing.now i) }
{
    match narrowing.get(i) {
        Some(kept) => *kept,
        None => None,
    }
}

/// Returns the matcher that asks for the text that a label has at a position. Absence is the empty
/// text. Fails only if memory runs out.
fn kept_matcher(
    alloc: Global,
    universe: &Universe,
    i: usize,
    position: usize,
) -> Result<Matcher, AllocError>
    requires label { i < length universe.now }
    requires universe { IsUniverse universe.now }
    ensures { IfOk result (λ made. (label : Label) → slice_get universe.now i ≡ Some label
        → made ≡ kept_matcher label position) }
{
    let name = String::from_str(alloc, universe.name(i))?;
    let text = if position < universe.size(i) {
        universe.value(i, position).unwrap_or("")
    } else {
        ""
    };
    match Matcher::new(alloc, name, Op::Equal, String::from_str(alloc, text)?) {
        Ok(matcher) => Ok(matcher),
        // Each label has a name, and `=` takes no pattern.
        Err(_) => unreachable!(),
    }
}
