//! Whether a list of matchers matches each ordinary alert that has an alertname.
//!
//! Hardly any list does. So it is first tried whether a list misses one such alert, and only else a
//! universe is made.

ghost use Rattle.std.specs.Prelude.{◌≡◌, ◌≢◌, [], ◌∷◌, IsTrue, IsFalse, IfOk, IfErr};
ghost use Rattle.std.specs.List.{list_any};
ghost use Rattle.am_universe.specs.declared.kind.Kind.TheVariants as kinds;
ghost use Rattle.am_labels.specs.Matcher.{all_hold};
ghost use Rattle.am_classes.specs.declared.alphabet.Alphabet.TheVariants as alphabets;
ghost use Rattle.am_every_alert.specs.EveryAlert.{IsAlert};
ghost use Rattle.am_idle.specs.Lists.{IsRefusalForLists};
ghost use Rattle.am_idle.specs.Extent.{MatchesAll, MatchesNotAll, MissesOne};
ghost use Rattle.am_idle.specs.NamedAlerts.{HasAlertname, IsNamedAlert, named_matchers};

use crate::extent::matches_all_in;
use crate::found::found_or_used_up;
use crate::lists::universe_for_lists;
use am_classes::Alphabet;
use am_first_sets::{Budget, UsedUp};
use am_labels::{Matcher, Matchers, Op, Space};
use am_universe::{Kind, LabelSet, Universe};
use std::alloc::{AllocError, Global};

/// The label that has the name of the alerting rule.
const ALERTNAME: &str = "alertname";

/// Whether a list of matchers matches each ordinary alert that has an alertname, among those that
/// no impossible list of a space matches, and there is such an alert. This is not known if the
/// budget is used up. The space declares no label, before and after.
///
/// Fails with `Limit`, `Unproved` and `Memory` as [`universe_for_lists`] does.
pub(crate) fn matches_all_named(
    alloc: Global,
    space: &mut Space,
    matchers: &Matchers,
    budget: &mut Budget,
) -> Result<Result<bool, UsedUp>, Kind>
    requires { space.old.labels ≡ [] }
    ensures all { IfOk result (λ found. IfOk found (λ all. IsTrue all
        → MatchesAll (IsNamedAlert space.old) matchers.now)) }
    ensures not_all { IfOk result (λ found. IfOk found (λ all. IsFalse all
        → MatchesNotAll (IsNamedAlert space.old) matchers.now)) }
    ensures refused { IfErr result (λ kind. kind ≢ kinds.Memory → IsRefusalForLists
        alphabets.Ascii space.old (matchers.now ∷ named_matchers ∷ []) kind) }
    ensures labels { space.new.labels ≡ [] }
    ensures impossible { space.new.impossible ≡ space.old.impossible }
{
    if misses_example(alloc, space, matchers)? {
        return Ok(Ok(false));
    }
    let named = named_matchers(alloc)?;
    let universe = universe_for_lists(alloc, Alphabet::Ascii, space, &[matchers, &named])?;
    space.declare(universe);
    let all = matches_all_in(alloc, space, matchers, &named, budget);
    space.declare(Universe::empty(alloc));
    Ok(found_or_used_up(all)?)
}

/// Whether a list does not match the alert that is taken as an example, though no impossible list
/// matches it. Fails only if memory runs out.
fn misses_example(alloc: Global, space: &Space, matchers: &Matchers) -> Result<bool, AllocError>
    ensures { IfOk result (λ misses. IsTrue misses
        → MissesOne (IsNamedAlert space.now) matchers.now) }
{
    let example = example_alert(alloc)?;
    if matches_any_list(alloc, space.impossible(), &example)? {
        return Ok(false);
    }
    Ok(!matchers.matches(alloc, &example)?)
}

/// Returns an ordinary alert that has an alertname. Fails only if memory runs out.
fn example_alert(alloc: Global) -> Result<LabelSet, AllocError>
    ensures alert { IfOk result (IsAlert alphabets.Ascii) }
    ensures named { IfOk result HasAlertname }
{
    let mut set = LabelSet::empty(alloc);
    let name = String::from_str(alloc, ALERTNAME)?;
    set.put(name, String::from_str(alloc, "Watchdog")?)?;
    Ok(set)
}

/// Whether one of some lists of matchers matches a label set. Fails only if memory runs out.
fn matches_any_list(alloc: Global, lists: &[Matchers], set: &LabelSet) -> Result<bool, AllocError>
    ensures { IfOk result (λ any. any ≡ list_any (all_hold set.now) lists.now) }
{
    for list in lists {
        if list.matches(alloc, set)? {
            return Ok(true);
        }
    }
    Ok(false)
}

/// Returns the list of the one matcher `alertname!=""`. Fails only if memory runs out.
fn named_matchers(alloc: Global) -> Result<Matchers, AllocError>
    ensures { IfOk result (λ ms. ms ≡ named_matchers) }
{
    let name = String::from_str(alloc, ALERTNAME)?;
    match Matcher::new(alloc, name, Op::NotEqual, String::new(alloc)) {
        Ok(matcher) => Ok(Matchers::of(vec![in alloc; matcher]?)),
        Err(_) => Err(AllocError),
    }
}
