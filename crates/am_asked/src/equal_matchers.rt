//! The matchers that `equal` of inhibition rules stands for.

ghost use Rattle.std.specs.Prelude.{◌≡◌, ◌≢◌, ◌++◌, ◌∷◌, [], Contains, IfOk, OnOk};
ghost use Rattle.std.specs.List.{filter};
ghost use Rattle.am_eval.specs.Pairs.{pairs_of};
ghost use Rattle.am_labels.specs.declared.op.Op.TheVariants.{Equal};
ghost use Rattle.am_complete.specs.declared.origin.Origin.TheVariants as origin_is;
ghost use Rattle.am_asked.specs.Placed.{placed_at, placed_in_equal, placed_by_pair, is_named};

use am_complete::Origin;
use am_eval::{Pair, World};
use am_labels::{Matcher, Op};
use std::alloc::{AllocError, Global};
use std::marker::Model;

/// A matcher that `equal` of an inhibition rule stands for: a label has the value that it has in a
/// firing alert.
#[derive(Drop)]
pub struct EqualMatcher {
    rule: usize,
    matcher: Matcher,
}

impl Model for EqualMatcher {
    ghost use Rattle.am_labels.specs.Matcher.{Matcher};
    ghost use Rattle.am_complete.specs.declared.origin.Origin.{Origin};
    ghost use Rattle.am_complete.specs.declared.origin.Origin.TheVariants as origin_is;

    ghost Value = { Origin × Matcher };

    ghost view = { λ m. (origin_is.Rule m.rule, m.matcher) };
}

impl EqualMatcher {
    /// The rule, as the origin of the matcher.
    pub(crate) fn origin(&self) -> Origin
        ensures { result ≡ self.now.0 }
    {
        Origin::Rule(self.rule)
    }

    /// The matcher.
    pub(crate) fn matcher(&self) -> &Matcher
        ensures { result.now ≡ self.now.1 }
    {
        &self.matcher
    }
}

/// Returns the matchers that `equal` of the rules of a world stands for. There is one for each
/// rule, each firing alert that its source side matches, and each name in `equal` that is not
/// empty. It asks for the value that the label has in the alert. Fails only if memory runs out.
pub fn equal_matchers_of(alloc: Global, world: &World) -> Result<Vec<EqualMatcher>, AllocError>
    ensures matchers { IfOk result (λ made. made.items ≡ placed_in_equal world.now) }
{
    let mut made = Vec::new(alloc);
    for pair in world.pairs() {
        add_equal_matchers(alloc, world, *pair, &mut made)?;
    }
    Ok(made)
}

/// Adds the matchers of a rule and a firing alert.
fn add_equal_matchers(
    alloc: Global,
    world: &World,
    pair: Pair,
    made: &mut Vec<EqualMatcher>,
) -> Result<(), AllocError>
    requires { Contains (pairs_of world.now.config.rules world.now.alerts) pair }
    ensures { OnOk result (made.new.items
        ≡ made.old.items ++ placed_by_pair world.now pair) }
{
    let alert = world.alerts().get(pair.alert);
    for name in world.config().rules()[pair.rule].equal() {
        let value = alert.get(name.as_str());
        add_equal_matcher(alloc, pair.rule, name.as_str(), value, made)?;
    }
    Ok(())
}

/// Adds the matcher `name = value`, unless the name is empty.
fn add_equal_matcher(
    alloc: Global,
    rule: usize,
    name: &str,
    value: &str,
    made: &mut Vec<EqualMatcher>,
) -> Result<(), AllocError>
    ensures { OnOk result (made.new.items ≡ made.old.items
        ++ placed_at (origin_is.Rule rule) (filter is_named
        (record { name = name.now; op = Equal; value = value.now } ∷ []))) }
{
    if name.is_empty() {
        return Ok(());
    }
    made.push(equal_matcher(alloc, rule, name, value)?)?;
    Ok(())
}

/// The matcher `name = value`.
fn equal_matcher(
    alloc: Global,
    rule: usize,
    name: &str,
    value: &str,
) -> Result<EqualMatcher, AllocError>
    requires { name.now ≢ [] }
    ensures { IfOk result (λ made. made
        ≡ (origin_is.Rule rule, record { name = name.now; op = Equal; value = value.now })) }
{
    let name = String::from_str(alloc, name)?;
    let value = String::from_str(alloc, value)?;
    match Matcher::new(alloc, name, Op::Equal, value) {
        Ok(matcher) => Ok(EqualMatcher { rule, matcher }),
        Err(_) => unreachable!(),
    }
}
