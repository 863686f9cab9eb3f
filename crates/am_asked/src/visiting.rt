//! Visiting matchers, each with its origin.

ghost use Rattle.std.specs.Prelude.{◌≡◌, fold, OnOk};
ghost use Rattle.am_labels.specs.Matcher.{Matcher};
ghost use Rattle.am_config.specs.ConfigView.{config_view};
ghost use Rattle.am_complete.specs.declared.origin.Origin.{Origin};
ghost use Rattle.am_complete.specs.AskedLabel.{with_asked};
ghost use Rattle.am_asked.specs.Placed.{placed_at, placed_in_routes, placed_in_rules};
ghost use Rattle.am_asked.specs.Placed.{placed_in_lists};

use am_complete::{Gathering, Origin};
use am_config::{Config, Rule};
use am_labels::{Matcher, Matchers};
use std::alloc::{AllocError, Global};

/// Takes matchers one after another.
pub trait Visitor<'m> {
    /// The visitor after a matcher with this origin.
    ghost after: { Self → Origin × Matcher → Self };

    /// Takes a matcher with this origin. Fails only if memory runs out.
    fn visit(&mut self, origin: &Origin, matcher: &'m Matcher) -> Result<(), AllocError>
        ensures visit { OnOk result (self.new ≡ after self.old (origin.now, matcher.now)) };
}

impl<'m> Visitor<'m> for Gathering<'m> {
    ghost after = { with_asked };

    fn visit(&mut self, origin: &Origin, matcher: &'m Matcher) -> Result<(), AllocError> {
        self.add(origin, matcher)
    }
}

/// Visits the matchers of a list in their order, all with the same origin. Fails only if memory
/// runs out.
pub fn visit_matchers<'m, V: Visitor<'m>>(
    visitor: &mut V,
    origin: &Origin,
    matchers: &'m Matchers,
) -> Result<(), AllocError>
    ensures visit { OnOk result (visitor.new
        ≡ fold V.after visitor.old (placed_at origin.now matchers.now)) }
{
    for i in 0..matchers.len() {
        visitor.visit(origin, matchers.get(i))?;
    }
    Ok(())
}

/// Visits the matchers of all routes of a configuration, in preorder. Fails only if memory runs
/// out.
pub fn visit_routes<'m, V: Visitor<'m>>(
    alloc: Global,
    visitor: &mut V,
    config: &'m Config,
) -> Result<(), AllocError>
    ensures visit { OnOk result (visitor.new
        ≡ fold V.after visitor.old (placed_in_routes (config_view config.now))) }
{
    let listed = config.routes(alloc)?;
    for i in 0..listed.paths.len() {
        let origin = Origin::Route(listed.paths[i]);
        visit_matchers(visitor, &origin, listed.routes[i].matchers())?;
    }
    Ok(())
}

/// Visits the matchers of inhibition rules, for each rule those of the source side first. Fails
/// only if memory runs out.
pub fn visit_rules<'m, V: Visitor<'m>>(visitor: &mut V, rules: &'m [Rule]) -> Result<(), AllocError>
    ensures visit { OnOk result (visitor.new
        ≡ fold V.after visitor.old (placed_in_rules rules.now)) }
{
    for (i, rule) in rules.iter().enumerate() {
        visit_matchers(visitor, &Origin::Rule(i), rule.source())?;
        visit_matchers(visitor, &Origin::Rule(i), rule.target())?;
    }
    Ok(())
}

/// Visits the matchers of impossible lists, list by list. Fails only if memory runs out.
pub fn visit_lists<'m, V: Visitor<'m>>(
    visitor: &mut V,
    lists: &'m [Matchers],
) -> Result<(), AllocError>
    ensures visit { OnOk result (visitor.new
        ≡ fold V.after visitor.old (placed_in_lists lists.now)) }
{
    for (i, list) in lists.iter().enumerate() {
        visit_matchers(visitor, &Origin::Impossible(i), list)?;
    }
    Ok(())
}
