//! The search for matchers that ask for what no known label set has, matcher by matcher.
//!
//! Labels that none of them has are ignored: their names are told, and nothing can be said of their
//! values.

ghost use Rattle.std.specs.Prelude.{◌≡◌, [], ◌++◌, IfOk};
ghost use Rattle.am_unseen.specs.Unseen.{seen_values, unseen_by, unseen_matchers};
ghost use Rattle.am_unseen.specs.Search.{after_matcher};

use crate::known_values::KnownValues;
use crate::seen::values_of;
use crate::silences_left::visit_silences_left;
use crate::unseen_matcher::UnseenMatcher;
use am_asked::{Visitor, visit_routes, visit_rules};
use am_complete::Origin;
use am_eval::World;
use am_labels::Matcher;
use am_list_files::Alerts;
use am_universe::LabelSet;
use std::alloc::{AllocError, Global};
use std::collections::BTreeMap;
use std::marker::Model;

/// Finds the matchers of a world that ask for a value that none of its alerts has and no alerting
/// rule fixes, though some alert or rule has the label. `rules` has the label sets that rules fix.
/// The matchers are those of the routes in preorder, then those of both sides of the inhibition
/// rules, and then those of the silences that are not over. Fails only if memory runs out.
pub(crate) fn unseen_matchers<'w>(
    alloc: Global,
    world: &'w World,
    rules: &'w [LabelSet],
) -> Result<Vec<UnseenMatcher<'w>>, AllocError>
    ensures { IfOk result (λ found. found.items ≡ unseen_matchers world.now rules.now) }
{
    let mut search = Search::among(alloc, world.alerts(), rules);
    visit_routes(alloc, &mut search, world.config())?;
    visit_rules(&mut search, world.config().rules())?;
    visit_silences_left(&mut search, world)?;
    Ok(search.into_found())
}

/// What was found in the matchers that were visited so far. The known values of a label are
/// gathered once, when a matcher first asks about it.
#[derive(Drop)]
struct Search<'w> {
    alloc: Global,
    alerts: &'w Alerts,
    rules: &'w [LabelSet],
    seen: BTreeMap<&'w str, KnownValues<'w>>,
    found: Vec<UnseenMatcher<'w>>,
}

impl<'w> Model for Search<'w> {
    ghost use Rattle.std.specs.Prelude.{◌++◌};
    ghost use Rattle.am_unseen.specs.Search as spec;
    ghost use Rattle.am_unseen.specs.SearchCode.{coded_search};

    ghost Value = { spec.Search };

    ghost coded = { coded_search };

    ghost view = { λ s. record { known = s.alerts.now ++ s.rules.now; found = s.found.items } };

    ghost invariant = { λ s. spec.AreSeen (s.alerts.now ++ s.rules.now) s.seen };
}

impl<'w> Search<'w> {
    /// Returns a search among these alerts and rules that has visited no matcher yet.
    fn among(alloc: Global, alerts: &'w Alerts, rules: &'w [LabelSet]) -> Search<'w>
        ensures { result ≡ record { known = alerts.now ++ rules.now; found = [] } }
    {
        Search {
            alloc,
            alerts,
            rules,
            seen: BTreeMap::new(alloc),
            found: Vec::new(alloc),
        }
    }

    /// Returns what a matcher asks for and is not known.
    fn unseen_by(
        &mut self,
        origin: &Origin,
        matcher: &'w Matcher,
    ) -> Result<Vec<UnseenMatcher<'w>>, AllocError>
        ensures same { self.new ≡ self.old }
        ensures unseen { IfOk result (λ found.
            found.items ≡ unseen_by self.old.known (origin.now, matcher.now)) }
    {
        let mut values = self.take_values(matcher.name())?;
        let unseen = values.unseen(self.alloc, origin, matcher)?;
        self.seen.insert(matcher.name(), values)?;
        Ok(unseen)
    }

    /// Takes out the known values of a label, which are gathered unless they were taken before.
    fn take_values(&mut self, name: &'w str) -> Result<KnownValues<'w>, AllocError>
        ensures same { self.new ≡ self.old }
        ensures values { IfOk result (λ values. values ≡ seen_values self.old.known name.now) }
    {
        if let Some(values) = self.seen.remove(name) {
            return Ok(values);
        }
        let values = values_of(self.alloc, self.alerts, self.rules, name)?;
        KnownValues::of(self.alloc, values)
    }

    /// Returns what was found.
    fn into_found(self) -> Vec<UnseenMatcher<'w>>
        ensures { result.items ≡ self.entry.found }
    {
        self.found
    }
}

impl<'w> Visitor<'w> for Search<'w> {
    ghost after = { after_matcher };

    fn visit(&mut self, origin: &Origin, matcher: &'w Matcher) -> Result<(), AllocError> {
        let mut unseen = self.unseen_by(origin, matcher)?;
        self.found.append(&mut unseen)
    }
}
