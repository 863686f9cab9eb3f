//! The label names that a world mentions, each with the origin of its first mention.

ghost use Rattle.std.specs.Prelude.{◌≡◌, [], fold, IfOk, OnOk};
ghost use Rattle.am_config.specs.RouteView.{names_of};
ghost use Rattle.am_unseen.specs.Search.{mentioned, after_mention};
ghost use Rattle.am_unseen.specs.UnseenNames.{first_mentions, mentions};
ghost use Rattle.am_unseen.specs.UnseenNames.{mentioned_at, mentioned_in_rules};

use crate::silences_left::visit_silences_left;
use am_asked::{Visitor, visit_matchers, visit_routes};
use am_complete::Origin;
use am_config::Rule;
use am_eval::World;
use am_labels::Matcher;
use indexmap::IndexSet;
use std::alloc::{AllocError, Global};
use std::marker::Model;

/// A mention of a label name.
#[derive(Drop)]
pub(crate) struct Mention<'w> {
    /// Where it stands: at a route, in a rule or in a silence.
    pub(crate) origin: Origin,
    pub(crate) name: &'w str,
}

impl<'w> Model for Mention<'w> {
    ghost use Rattle.am_unseen.specs.UnseenNames as spec;

    ghost Value = { spec.Mention };

    ghost view = { λ m. (m.origin, m.name.now) };
}

/// The names that were mentioned so far, and the first mention of each, in their order.
#[derive(Drop)]
struct Mentions<'w> {
    names: IndexSet<&'w str>,
    firsts: Vec<Mention<'w>>,
}

impl<'w> Model for Mentions<'w> {
    ghost use Rattle.am_unseen.specs.Search as spec;

    ghost Value = { spec.Mentions };

    ghost view = { λ m. record { names = spec.texts_of m.names; firsts = m.firsts.items } };
}

impl<'w> Mentions<'w> {
    /// Returns no mentions.
    fn none(alloc: Global) -> Mentions<'w>
        ensures { result ≡ record { names = []; firsts = [] } }
    {
        Mentions {
            names: IndexSet::new(alloc),
            firsts: Vec::new(alloc),
        }
    }

    /// Adds the mention of a name, unless the name was mentioned before.
    fn add(&mut self, origin: &Origin, name: &'w str) -> Result<(), AllocError>
        ensures { OnOk result (self.new ≡ mentioned self.old (origin.now, name.now)) }
    {
        if self.names.insert(name)? {
            self.firsts.push(Mention {
                origin: *origin,
                name,
            })?;
        }
        Ok(())
    }

    /// Returns the first mentions.
    fn into_firsts(self) -> Vec<Mention<'w>>
        ensures { result.items ≡ self.entry.firsts }
    {
        self.firsts
    }
}

impl<'w> Visitor<'w> for Mentions<'w> {
    ghost after = { after_mention };

    fn visit(&mut self, origin: &Origin, matcher: &'w Matcher) -> Result<(), AllocError> {
        self.add(origin, matcher.name())
    }
}

/// Returns the first mention of each label name in a world. The names are those of the matchers of
/// the routes in preorder, then those that the rules mention, and then those of the matchers of the
/// silences that are not over. Fails only if memory runs out.
pub(crate) fn first_mentions<'w>(
    alloc: Global,
    world: &'w World,
) -> Result<Vec<Mention<'w>>, AllocError>
    ensures { IfOk result (λ firsts. firsts.items ≡ first_mentions (mentions world.now)) }
{
    let mut found = Mentions::none(alloc);
    visit_routes(alloc, &mut found, world.config())?;
    add_rules(&mut found, world.config().rules())?;
    visit_silences_left(&mut found, world)?;
    Ok(found.into_firsts())
}

/// Adds the names that rules mention.
fn add_rules<'w>(found: &mut Mentions<'w>, rules: &'w [Rule]) -> Result<(), AllocError>
    ensures { OnOk result (found.new
        ≡ fold mentioned found.old (mentioned_in_rules rules.now)) }
{
    for (i, rule) in rules.iter().enumerate() {
        let origin = Origin::Rule(i);
        visit_matchers(found, &origin, rule.source())?;
        visit_matchers(found, &origin, rule.target())?;
        add_names(found, &origin, rule.equal())?;
    }
    Ok(())
}

/// Adds those of some names that are not empty, all with the same origin.
fn add_names<'w>(
    found: &mut Mentions<'w>,
    origin: &Origin,
    names: &'w [String],
) -> Result<(), AllocError>
    ensures { OnOk result (found.new
        ≡ fold mentioned found.old (mentioned_at origin.now (names_of names.now))) }
{
    for name in names {
        if !name.is_empty() {
            found.add(origin, name.as_str())?;
        }
    }
    Ok(())
}
