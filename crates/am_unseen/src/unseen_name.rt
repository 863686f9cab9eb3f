//! The label names that a world mentions and that are not known.

ghost use Rattle.std.specs.Prelude.{◌≡◌, IfOk};
ghost use Rattle.am_unseen.specs.UnseenNames.{is_missing, missing_among, unseen_names};
ghost use Rattle.am_unseen.specs.Search.{texts_of};

use crate::mentions::{Mention, first_mentions};
use crate::seen::names_of;
use crate::similar::SimilarTexts;
use am_complete::Origin;
use am_eval::World;
use am_universe::LabelSet;
use indexmap::IndexSet;
use std::alloc::{AllocError, Global};
use std::marker::Model;

/// A label name that is not known.
#[derive(Drop)]
pub(crate) struct UnseenName<'w> {
    /// Where it is mentioned first: at a route, in a rule or in a silence.
    pub(crate) origin: Origin,
    pub(crate) name: &'w str,
    /// The most similar known name, if one is at most `MOST_EDITS` edits away.
    pub(crate) similar: Option<&'w str>,
}

impl<'w> Model for UnseenName<'w> {
    ghost use Rattle.std.specs.Prelude.{option_map};
    ghost use Rattle.am_unseen.specs.UnseenNames as spec;

    ghost Value = { spec.UnseenName };

    ghost view = { λ u. record {
      origin = u.origin;
      name = u.name.now;
      similar = option_map (λ n. n.now) u.similar;
    } };
}

/// Finds the label names that a world mentions and that none of its alerts has and no alerting rule
/// fixes, if some alert or rule has a label. `rules` has the label sets that rules fix. Each name
/// comes once, with the origin of its first mention. Fails only if memory runs out.
pub(crate) fn unseen_names<'w>(
    alloc: Global,
    world: &'w World,
    rules: &'w [LabelSet],
) -> Result<Vec<UnseenName<'w>>, AllocError>
    ensures { IfOk result (λ found. found.items ≡ unseen_names world.now rules.now) }
{
    let names = names_of(alloc, world.alerts(), rules)?;
    let mentioned = first_mentions(alloc, world)?;
    missing_among(alloc, &names, mentioned.as_slice())
}

/// Returns those of the mentioned names that are missing among some names.
fn missing_among<'w>(
    alloc: Global,
    names: &IndexSet<&'w str>,
    mentioned: &[Mention<'w>],
) -> Result<Vec<UnseenName<'w>>, AllocError>
    ensures { IfOk result (λ found.
        found.items ≡ missing_among (texts_of names.now) mentioned.now) }
{
    let mut all_names = SimilarTexts::among(alloc, names.as_slice())?;
    let mut found = Vec::new(alloc);
    for mention in mentioned {
        if is_missing(names, mention.name) {
            let similar = all_names.most_similar(alloc, mention.name)?;
            found.push(UnseenName {
                origin: mention.origin,
                name: mention.name,
                similar,
            })?;
        }
    }
    Ok(found)
}

/// Whether there are names, and a name is none of them.
fn is_missing(names: &IndexSet<&str>, name: &str) -> bool
    ensures { result ≡ is_missing (texts_of names.now) name.now }
{
    !names.is_empty() && !names.contains(name)
}
