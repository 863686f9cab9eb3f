//! Which matchers name a text.

ghost use Rattle.std.specs.Prelude.{◌≡◌, ◌∷◌, [], ℕ, List, IfOk, OnOk, map};
ghost use Rattle.am_classes.specs.LabelTests.{named_places, noted, with_place};
ghost use Rattle.am_classes.specs.Named.{named_by};
ghost use Rattle.am_classes.specs.Truths.{naming};

use crate::named_texts::named_by;
use am_labels::Matcher;
use std::alloc::{AllocError, Global};
use std::collections::HashMap;

/// Returns the places of the matchers that name a text, for each text that one names.
pub(crate) fn naming_places<'m>(
    alloc: Global,
    matchers: &[&'m Matcher],
) -> Result<HashMap<&'m str, Vec<usize>>, AllocError>
    ensures { IfOk result (λ named. (text : List ℕ)
        → named_places named text ≡ naming (map (λ m. m.now) matchers.now) text) }
{
    let mut named = HashMap::new(alloc);
    for (place, matcher) in matchers.iter().enumerate() {
        note(alloc, &mut named, matcher, place)?;
    }
    Ok(named)
}

/// Adds the place of a matcher to the places of each text that it names.
fn note<'m>(
    alloc: Global,
    named: &mut HashMap<&'m str, Vec<usize>>,
    matcher: &'m Matcher,
    place: usize,
) -> Result<(), AllocError>
    ensures { OnOk result ((text : List ℕ) → named_places named.new text
        ≡ noted (named_by matcher.now) place text (named_places named.old text)) }
{
    let texts = named_by(alloc, matcher)?;
    for text in &texts {
        add_name(named, text, place)?;
    }
    Ok(())
}

/// Adds the place of a matcher that names a text to the places of the text.
fn add_name<'m>(
    named: &mut HashMap<&'m str, Vec<usize>>,
    text: &'m str,
    place: usize,
) -> Result<(), AllocError>
    ensures { OnOk result ((q : List ℕ) → named_places named.new q
        ≡ noted (text.now ∷ []) place q (named_places named.old q)) }
{
    add_place(named.entry(text)?.or_default(), place)?;
    Ok(())
}

/// Adds a place, unless it is the last one.
fn add_place(places: &mut Vec<usize>, place: usize) -> Result<(), AllocError>
    ensures { OnOk result (places.new.items ≡ with_place place places.old.items) }
{
    if places.is_empty() || places[places.len() - 1] != place {
        places.push(place)?;
    }
    Ok(())
}
