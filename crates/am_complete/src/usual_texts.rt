//! The texts that alerts have for a label.

ghost use Rattle.std.specs.Prelude.{◌≡◌, [], IfOk, map, string_bytes};
ghost use Rattle.std.specs.List.{AllByRecursion};
ghost use Rattle.std.specs.Option.{option_map_or};
ghost use Rattle.am_classes.specs.Alphabet.{IsOver, AreOver};
ghost use Rattle.am_complete.specs.Representatives.{IsUsual, GainsOnly};

use am_classes::Alphabet;
use am_list_files::Alerts;
use am_universe::limits::MAX_VALUES;
use std::alloc::{AllocError, Global};
use std::collections::{HashMap, HashSet};

/// Returns the usual texts of a label that are over an alphabet: the texts that alerts have,
/// without absence, and then `other`. The text that most alerts have comes first. Of texts that
/// equally many alerts have, the one that appears first comes first. No text is listed twice, and
/// there are no more texts than a label may have values.
pub(crate) fn usual_texts(
    alloc: Global,
    alphabet: Alphabet,
    alerts: Option<&Alerts>,
    name: &str,
) -> Result<Vec<String>, AllocError>
    ensures over { IfOk result (λ texts. AreOver alphabet (map string_bytes texts.items)) }
    ensures usual { IfOk result (λ texts.
        AllByRecursion (IsUsual (option_map_or (λ a. a.now) alerts.entry []) name.now)
        (map string_bytes texts.items)) }
{
    let mut seen = HashSet::new(alloc);
    let mut texts = Vec::new(alloc);
    let counted = counted_texts(alloc, alerts, name)?;
    for pair in &counted {
        push_new(alloc, alphabet, &mut seen, &mut texts, pair.0)?;
    }
    push_new(alloc, alphabet, &mut seen, &mut texts, "other")?;
    Ok(texts)
}

/// Adds a text that is over an alphabet, unless it was seen before, or there are as many texts as a
/// label may have values.
pub(crate) fn push_new<'t>(
    alloc: Global,
    alphabet: Alphabet,
    seen: &mut HashSet<&'t str>,
    texts: &mut Vec<String>,
    text: &'t str,
) -> Result<(), AllocError>
    ensures { GainsOnly (λ x. IsOver alphabet x × (x ≡ text.now)) (map string_bytes texts.old.items)
        (map string_bytes texts.new.items) }
{
    if texts.len() < MAX_VALUES && alphabet.has(text) && seen.insert(text)? {
        texts.push(String::from_str(alloc, text)?)?;
    }
    Ok(())
}

/// Returns the texts that alerts have for the label of this name, without absence, each with the
/// number of these alerts. The highest number comes first.
fn counted_texts<'a>(
    alloc: Global,
    alerts: Option<&'a Alerts>,
    name: &str,
) -> Result<Vec<(&'a str, usize)>, AllocError>
    ensures { IfOk result (λ counted.
        AllByRecursion (IsUsual (option_map_or (λ a. a.now) alerts.entry []) name.now)
        (map (λ pair. pair.0.now) counted.items)) }
{
    let mut counted: Vec<(&str, usize)> = Vec::new(alloc);
    let Some(alerts) = alerts else {
        return Ok(counted);
    };
    let mut places: HashMap<&str, usize> = HashMap::new(alloc);
    for i in 0..alerts.len() {
        let text = alerts.get(i).get(name);
        if text.is_empty() {
            continue;
        }
        if let Some(place) = places.get(text) {
            count_again(&mut counted, *place);
        } else {
            places.insert(text, counted.len())?;
            counted.push((text, 1))?;
        }
    }
    counted.sort_by_key(|pair| usize::MAX - pair.1)?;
    Ok(counted)
}

/// Counts one more alert for the text at a place.
fn count_again(counted: &mut Vec<(&str, usize)>, place: usize)
    ensures { map (λ pair. pair.0.now) counted.new.items
        ≡ map (λ pair. pair.0.now) counted.old.items }
{
    if place < counted.len() {
        counted[place].1 = counted[place].1.saturating_add(1);
    }
}
