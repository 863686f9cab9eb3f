//! Facts about the definitions alone: each is the contract of a function with an empty body. Each
//! known label set is called an alert, also one that an alerting rule fixes.
ghost use Rattle.std.specs.Prelude.{◌≡◌, ◌<◌, ◌≤◌, ℕ, List, [], Some, None, Contains, IsTrue};
ghost use Rattle.std.specs.Prelude.{false, map};
ghost use Rattle.std.specs.List.{AllByRecursion, list_any};
ghost use Rattle.am_universe.specs.LabelSet.{LabelMap, HasTextsAlone};
ghost use Rattle.am_labels.specs.Matcher.{Matcher, condition_holds, holds, negates};
ghost use Rattle.am_complete.specs.FoundState.{has_label};
ghost use Rattle.am_report_texts.specs.EachOnce.{each_once};
ghost use Rattle.am_unseen.specs.declared.limits.TheConstants.{MOST_EDITS};
ghost use Rattle.am_unseen.specs.Similar.{most_similar, edits_between};
ghost use Rattle.am_unseen.specs.Unseen.{asks_for_unseen};
ghost use Rattle.am_unseen.specs.Similar.{Column, AreBeside, edits_in};
ghost use Rattle.am_unseen.specs.UnseenNames.{Mention, first_mentions, is_unseen_name};

/// A matcher that asks for what no alert has matches no alert, though some alert has its label.
/// Conversely, if both are true of a matcher with `=` or `=~` that is not true of the empty text,
/// it asks for what no alert has.
#[tactic(auto, using(crate::proofs::UnseenMatchers::unseen_matches_none, crate::proofs::UnseenMatchers::unseen_has_label, crate::proofs::UnseenMatchers::each_unseen))]
pub fn a_matcher_of_an_unseen_value_matches_no_alert()
    ensures matches_none { (alerts : List LabelMap) (m : Matcher)
        → IsTrue (asks_for_unseen alerts m)
        → list_any (λ a. condition_holds a m) alerts ≡ false }
    ensures some_has_label { (alerts : List LabelMap) (m : Matcher)
        → IsTrue (asks_for_unseen alerts m) → IsTrue (list_any (has_label m.name) alerts) }
    ensures each_is_told { (alerts : List LabelMap) (m : Matcher) → negates m.op ≡ false
        → holds m.op m.value [] ≡ false → IsTrue (list_any (has_label m.name) alerts)
        → list_any (λ a. condition_holds a m) alerts ≡ false
        → IsTrue (asks_for_unseen alerts m) }
{}

/// No alert has a label with an unseen name, though some alert has another label. Conversely, if
/// both are true of a name, it is unseen. No label of an alert has the empty value.
#[tactic(auto, using(crate::proofs::UnseenNames::none_has_unseen, crate::proofs::UnseenNames::some_has_other, crate::proofs::UnseenNames::each_unseen_name))]
pub fn no_alert_has_an_unseen_name()
    ensures none_has { (alerts : List LabelMap) (name : List ℕ)
        → IsTrue (is_unseen_name alerts name) → list_any (has_label name) alerts ≡ false }
    ensures some_has_another { (alerts : List LabelMap) (name : List ℕ)
        → AllByRecursion HasTextsAlone alerts → IsTrue (is_unseen_name alerts name)
        → (other : List ℕ) × IsTrue (list_any (has_label other) alerts) }
    ensures each_is_told { (alerts : List LabelMap) (name other : List ℕ)
        → AllByRecursion HasTextsAlone alerts → IsTrue (list_any (has_label other) alerts)
        → list_any (has_label name) alerts ≡ false → IsTrue (is_unseen_name alerts name) }
{}

/// The first mentions have each mentioned name once, in the order in which they are first
/// mentioned.
#[tactic(auto, using(crate::proofs::FirstMentions::names_once))]
pub fn each_name_is_mentioned_first_once()
    ensures names { (all : List Mention)
        → map (λ first. first.1) (first_mentions all) ≡ each_once (map (λ m. m.1) all) }
{}

/// Two texts can be set side by side with as many edits as are counted between them, and not with
/// fewer.
#[tactic(auto, using(crate::proofs::Columns::some_columns, crate::proofs::Columns::fewest))]
pub fn edits_between_texts_are_the_fewest()
    ensures reached { (from to : List ℕ) → (columns : List Column) × AreBeside from to columns
        × (edits_in columns ≡ edits_between from to) }
    ensures fewest { (from to : List ℕ) (columns : List Column) → AreBeside from to columns
        → edits_between from to ≤ edits_in columns }
{}

/// The most similar of some values is at most `MOST_EDITS` edits away, and no other value is fewer
/// edits away. If there is none, all values are more than `MOST_EDITS` edits away.
pub fn the_most_similar_value_is_the_nearest()
    ensures nearest { (text : List ℕ) (values : List (List ℕ)) (similar : List ℕ)
        → most_similar text values ≡ Some similar
        → Contains values similar × (edits_between text similar ≤ MOST_EDITS)
        × AllByRecursion (λ v. edits_between text similar ≤ edits_between text v) values }
    ensures none { (text : List ℕ) (values : List (List ℕ)) → most_similar text values ≡ None
        → AllByRecursion (λ v. MOST_EDITS < edits_between text v) values }
{}
