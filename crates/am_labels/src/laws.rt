//! Facts about the definitions alone: each is the contract of a function with an empty body.
ghost use Rattle.std.specs.Prelude.{◌≡◌, ◌↔◌, ℕ, List, [], ◌∷◌, Some, map, true, false};
ghost use Rattle.std.specs.Prelude.{IsTrue, Contains};
ghost use Rattle.std.specs.Str.{IsUtf8};
ghost use Rattle.std.specs.List.{list_any};
ghost use Rattle.std.specs.List.Sorted.{IsStrictlySortedBy};
ghost use Rattle.std.specs.Ordering.{nat_cmp};
ghost use Rattle.std.specs.Cmp.Lexicographic.{slice_cmp};
ghost use Rattle.am_universe.specs.Universe.{Label, IsUniverse, sizes};
ghost use Rattle.am_universe.specs.Choice.{IsWhole, choices};
ghost use Rattle.am_universe.specs.LabelSet.{label_set_of, value_of};
ghost use Rattle.am_universe.specs.Text.{same_text};
ghost use Rattle.am_labels.specs.Space.{Space, all_choices, IsChoiceOf};
ghost use Rattle.am_labels.specs.declared.limits.TheConstants.{MAX_MATCHERS, MAX_IMPOSSIBLE};
ghost use Rattle.am_labels.specs.Matcher.{Matcher, condition_holds, all_hold};
ghost use Rattle.am_labels.specs.declared.pattern_profile.Piece.{Piece};
ghost use Rattle.am_labels.specs.PatternProfile.{IsJoinOf, IsInProfile, in_profile};
ghost use Rattle.am_labels.specs.Pattern.{finds};
ghost use Rattle.am_labels.specs.Wildcards.{alternatives, is_alternation, is_wildcards};
ghost use Rattle.am_labels.specs.Wildcards.{wildcards_find};
ghost use Rattle.am_labels.specs.Row.{row_of, row_holds, rows_hold};
ghost use Rattle.am_labels.specs.MatcherText.{Spells, WordsSpell};
ghost use Rattle.am_labels.specs.MatcherReading.{read_list};
ghost use Rattle.am_labels.specs.ParsedLabelSet.{repeats_name, set_of_list};

pub use am_universe::laws::{
    a_label_is_added_exactly_to_a_universe, choices_are_the_whole_choices, choices_ascend,
    declared_value, limits_of_universes, one_choice_a_line, same_text_decides, undeclared_value,
};

/// The limits of the matchers of a list, and of the impossible lists of a space.
pub fn limit_of_matchers()
    ensures matchers { MAX_MATCHERS ≡ 64 }
    ensures impossible { MAX_IMPOSSIBLE ≡ 64 }
{}

/// Every pattern is a join of pieces.
#[tactic(auto, using(crate::proofs::PatternJoins::each_is_join))]
pub fn each_pattern_is_a_join()
    ensures joined { (pattern : List ℕ) → (pieces : List Piece) × IsJoinOf pattern pieces }
{}

/// A pattern is the join of one list of pieces only.
#[tactic(auto, using(crate::proofs::PatternJoins::one_join))]
pub fn one_join_a_pattern()
    ensures same_pieces { (pattern : List ℕ) (a b : List Piece)
        → IsJoinOf pattern a → IsJoinOf pattern b → a ≡ b }
{}

/// A pattern is in the profile exactly if `in_profile` is true of it, which cuts it step by step.
pub fn the_profile_is_decided()
    ensures decided { (pattern : List ℕ) → IsInProfile pattern ↔ IsTrue (in_profile pattern) }
{}

/// A text spells at most one list of matchers.
#[tactic(auto, using(crate::proofs::MatcherTextWhole::one_list))]
pub fn one_list_a_text()
    ensures same_list { (text : List ℕ) (ms ns : List Matcher)
        → Spells text ms → Spells text ns → ms ≡ ns }
{}

/// Words spell at most one list of matchers, and one word spells what it spells as a text.
#[tactic(auto, using(crate::proofs::MatcherTextWhole::one_list_of_words))]
pub fn one_list_of_words()
    ensures same_list { (words : List (List ℕ)) (ms ns : List Matcher)
        → WordsSpell words ms → WordsSpell words ns → ms ≡ ns }
    ensures one_word { (text : List ℕ) (ms : List Matcher)
        → WordsSpell (text ∷ []) ms ↔ Spells text ms }
{}

/// A text spells a list exactly if reading it step by step gives that list.
#[tactic(auto, using(crate::proofs::MatcherTextWhole::list_is_read, crate::proofs::MatcherTextWhole::list_is_spelled))]
pub fn texts_are_read()
    ensures exactly { (text : List ℕ) (ms : List Matcher)
        → Spells text ms ↔ (read_list text ≡ Some ms) }
{}

/// If a list repeats no name, each of its names has its value in the label set of the list.
#[tactic(auto, using(crate::proofs::ParsedLabelSetLemmas::value_of_listed))]
pub fn listed_value()
    ensures value { (ms : List Matcher) (m : Matcher)
        → repeats_name ms ≡ false → Contains ms m
        → value_of (set_of_list ms) m.name ≡ m.value }
{}

/// In the label set of a list, a name that is not in the list has the empty text.
#[tactic(auto, using(crate::proofs::ParsedLabelSetLemmas::value_of_unlisted))]
pub fn unlisted_value()
    ensures value { (ms : List Matcher) (name : List ℕ)
        → ¬ Contains (map (λ m. m.name) ms) name
        → value_of (set_of_list ms) name ≡ [] }
{}

/// The truth of a matcher on the label set of a whole choice is its row's truth at that choice.
#[tactic(auto, using(crate::proofs::RowLawLemmas::row_decides))]
pub fn a_row_decides_a_matcher()
    ensures same_truth { (u : List Label) (c : List ℕ) (m : Matcher)
        → IsUniverse u → IsWhole (sizes u) c
        → condition_holds (label_set_of u c) m ≡ row_holds (row_of u m) c }
{}

/// A list of matchers is true on the label set of a whole choice exactly if the row of each matcher
/// is true at that choice.
#[tactic(auto, using(crate::proofs::RowLawLemmas::rows_decide))]
pub fn rows_decide_a_list()
    ensures same_truth { (u : List Label) (c : List ℕ) (ms : List Matcher)
        → IsUniverse u → IsWhole (sizes u) c
        → all_hold (label_set_of u c) ms ≡ rows_hold u ms c }
{}

/// The choices of a space are exactly the whole choices that are possible, in declared order.
pub fn choices_of_a_space_are_the_possible_ones()
    ensures exactly { (s : Space) (c : List ℕ) → Contains (all_choices s) c ↔ IsChoiceOf s c }
    ensures ascending { (s : Space) → IsStrictlySortedBy (slice_cmp nat_cmp) (all_choices s) }
{}

/// If no list is impossible, a space has all whole choices; if the empty list is impossible, it has
/// none.
#[tactic(auto, using(crate::proofs::SpaceLaws::all_without_lists, crate::proofs::SpaceLaws::none_of_empty_list))]
pub fn an_impossible_list_takes_away_what_it_matches()
    ensures all { (labels : List Label) → all_choices (record { labels = labels; impossible = [] })
        ≡ choices (sizes labels) }
    ensures none { (s : Space) → Contains s.impossible [] → all_choices s ≡ [] }
{}

/// A pattern that has wildcards alone finds a text in UTF-8 exactly if one of its alternatives
/// matches the text.
#[tactic(auto, using(crate::proofs::WildcardMatches::finds_wildcards))]
pub fn wildcards_are_found()
    ensures exactly { (p text : List ℕ) → is_wildcards p ≡ true → IsUtf8 text
        → finds p text ≡ wildcards_find p text }
{}

/// An alternation of plain texts finds exactly these texts.
#[tactic(auto, using(crate::proofs::WildcardMatches::finds_alternatives))]
pub fn alternatives_are_found()
    ensures exactly { (p text : List ℕ) → is_alternation p ≡ true
        → finds p text ≡ list_any (same_text text) (alternatives p) }
{}
