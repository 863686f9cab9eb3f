//! Facts about the definitions alone: each is the contract of a function with an empty body.
//!
//! A complete universe stands for every alert. For each label a value is chosen that is alike to
//! the alert's text, so each matcher has the same truth on both. All else follows by induction over
//! lists, routes, silences and pairs.
ghost use Rattle.std.specs.Prelude.{◌≡◌, ◌≢◌, ℕ, List, [], ◌∷◌, ◌++◌, ℤ, Contains, IsTrue, IsFalse};
ghost use Rattle.std.specs.List.{AllByRecursion};
ghost use Rattle.am_universe.specs.Universe.{Label, IsUniverse, sizes};
ghost use Rattle.am_universe.specs.Choice.{IsWhole};
ghost use Rattle.am_universe.specs.LabelSet.{LabelMap, label_set_of, value_of};
ghost use Rattle.am_labels.specs.Matcher.{Matcher};
ghost use Rattle.am_labels.specs.Space.{is_possible, Space, IsChoiceOf};
ghost use Rattle.am_list_files.specs.UniverseFile.{FileSaysUniverse};
ghost use Rattle.am_config.specs.ConfigFile.{Configuration};
ghost use Rattle.am_eval.specs.RoutingExamples.{team_db};
ghost use Rattle.am_eval.specs.World.{World};
ghost use Rattle.am_eval.specs.Routing.{ends, receivers};
ghost use Rattle.am_eval.specs.Silencing.{is_silenced, at_instant};
ghost use Rattle.am_eval.specs.Inhibition.{is_inhibited};
ghost use Rattle.am_eval.specs.Question.{Question, satisfies, answers};
ghost use Rattle.am_classes.specs.declared.alphabet.Alphabet.{Alphabet};
ghost use Rattle.am_classes.specs.declared.alphabet.Alphabet.TheVariants.{Unicode, Ascii};
ghost use Rattle.am_classes.specs.Alike.{AreAlike, Covers};
ghost use Rattle.am_complete.specs.declared.allowed_names.AllowedNames.{AllowedNames};
ghost use Rattle.am_complete.specs.Complete.{HasAlike, about, AreAmong, IsCompleteAt, IsComplete};
ghost use Rattle.am_complete.specs.Complete.{IsSpaceComplete, impossible_matchers};
ghost use Rattle.am_complete.specs.AskedLabel.{AskedLabel, IsAskedOf};
ghost use Rattle.am_complete.specs.Room.{HaveNoRoom};
ghost use Rattle.am_complete.specs.Covering.{HasTextsOver, KeepsLabels};
ghost use Rattle.am_asked.specs.Asked.{route_matchers, rule_matchers, equal_matchers};
ghost use Rattle.am_asked.specs.Asked.{silence_matchers, world_matchers, question_matchers};
ghost use Rattle.am_asked.specs.Asked.{questions_matchers};
ghost use Rattle.am_every_alert.specs.EveryAlert.{IsAlert, IsAlertOf, MeetsTheSame};
ghost use Rattle.am_every_alert.specs.EveryAlert.{AreTreatedAlike};
ghost use Rattle.am_every_alert.specs.Deciding.{coverage_matchers, asked_matchers};
ghost use Rattle.am_every_alert.specs.Deciding.{deciding_matchers, AsksWhatHides};
ghost use Rattle.am_every_alert.specs.CompleteExample.{team_universe, db_or_absent, db_alone};
ghost use Rattle.am_every_alert.specs.CompleteExample.{team_not_db, db_alone_possible};
ghost use Rattle.am_every_alert.specs.CompleteExample.{absent_alone, any_line};

/// Some choice of a universe meets the same of some matchers as a label set, if for each label of
/// the matchers the universe has a text that is alike to that of the label set.
pub fn each_label_set_has_a_choice()
    ensures stands { (u : List Label) (ms : List Matcher) (s : LabelMap) → IsUniverse u
        → AllByRecursion (λ m. HasAlike u ms m.name (value_of s m.name)) ms
        → (c : List ℕ) × IsWhole (sizes u) c × MeetsTheSame ms (label_set_of u c) s }
{}

/// A universe that is complete for some matchers, over an alphabet, stands for every alert over
/// this alphabet: whatever labels the alert has, some choice meets the same of the matchers. Over
/// Unicode these are all alerts. Over ASCII they are those whose values are printable ASCII.
pub fn a_complete_universe_stands_for_every_alert()
    ensures stands { (a : Alphabet) (u : List Label) (ms : List Matcher) (s : LabelMap)
        → IsUniverse u → IsComplete a u ms → IsAlert a s
        → (c : List ℕ) × IsWhole (sizes u) c × MeetsTheSame ms (label_set_of u c) s }
{}

/// Label sets that meet the same of a world's matchers are treated alike. If they meet the same of
/// the matchers of the routes, they end at the same routes and go to the same receivers. Both or
/// neither are silenced, inhibited or possible, if they meet the same of the matchers that decide
/// it. Label sets that meet the same of some matchers meet the same of each part of them.
#[tactic(auto, using(crate::proofs::TreatedAlike::alike))]
pub fn what_meets_the_same_is_treated_alike()
    ensures ends { (c : Configuration) (s t : LabelMap)
        → MeetsTheSame (route_matchers c.root) s t → ends s c ≡ ends t c }
    ensures receivers { (c : Configuration) (s t : LabelMap)
        → MeetsTheSame (route_matchers c.root) s t → receivers s c ≡ receivers t c }
    ensures silenced { (w : World) (s t : LabelMap)
        → MeetsTheSame (silence_matchers w.silences) s t → is_silenced w s ≡ is_silenced w t }
    ensures inhibited { (w : World) (s t : LabelMap)
        → MeetsTheSame (rule_matchers w.config.rules) s t
        → MeetsTheSame (equal_matchers w.config.rules w.alerts) s t
        → is_inhibited w s ≡ is_inhibited w t }
    ensures possible { (impossible : List (List Matcher)) (s t : LabelMap)
        → MeetsTheSame (impossible_matchers impossible) s t
        → is_possible impossible s ≡ is_possible impossible t }
    ensures alike { (w : World) (s t : LabelMap)
        → MeetsTheSame (world_matchers w) s t → AreTreatedAlike w s t }
    ensures part { (ns ms : List Matcher) (s t : LabelMap)
        → AreAmong ns ms → MeetsTheSame ms s t → MeetsTheSame ns s t }
{}

/// In a universe that is complete for a world, over an alphabet, every alert over this alphabet is
/// treated as some choice is. It ends at the same routes, goes to the same receivers, and is
/// silenced, or inhibited, exactly if the choice is. A universe that is complete for a world is so
/// at every instant.
pub fn every_alert_is_treated_as_a_choice()
    ensures alike { (a : Alphabet) (u : List Label) (w : World) (s : LabelMap) → IsUniverse u
        → IsComplete a u (world_matchers w) → IsAlert a s
        → (c : List ℕ) × IsWhole (sizes u) c × AreTreatedAlike w (label_set_of u c) s }
    ensures any_instant { (w : World) (instant : ℤ)
        → world_matchers (at_instant w instant) ≡ world_matchers w }
{}

/// A space that is complete for some matchers, over an alphabet, stands for every alert of the
/// space over this alphabet: whatever labels the alert has, some choice of the space's labels meets
/// the same of the matchers.
pub fn a_complete_space_stands_for_every_alert_of_it()
    ensures stands { (a : Alphabet) (s : Space) (ms : List Matcher) (alert : LabelMap)
        → IsUniverse s.labels → IsSpaceComplete a s ms → IsAlertOf a s alert
        → (c : List ℕ) × IsWhole (sizes s.labels) c
        × MeetsTheSame ms (label_set_of s.labels c) alert }
{}

/// Every alert of a complete space ends at the routes at which some choice of the space ends, and
/// goes to the same receivers. The space is complete, over the alphabet of the alert, for the
/// matchers of the routes and the impossible lists.
pub fn every_alert_of_a_space_ends_as_a_choice_does()
    ensures ends { (a : Alphabet) (s : Space) (c : Configuration) (alert : LabelMap)
        → IsUniverse s.labels → IsSpaceComplete a s (coverage_matchers s c) → IsAlertOf a s alert
        → (choice : List ℕ) × IsChoiceOf s choice
        × (ends (label_set_of s.labels choice) c ≡ ends alert c)
        × (receivers (label_set_of s.labels choice) c ≡ receivers alert c) }
{}

/// A question that is true of an alert of a complete space has an answer that is treated alike. So
/// a question without answers is true of no such alert. The space is complete, over the alphabet of
/// the alert, for all matchers that decide the question. If the question asks neither `silenced`
/// nor `inhibited`, those of the routes, of the question and of what is impossible are enough.
pub fn a_question_without_answers_is_true_of_no_alert()
    ensures answered { (a : Alphabet) (s : Space) (w : World) (q : Question) (alert : LabelMap)
        → IsUniverse s.labels → IsSpaceComplete a s (asked_matchers s w q)
        → IsAlertOf a s alert → IsTrue (satisfies w q alert)
        → (choice : List ℕ) × Contains (answers s w q) choice
        × AreTreatedAlike w (label_set_of s.labels choice) alert }
    ensures unanswered { (a : Alphabet) (s : Space) (w : World) (q : Question) (alert : LabelMap)
        → IsUniverse s.labels → IsSpaceComplete a s (asked_matchers s w q)
        → IsAlertOf a s alert → answers s w q ≡ [] → IsFalse (satisfies w q alert) }
    ensures by_routes { (a : Alphabet) (s : Space) (w : World) (q : Question) (alert : LabelMap)
        → IsUniverse s.labels → IsSpaceComplete a s
        (deciding_matchers s (route_matchers w.config.root ++ question_matchers q))
        → ¬ AsksWhatHides q → IsAlertOf a s alert → answers s w q ≡ []
        → IsFalse (satisfies w q alert) }
{}

/// Each label set of a universe, complete or not, is one that an alert may have. It is over each
/// alphabet that the texts of the universe are over.
pub fn label_sets_of_a_universe_are_alerts()
    ensures alert { (a : Alphabet) (u : List Label) (c : List ℕ) → IsUniverse u
        → HasTextsOver a u → IsAlert a (label_set_of u c) }
{}

/// Being alike to some matchers is an equivalence of texts.
#[tactic(auto, using(am_classes::proofs::AlikeLemmas::alike_itself, am_classes::proofs::AlikeLemmas::alike_turned, am_classes::proofs::AlikeLemmas::alike_joined))]
pub fn alike_texts_are_equivalent()
    ensures itself { (ms : List Matcher) (x : List ℕ) → AreAlike ms x x }
    ensures turned { (ms : List Matcher) (x y : List ℕ) → AreAlike ms x y → AreAlike ms y x }
    ensures joined { (ms : List Matcher) (x y z : List ℕ)
        → AreAlike ms x y → AreAlike ms y z → AreAlike ms x z }
{}

/// A universe is complete at a label, over an alphabet, if some texts cover all that are over it,
/// and the universe has a text alike to each of them. It is also complete at each label that no
/// matcher is on.
#[tactic(auto, using(crate::proofs::CompleteSpaces::complete_by_cover, am_complete::proofs::CompleteUniverses::complete_without_matchers))]
pub fn a_universe_is_complete_where_its_texts_cover_all()
    ensures covered { (a : Alphabet) (u : List Label) (ms : List Matcher) (name : List ℕ)
        (texts : List (List ℕ)) → Covers a (about name ms) texts
        → AllByRecursion (λ x. HasAlike u ms name x) texts → IsCompleteAt a u ms name }
    ensures no_matcher { (a : Alphabet) (u : List Label) (ms : List Matcher) (name : List ℕ)
        → IsUniverse u → about name ms ≡ [] → IsCompleteAt a u ms name }
{}

/// A universe is complete for some matchers, over an alphabet, if it is complete at the label of
/// each, whatever the names are. It is then complete for each part of them.
pub fn a_universe_is_complete_by_its_matchers()
    ensures by_labels { (a : Alphabet) (u : List Label) (ms : List Matcher) → IsUniverse u
        → AllByRecursion (λ m. m.name ≢ [] → IsCompleteAt a u ms m.name) ms
        → IsComplete a u ms }
    ensures part { (a : Alphabet) (u : List Label) (ns ms : List Matcher)
        → AreAmong ns ms → IsComplete a u ms → IsComplete a u ns }
    ensures part_at { (a : Alphabet) (u : List Label) (ns ms : List Matcher) (name : List ℕ)
        → AreAmong ns ms → IsCompleteAt a u ms name → IsCompleteAt a u ns name }
{}

/// A space is complete for some matchers, over an alphabet, if its universe is. If nothing is
/// impossible, it is complete only then. A space that is complete for some matchers is complete for
/// each part of them.
#[tactic(auto, using(crate::proofs::CompleteSpaces::space_parts))]
pub fn a_space_is_complete_where_its_universe_is()
    ensures universe { (a : Alphabet) (s : Space) (ms : List Matcher)
        → IsComplete a s.labels ms → IsSpaceComplete a s ms }
    ensures all_possible { (a : Alphabet) (s : Space) (ms : List Matcher) → s.impossible ≡ []
        → IsSpaceComplete a s ms → IsComplete a s.labels ms }
    ensures part { (a : Alphabet) (s : Space) (ns ms : List Matcher)
        → AreAmong ns ms → IsSpaceComplete a s ms → IsSpaceComplete a s ns }
{}

/// Both parts of a list of matchers are among the whole list. To be among others is transitive, and
/// two lists that are among a third are so together.
#[tactic(auto, using(crate::proofs::CompleteSpaces::parts_among))]
pub fn parts_of_matchers_are_among_them()
    ensures front { (ms ns : List Matcher) → AreAmong ms (ms ++ ns) }
    ensures behind { (ms ns : List Matcher) → AreAmong ns (ms ++ ns) }
    ensures both { (ks ns ms : List Matcher)
        → AreAmong ks ms → AreAmong ns ms → AreAmong (ks ++ ns) ms }
    ensures through { (ks ns ms : List Matcher)
        → AreAmong ks ns → AreAmong ns ms → AreAmong ks ms }
{}

/// A space that is complete for a world, for questions and for the impossible lists is complete,
/// over the same alphabet, for the routes and the impossible lists, and for each of the questions.
/// For the routes, with or without one of the questions, it is enough if it is complete for the
/// routes, the questions and the impossible lists. If nothing is impossible, it is enough if it is
/// complete for matchers among which those of the routes are.
pub fn what_is_complete_for_a_world_is_so_for_its_routes()
    ensures routes { (a : Alphabet) (s : Space) (w : World) (questions : List Question)
        → IsSpaceComplete a s (world_matchers w
        ++ (questions_matchers questions ++ impossible_matchers s.impossible))
        → IsSpaceComplete a s (coverage_matchers s w.config) }
    ensures routes_alone { (a : Alphabet) (s : Space) (c : Configuration)
        (questions : List Question) → IsSpaceComplete a s (route_matchers c.root
        ++ (questions_matchers questions ++ impossible_matchers s.impossible))
        → IsSpaceComplete a s (coverage_matchers s c) }
    ensures question { (a : Alphabet) (s : Space) (w : World) (questions : List Question)
        (q : Question) → Contains questions q → IsSpaceComplete a s (world_matchers w
        ++ (questions_matchers questions ++ impossible_matchers s.impossible))
        → IsSpaceComplete a s (asked_matchers s w q) }
    ensures question_by_routes { (a : Alphabet) (s : Space) (c : Configuration)
        (questions : List Question) (q : Question) → Contains questions q
        → IsSpaceComplete a s (route_matchers c.root
        ++ (questions_matchers questions ++ impossible_matchers s.impossible))
        → IsSpaceComplete a s
        (deciding_matchers s (route_matchers c.root ++ question_matchers q)) }
    ensures all_possible { (a : Alphabet) (u : List Label) (c : Configuration) (ms : List Matcher)
        → AreAmong (route_matchers c.root) ms → IsComplete a u ms
        → IsComplete a u (coverage_matchers (record { labels = u; impossible = [] }) c) }
{}

/// A universe or space that is complete over Unicode is complete over ASCII, since a text of
/// printable ASCII is UTF-8. An alert over ASCII is one over Unicode, also of a space, and a
/// universe whose texts are over ASCII has texts over Unicode.
pub fn what_is_complete_over_unicode_is_complete_over_ascii()
    ensures at_label { (u : List Label) (ms : List Matcher) (name : List ℕ)
        → IsCompleteAt Unicode u ms name → IsCompleteAt Ascii u ms name }
    ensures universe { (u : List Label) (ms : List Matcher)
        → IsComplete Unicode u ms → IsComplete Ascii u ms }
    ensures space { (s : Space) (ms : List Matcher)
        → IsSpaceComplete Unicode s ms → IsSpaceComplete Ascii s ms }
    ensures alert { (s : LabelMap) → IsAlert Ascii s → IsAlert Unicode s }
    ensures alert_of_space { (s : Space) (alert : LabelMap)
        → IsAlertOf Ascii s alert → IsAlertOf Unicode s alert }
    ensures texts { (u : List Label) → HasTextsOver Ascii u → HasTextsOver Unicode u }
{}

/// The texts of a universe file are UTF-8, since JSON text is.
pub fn texts_of_universe_files_are_utf8()
    ensures utf8 { (bytes : List ℕ) (s : Space) → FileSaysUniverse bytes s
        → HasTextsOver Unicode s.labels }
{}

/// An example of universes and a space that are complete, and of others that are not. If `team` may
/// be `db` or absent, the universe is complete for `team="db"`, over each alphabet. If `team` is
/// always `db`, it is not, since no choice stands for the alerts of another team; but the space in
/// which no other team is possible is complete. If `team` is always absent, the universe is
/// complete for `team=~".*"` over ASCII, but not over Unicode, since the pattern does not match a
/// line feed.
pub fn an_example_of_completeness()
    ensures complete { (a : Alphabet) → IsComplete a (team_universe db_or_absent) (team_db ∷ []) }
    ensures incomplete { (a : Alphabet)
        → ¬ IsComplete a (team_universe db_alone) (team_db ∷ []) }
    ensures possible { (a : Alphabet)
        → IsSpaceComplete a db_alone_possible (team_db ∷ team_not_db ∷ []) }
    ensures over_ascii { IsComplete Ascii (team_universe absent_alone) (any_line ∷ []) }
    ensures not_over_unicode { ¬ IsComplete Unicode (team_universe absent_alone) (any_line ∷ []) }
{}

/// If there is no room beside a space for the labels that matchers ask about, no universe that
/// keeps the labels of the space is complete for these matchers, over the alphabet and with the
/// same impossible lists. The matchers of these lists must be among them.
pub fn what_has_no_room_has_no_complete_universe()
    ensures none { (a : Alphabet) (allowed : AllowedNames) (s : Space) (asked : List AskedLabel)
        (ms : List Matcher) (v : List Label) → IsUniverse v → KeepsLabels s.labels v
        → IsAskedOf asked ms → AreAmong (impossible_matchers s.impossible) ms
        → HaveNoRoom a allowed s asked
        → ¬ IsSpaceComplete a (record { labels = v; impossible = s.impossible }) ms }
{}
