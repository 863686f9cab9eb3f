//! Facts about the definitions alone: each is the contract of a function with an empty body.
ghost use Rattle.std.specs.Prelude.{◌≡◌, ◌↔◌, ℕ, List, [], ◌∷◌, ◌++◌, IsTrue, Contains, None, Some};
ghost use Rattle.std.specs.Prelude.{slice_get, unwrap_or, string_bytes};
ghost use Rattle.std.specs.Char.{IsAsciiGraphic};
ghost use Rattle.std.specs.Char.Escape.{escape_unicode};
ghost use Rattle.std.specs.List.{AllByRecursion};
ghost use Rattle.std.specs.Ordering.{nat_cmp};
ghost use Rattle.std.specs.Cmp.Lexicographic.{slice_cmp};
ghost use Rattle.std.specs.List.Sorted.{IsStrictlySortedBy};
ghost use Rattle.am_universe.specs.declared.fault.Fault.{Fault};
ghost use Rattle.am_universe.specs.declared.kind.Kind.TheVariants as kinds;
ghost use Rattle.am_universe.specs.declared.limits.TheConstants.{MAX_LABELS, MAX_VALUES};
ghost use Rattle.am_universe.specs.declared.limits.TheConstants.{MAX_POSITIONS};
ghost use Rattle.am_universe.specs.declared.place.Place.TheVariants as places;
ghost use Rattle.am_universe.specs.Text.{same_text};
ghost use Rattle.am_universe.specs.Universe.{Label, IsUniverse, HaveLabelNames, names, sizes};
ghost use Rattle.am_universe.specs.Universe.{is_label_name, label_fault, any_label_fault};
ghost use Rattle.am_universe.specs.Choice.{choices, IsWhole};
ghost use Rattle.am_universe.specs.LabelSet.{value_of, value_at, label_set_of};
ghost use Rattle.am_universe.specs.WrittenLabelSet.{line};

/// The limits of a universe: labels, values of a label, and positions of a choice.
pub fn limits_of_universes()
    ensures labels { MAX_LABELS ≡ 64 }
    ensures values { MAX_VALUES ≡ 1024 }
    ensures positions { MAX_POSITIONS ≡ 64 }
{}

/// Every fault of memory is at the place `Memory`, and every fault of writing at `Output`, both
/// with the empty pointer.
pub fn memory_and_writing_have_places_of_their_own()
    ensures memory { (fault : Fault) → fault.kind ≡ kinds.Memory
        → (fault.place ≡ places.Memory) × (string_bytes fault.pointer ≡ []) }
    ensures write { (fault : Fault) → fault.kind ≡ kinds.Write
        → (fault.place ≡ places.Output) × (string_bytes fault.pointer ≡ []) }
{}

/// An escape is printable ASCII, so it has no hidden character in it.
pub fn an_escape_is_printable_ascii()
    ensures { (code : ℕ) → AllByRecursion IsAsciiGraphic (escape_unicode code) }
{}

/// `same_text` is true of two texts exactly if they are equal.
pub fn same_text_decides()
    ensures decided { (a b : List ℕ) → (IsTrue (same_text a b) ↔ (a ≡ b)) }
{}

/// The choices over labels of some sizes are exactly the whole choices.
pub fn choices_are_the_whole_choices()
    ensures exactly { (sizes c : List ℕ) → (Contains (choices sizes) c ↔ IsWhole sizes c) }
{}

/// The choices are in the order of a dictionary, so none occurs twice.
#[tactic(auto, using(crate::proofs::ChoiceLemmas::choices_sorted))]
pub fn choices_ascend()
    ensures ascending { (sizes : List ℕ) → IsStrictlySortedBy (slice_cmp nat_cmp) (choices sizes) }
{}

/// In the label set of a choice, a declared label has the value at its position, or the empty text
/// if that is absence.
#[tactic(auto, using(crate::proofs::LabelSetLemmas::value_of_declared))]
pub fn declared_value()
    ensures value { (u : List Label) (c : List ℕ) (i : ℕ) (label : Label) (position : ℕ)
        → IsUniverse u → slice_get u i ≡ Some label → slice_get c i ≡ Some position
        → value_of (label_set_of u c) label.name ≡ unwrap_or (value_at label position) [] }
{}

/// In the label set of a choice, a label that is not declared has the empty text.
#[tactic(auto, using(crate::proofs::LabelSetLemmas::value_of_undeclared))]
pub fn undeclared_value()
    ensures value { (u : List Label) (c name : List ℕ)
        → ¬ Contains (names u) name → value_of (label_set_of u c) name ≡ [] }
{}

/// A label of any name may be added to a universe exactly if the labels are then still a universe,
/// and a label as those of files exactly if its name is a label name too.
///
/// So no fault is missing, and none is needless.
#[tactic(auto, using(crate::proofs::LabelFaultLemmas::faults_are_exact, crate::proofs::LabelFaultLemmas::named_faults_are_exact))]
pub fn a_label_is_added_exactly_to_a_universe()
    ensures exactly { (u : List Label) (label : Label) → IsUniverse u
        → (any_label_fault u label ≡ None ↔ IsUniverse (u ++ label ∷ [])) }
    ensures named { (u : List Label) (label : Label) → IsUniverse u → (label_fault u label ≡ None
        ↔ (IsUniverse (u ++ label ∷ []) × IsTrue (is_label_name label.name))) }
{}

/// Two different choices of one universe have different lines, if each label has a label name.
#[tactic(auto, using(crate::proofs::LineLemmas::same_line))]
pub fn one_choice_a_line()
    ensures same_choice { (u : List Label) (c d : List ℕ) → IsUniverse u → HaveLabelNames u
        → IsWhole (sizes u) c → IsWhole (sizes u) d
        → line u c ≡ line u d → c ≡ d }
{}
