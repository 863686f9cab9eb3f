//! Facts about the definitions alone: each is the contract of a function with an empty body.
ghost use Rattle.std.specs.Prelude.{◌≡◌, ◌≢◌, ℕ, List};
ghost use Rattle.am_universe.specs.LabelSet.{LabelMap};
ghost use Rattle.am_universe.specs.declared.kind.Kind.{Kind};
ghost use Rattle.am_universe.specs.declared.kind.Kind.TheVariants as kinds;
ghost use Rattle.am_labels.specs.ParsedLabelSet.{WordsSpellSet, SetWordsRefusedFor};

/// Words that spell a label set are not refused.
///
/// Words are refused with at most one kind other than `Pattern`, which the engine decides.
pub fn a_set_is_not_read_and_refused()
    ensures accepted { (words : List (List ℕ)) (set : LabelMap) (kind : Kind)
        → WordsSpellSet words set → SetWordsRefusedFor words kind → ⊥ }
    ensures one { (words : List (List ℕ)) (kind other : Kind) → SetWordsRefusedFor words kind
        → SetWordsRefusedFor words other → kind ≢ kinds.Pattern → other ≢ kinds.Pattern
        → kind ≡ other }
{}
