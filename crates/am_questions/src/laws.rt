//! Facts about the definitions alone: each is the contract of a function with an empty body.
ghost use Rattle.std.specs.Prelude.{◌≡◌, ◌≢◌, ◌∷◌, ℕ, List, []};
ghost use Rattle.am_config.specs.ConfigFile.{Configuration};
ghost use Rattle.am_eval.specs.Tree.{Tree, Not, And, Or};
ghost use Rattle.am_universe.specs.declared.kind.Kind.{Kind};
ghost use Rattle.am_universe.specs.declared.kind.Kind.TheVariants as kinds;
ghost use Rattle.am_universe.specs.declared.place.Place.{Place};
ghost use Rattle.am_labels.specs.Space.{Space};
ghost use Rattle.am_json.specs.Pointer.{Refusal};
ghost use Rattle.am_search.specs.declared.start.Start.{Start};
ghost use Rattle.am_eval.specs.Question.{Question};
ghost use Rattle.am_eval.specs.World.{World};
ghost use Rattle.am_files.specs.Faults.{IsFirstFaultOfCall};
ghost use Rattle.am_questions.specs.declared.limits.TheConstants.{MAX_LEXEMES};
ghost use Rattle.am_questions.specs.Lexemes.{Lexeme, SpellsLexemes};
ghost use Rattle.am_questions.specs.Grammar.{Written, IsQuestion, StandInOrder};
ghost use Rattle.am_questions.specs.QuestionText.{parts_of, ReadsQuestion, QuestionRefusedFor};
ghost use Rattle.am_questions.specs.Inputs.{Inputs, AcceptsInputs, ask_stages};
ghost use Rattle.am_questions.specs.GrammarExamples.{any_word, not_word, and_word, or_word};
ghost use Rattle.am_questions.specs.GrammarExamples.{any_tree};

/// A text has at most one list of lexemes.
#[tactic(auto, using(crate::proofs::LexemeTexts::one_list))]
pub fn one_list_of_lexemes_a_text()
    ensures one { (text : List ℕ) (ts us : List Lexeme) → SpellsLexemes text ts
        → SpellsLexemes text us → ts ≡ us }
{}

/// A list of lexemes makes at most one tree.
#[tactic(auto, using(crate::proofs::Fronts::one_tree))]
pub fn one_tree_a_list_of_lexemes()
    ensures one { (lexemes : List Lexeme) (tree other : Tree Written) → IsQuestion lexemes tree
        → IsQuestion lexemes other → tree ≡ other }
{}

/// The simple parts of a question, from left to right, occur in its lexemes in that order, with
/// nothing between them but the words and parentheses that join them.
///
/// They are checked in that order.
#[tactic(auto, using(crate::proofs::PartsInOrder::parts_in_order))]
pub fn parts_stand_in_the_order_of_their_lexemes()
    ensures order { (lexemes : List Lexeme) (tree : Tree Written) → IsQuestion lexemes tree
        → StandInOrder (parts_of tree) lexemes }
{}

/// Four examples: `or` and `and` join to the left, `and` binds more tightly than `or`, and `not`
/// more tightly than `and`.
pub fn joins_to_the_left()
    ensures or { IsQuestion (any_word ∷ or_word ∷ any_word ∷ or_word ∷ any_word ∷ [])
        (Or (Or any_tree any_tree) any_tree) }
    ensures and { IsQuestion (any_word ∷ and_word ∷ any_word ∷ and_word ∷ any_word ∷ [])
        (And (And any_tree any_tree) any_tree) }
    ensures and_in_or { IsQuestion
        (any_word ∷ and_word ∷ any_word ∷ or_word ∷ any_word ∷ and_word ∷ any_word ∷ [])
        (Or (And any_tree any_tree) (And any_tree any_tree)) }
    ensures not_in_and { IsQuestion (not_word ∷ any_word ∷ and_word ∷ any_word ∷ [])
        (And (Not any_tree) any_tree) }
{}

/// A text is read as at most one question about a configuration.
pub fn one_question_a_text()
    ensures one { (c : Configuration) (text : List ℕ) (p q : Question)
        → ReadsQuestion c text p → ReadsQuestion c text q → p ≡ q }
{}

/// Inputs of a question that are accepted fix the space, the world, the question and the start.
pub fn accepted_inputs_mean_one_thing()
    ensures one { (inputs : Inputs) (s t : Space) (w x : World) (q r : Question)
        (start other : Start) → AcceptsInputs inputs s w q start → AcceptsInputs inputs t x r other
        → (s ≡ t) × (w ≡ x) × (q ≡ r) × (start ≡ other) }
{}

/// A text that is read as a question is not refused, and one that is refused is refused with one
/// kind.
///
/// The exceptions are refusals of patterns, which are the engine's to make.
pub fn a_question_is_not_read_and_refused()
    ensures accepted { (c : Configuration) (text : List ℕ) (q : Question) (kind : Kind)
        → ReadsQuestion c text q → QuestionRefusedFor c text kind → kind ≡ kinds.Pattern }
    ensures one { (c : Configuration) (text : List ℕ) (kind other : Kind)
        → QuestionRefusedFor c text kind → QuestionRefusedFor c text other
        → kind ≢ kinds.Pattern → other ≢ kinds.Pattern → kind ≡ other }
{}

/// Inputs of a question that are accepted have no first fault, except a pattern that the engine may
/// refuse.
pub fn accepted_inputs_have_no_fault()
    ensures pattern { (inputs : Inputs) (s : Space) (w : World) (q : Question) (start : Start)
        (place : Place) (refusal : Refusal) → AcceptsInputs inputs s w q start
        → IsFirstFaultOfCall (ask_stages inputs) place refusal
        → refusal.kind ≡ kinds.Pattern }
{}

/// The limit on the lexemes of a question.
pub fn questions_have_a_limit()
    ensures lexemes { MAX_LEXEMES ≡ 256 }
{}
