//! The grammar of questions: from lexemes to a tree.

ghost use Rattle.std.specs.Prelude.{◌≡◌, ◌≢◌, ◌<◌, ◌≤◌, ◌↔◌, ◌∷◌, ℕ, List, map, length, IsTrue};
ghost use Rattle.std.specs.Prelude.{IfOk, IfErr, IfSome, IfNone, option_map};
ghost use Rattle.am_universe.specs.declared.kind.Kind.TheVariants as kinds;
ghost use Rattle.am_config.specs.Path.{path_text};
ghost use Rattle.am_eval.specs.declared.property.Property.{Property};
ghost use Rattle.am_eval.specs.declared.reach.Reach.{Reach};
ghost use Rattle.am_eval.specs.Tree as trees;
ghost use Rattle.am_questions.specs.Lexemes as lexeme;
ghost use Rattle.am_questions.specs.Grammar as spec;
ghost use Rattle.am_questions.specs.Grammar.{JoinedBy, Single, operand, word_of, JoinWord};
ghost use Rattle.am_questions.specs.Grammar.{PropertyWord, ReachWord, name_of};
ghost use Rattle.am_questions.specs.GrammarReading.{Reads, ReadsPart, Refuses};
ghost use Rattle.am_questions.specs.LexemeView.{lexeme_view};
ghost use Rattle.am_questions.specs.TreeView.{tree_view, written_view};

use crate::lexemes::Lexeme;
use am_config::Path;
use am_eval::{Property, Reach};
use am_universe::Kind;
use std::alloc::Global;

/// A question as it is written. Its names, paths and matcher lists are not read yet.
#[derive(Drop)]
pub(crate) enum Tree<'a> {
    Part(Written<'a>),
    Not(Box<Tree<'a>>),
    Joined(Connective, Box<Tree<'a>>, Box<Tree<'a>>),
}

/// A word that joins two questions. Both words join to the left.
#[derive(Clone, Copy)]
pub(crate) enum Connective {
    And,
    Or,
}

/// A simple part as it is written.
#[derive(Clone, Copy)]
pub(crate) enum Written<'a> {
    Is(Property),
    /// The name of a receiver.
    Receiver(&'a str),
    /// The text of a path.
    Route(Reach, &'a str),
    /// A list of matchers with its braces.
    Braces(&'a str),
}

/// Reads the tree that the lexemes make. Fails with `QuestionSyntax` if they make none, and with
/// `Memory` if memory runs out.
#[tactic(auto, using(crate::proofs::Fronts::whole_lists))]
pub(crate) fn read_tree<'a>(alloc: Global, lexemes: &'a [Lexeme<'a>]) -> Result<Tree<'a>, Kind>
    ensures read { IfOk result (λ tree.
        spec.IsQuestion (map lexeme_view lexemes.now) (tree_view tree)) }
    ensures refused { IfErr result (λ kind. kind ≢ kinds.Memory → (kind ≡ kinds.QuestionSyntax)
        × ((tree : trees.Tree spec.Written) → spec.IsQuestion (map lexeme_view lexemes.now) tree
        → ⊥)) }
{
    let (tree, rest) = read_joined(alloc, Connective::Or, lexemes)?;
    if rest.is_empty() {
        Ok(tree)
    } else {
        Err(Kind::QuestionSyntax)
    }
}

/// Reads the questions that a connective joins, to the left, or one question alone. Returns their
/// tree and the lexemes after them.
#[tactic(auto, using(crate::proofs::Fronts::first_read, crate::proofs::Fronts::next_read, crate::proofs::TreeSeen::view_joined))]
#[cycle(questions)]
fn read_joined<'a>(
    alloc: Global,
    connective: Connective,
    lexemes: &'a [Lexeme<'a>],
) -> Result<(Tree<'a>, &'a [Lexeme<'a>]), Kind>
    ensures taken { IfOk result (λ r. Reads (JoinedBy connective) (map lexeme_view lexemes.now)
        (tree_view r.0) (map lexeme_view r.1.now)) }
    ensures shorter { IfOk result (λ r. length r.1.now < length lexemes.now) }
    ensures refused { IfErr result (λ kind.
        Refuses kind (Reads (JoinedBy connective) (map lexeme_view lexemes.now))) }
{
    let (mut tree, mut rest) = read_operand(alloc, connective, lexemes)?;
    while let Some(behind) = behind_lexeme(rest, &Lexeme::Word(connective_word(connective))) {
        let (right, behind) = read_operand(alloc, connective, behind)?;
        tree = Tree::Joined(connective, Box::new(alloc, tree)?, Box::new(alloc, right)?);
        rest = behind;
    }
    Ok((tree, rest))
}

/// Reads a question that a connective joins. Returns its tree and the lexemes after it. `and` binds
/// more tightly than `or`.
#[cycle(questions)]
fn read_operand<'a>(
    alloc: Global,
    connective: Connective,
    lexemes: &'a [Lexeme<'a>],
) -> Result<(Tree<'a>, &'a [Lexeme<'a>]), Kind>
    ensures taken { IfOk result (λ r. Reads (operand connective) (map lexeme_view lexemes.now)
        (tree_view r.0) (map lexeme_view r.1.now)) }
    ensures shorter { IfOk result (λ r. length r.1.now < length lexemes.now) }
    ensures refused { IfErr result (λ kind.
        Refuses kind (Reads (operand connective) (map lexeme_view lexemes.now))) }
{
    match connective {
        Connective::And => read_single(alloc, lexemes),
        Connective::Or => read_joined(alloc, Connective::And, lexemes),
    }
}

/// Reads a question that no connective joins. Returns its tree and the lexemes after it.
#[tactic(auto, using(crate::proofs::Fronts::part_missing))]
#[cycle(questions)]
fn read_single<'a>(
    alloc: Global,
    lexemes: &'a [Lexeme<'a>],
) -> Result<(Tree<'a>, &'a [Lexeme<'a>]), Kind>
    ensures taken { IfOk result (λ r. Reads Single (map lexeme_view lexemes.now) (tree_view r.0)
        (map lexeme_view r.1.now)) }
    ensures shorter { IfOk result (λ r. length r.1.now < length lexemes.now) }
    ensures refused { IfErr result (λ kind.
        Refuses kind (Reads Single (map lexeme_view lexemes.now))) }
{
    if let Some(behind) = behind_lexeme(lexemes, &Lexeme::Word("not")) {
        let (tree, rest) = read_single(alloc, behind)?;
        return Ok((Tree::Not(Box::new(alloc, tree)?), rest));
    }
    match behind_lexeme(lexemes, &Lexeme::Open) {
        Some(behind) => {
            let (tree, rest) = read_joined(alloc, Connective::Or, behind)?;
            match behind_lexeme(rest, &Lexeme::Close) {
                Some(rest) => Ok((tree, rest)),
                None => Err(Kind::QuestionSyntax),
            }
        }
        None => match read_part(lexemes) {
            Some((part, rest)) => Ok((Tree::Part(part), rest)),
            None => Err(Kind::QuestionSyntax),
        },
    }
}

/// The word of a connective.
fn connective_word(connective: Connective) -> &'static str
    ensures { result.now ≡ word_of (JoinWord connective) }
{
    match connective {
        Connective::And => "and",
        Connective::Or => "or",
    }
}

/// The property with this word.
fn property_of(word: &str) -> Option<Property>
    ensures found { IfSome result (λ property. word.now ≡ word_of (PropertyWord property)) }
    ensures none { IfNone result ((property : Property)
        → word.now ≢ word_of (PropertyWord property)) }
{
    match word {
        "any" => Some(Property::Any),
        "silenced" => Some(Property::Silenced),
        "inhibited" => Some(Property::Inhibited),
        _ => None,
    }
}

/// The way to reach a route that this word names.
fn reach_of(word: &str) -> Option<Reach>
    ensures found { IfSome result (λ reach. word.now ≡ word_of (ReachWord reach)) }
    ensures none { IfNone result ((reach : Reach) → word.now ≢ word_of (ReachWord reach)) }
{
    match word {
        "ends" => Some(Reach::Ends),
        "enters" => Some(Reach::Enters),
        _ => None,
    }
}

/// Reads a simple part. Returns it and the lexemes after it.
fn read_part<'a>(lexemes: &'a [Lexeme<'a>]) -> Option<(Written<'a>, &'a [Lexeme<'a>])>
    ensures taken { IfSome result (λ r. ReadsPart (map lexeme_view lexemes.now) (written_view r.0)
        (map lexeme_view r.1.now)) }
    ensures shorter { IfSome result (λ r. length r.1.now < length lexemes.now) }
    ensures refused { IfNone result ((written : spec.Written) (rest : List lexeme.Lexeme)
        → ReadsPart (map lexeme_view lexemes.now) written rest → ⊥) }
{
    let (first, rest) = lexemes.split_first()?;
    match first {
        Lexeme::Braces(list) => Some((Written::Braces(list), rest)),
        Lexeme::Word(word) => read_word_part(word, rest),
        _ => None,
    }
}

/// Reads the simple part that begins with a word. Returns it and the lexemes after it.
fn read_word_part<'a>(
    word: &str,
    lexemes: &'a [Lexeme<'a>],
) -> Option<(Written<'a>, &'a [Lexeme<'a>])>
    ensures taken { IfSome result (λ r. ReadsPart
        (lexeme.Word word.now ∷ map lexeme_view lexemes.now) (written_view r.0)
        (map lexeme_view r.1.now)) }
    ensures shorter { IfSome result (λ r. length r.1.now ≤ length lexemes.now) }
    ensures refused { IfNone result ((written : spec.Written) (rest : List lexeme.Lexeme)
        → ReadsPart (lexeme.Word word.now ∷ map lexeme_view lexemes.now) written rest → ⊥) }
{
    if let Some(property) = property_of(word) {
        return Some((Written::Is(property), lexemes));
    }
    let (first, rest) = lexemes.split_first()?;
    match reach_of(word) {
        Some(reach) => Some((Written::Route(reach, path_of(first)?), rest)),
        None if word == "receiver" => Some((Written::Receiver(name_of(first)?), rest)),
        None => None,
    }
}

/// The lexeme as a name, if it is a word or a text in quotes.
fn name_of<'a>(first: &'a Lexeme<'a>) -> Option<&'a str>
    ensures { option_map (λ name. name.now) result ≡ name_of (lexeme_view first.now) }
{
    match first {
        Lexeme::Word(name) => Some(name),
        Lexeme::Quoted(name) => Some(name.as_str()),
        _ => None,
    }
}

/// The lexeme as the text of a path, if it is a word that is such a text.
fn path_of<'a>(first: &'a Lexeme<'a>) -> Option<&'a str>
    ensures taken { IfSome result (λ text. (lexeme_view first.now ≡ lexeme.Word text.now)
        × ((path : List ℕ) × (path_text path ≡ text.now))) }
    ensures refused { IfNone result ((path : List ℕ)
        → lexeme_view first.now ≢ lexeme.Word (path_text path)) }
{
    match first {
        Lexeme::Word(text) if is_path(text) => Some(text),
        _ => None,
    }
}

/// Whether a word is the text of a path. There need not be such a route.
fn is_path(word: &str) -> bool
    ensures { IsTrue result ↔ ((path : List ℕ) × (path_text path ≡ word.now)) }
{
    !matches!(Path::parse(word), Err(Kind::QuestionSyntax))
}

/// The lexemes after the wanted one, if it is the first lexeme.
fn behind_lexeme<'a>(lexemes: &'a [Lexeme<'a>], wanted: &Lexeme<'_>) -> Option<&'a [Lexeme<'a>]>
    ensures behind { IfSome result (λ rest. map lexeme_view lexemes.now
        ≡ lexeme_view wanted.now ∷ map lexeme_view rest.now) }
    ensures shorter { IfSome result (λ rest. length rest.now < length lexemes.now) }
    ensures other { IfNone result ((rest : List lexeme.Lexeme)
        → map lexeme_view lexemes.now ≢ lexeme_view wanted.now ∷ rest) }
{
    match lexemes {
        [first, rest @ ..] if is_same(first, wanted) => Some(rest),
        _ => None,
    }
}

/// Whether two lexemes are the same.
fn is_same(one: &Lexeme<'_>, other: &Lexeme<'_>) -> bool
    ensures { IsTrue result ↔ (lexeme_view one.now ≡ lexeme_view other.now) }
{
    match (one, other) {
        (Lexeme::Open, Lexeme::Open) | (Lexeme::Close, Lexeme::Close) => true,
        (Lexeme::Word(one), Lexeme::Word(other)) => one == other,
        (Lexeme::Quoted(one), Lexeme::Quoted(other)) => one == other,
        (Lexeme::Braces(one), Lexeme::Braces(other)) => one == other,
        _ => false,
    }
}
