//! Reading a question: what the names, paths and matcher lists of a tree mean.

ghost use Rattle.std.specs.Prelude.{◌≡◌, ◌≢◌, ℕ, List, IfOk, IfErr};
ghost use Rattle.am_universe.specs.declared.kind.Kind.TheVariants as kinds;
ghost use Rattle.am_config.specs.ConfigView.{config_view};
ghost use Rattle.am_eval.specs.Tree.{Part};
ghost use Rattle.am_questions.specs.QuestionText.{ReadsQuestion, QuestionRefusedFor, TreeMeans};
ghost use Rattle.am_questions.specs.QuestionText.{parts_of, PartsRefusedFor, PartRefusedFor};
ghost use Rattle.am_questions.specs.QuestionText.{IsPathOfRoute};
ghost use Rattle.am_questions.specs.TreeView.{tree_view, written_view};
ghost use Rattle.am_eval.specs.QuestionView.{question_view};

use crate::grammar::{Connective, Tree, Written, read_tree};
use crate::lexemes::read_lexemes;
use crate::limits::MAX_LEXEMES;
use am_config::{Config, Path};
use am_eval::Question;
use am_labels::parse_matchers;
use am_universe::Kind;
use std::alloc::Global;

/// Reads a question about a configuration.
///
/// Fails with the first of: `QuestionSyntax`, the text is not made of lexemes; `Limit`, there are
/// more than [`MAX_LEXEMES`] of them; `QuestionSyntax`, they do not make a question; and then, part
/// by part from left to right, `UnknownReceiver`, the configuration does not declare the receiver,
/// `UnknownRoute`, it has no such route, or a refusal of `parse_matchers`. `Memory` comes only if
/// memory runs out.
pub fn parse_question(alloc: Global, text: &str, config: &Config) -> Result<Question, Kind>
    ensures read { IfOk result (λ question.
        ReadsQuestion (config_view config.now) text.now (question_view question)) }
    ensures refused { IfErr result (λ kind. kind ≢ kinds.Memory
        → QuestionRefusedFor (config_view config.now) text.now kind) }
{
    let lexemes = read_lexemes(alloc, text)?;
    if lexemes.len() > MAX_LEXEMES {
        return Err(Kind::Limit);
    }
    let tree = read_tree(alloc, lexemes.as_slice())?;
    question_of(alloc, config, &tree)
}

/// Returns the question that a tree means. Fails as the first of its simple parts that fails.
fn question_of(alloc: Global, config: &Config, tree: &Tree<'_>) -> Result<Question, Kind>
    ensures meant { IfOk result (λ question.
        TreeMeans (config_view config.now) (tree_view tree.now) (question_view question)) }
    ensures refused { IfErr result (λ kind. kind ≢ kinds.Memory
        → PartsRefusedFor (config_view config.now) (parts_of (tree_view tree.now)) kind) }
{
    match tree {
        Tree::Part(written) => part_of(alloc, config, written),
        Tree::Not(tree) => {
            let question = question_of(alloc, config, tree)?;
            Ok(Question::Not(Box::new(alloc, question)?))
        }
        Tree::Joined(connective, left, right) => {
            let left = question_of(alloc, config, left)?;
            let right = question_of(alloc, config, right)?;
            let (left, right) = (Box::new(alloc, left)?, Box::new(alloc, right)?);
            match connective {
                Connective::And => Ok(Question::And(left, right)),
                Connective::Or => Ok(Question::Or(left, right)),
            }
        }
    }
}

/// Returns the question that a simple part means.
fn part_of(alloc: Global, config: &Config, written: &Written<'_>) -> Result<Question, Kind>
    ensures meant { IfOk result (λ question. TreeMeans (config_view config.now)
        (Part (written_view written.now)) (question_view question)) }
    ensures refused { IfErr result (λ kind. kind ≢ kinds.Memory
        → PartRefusedFor (config_view config.now) (written_view written.now) kind) }
{
    match written {
        Written::Is(property) => Ok(Question::property(*property)),
        Written::Receiver(name) => match config.receiver_position(name) {
            Some(receiver) => Ok(Question::receiver(receiver)),
            None => Err(Kind::UnknownReceiver),
        },
        Written::Route(reach, text) => Ok(Question::route(*reach, path_of_route(config, text)?)),
        Written::Braces(text) => Ok(Question::Braces(parse_matchers(alloc, text)?)),
    }
}

/// Returns the path with this text, if the configuration has a route there. Fails with
/// `UnknownRoute` if it has none.
fn path_of_route(config: &Config, text: &str) -> Result<Path, Kind>
    ensures found { IfOk result (λ path.
        IsPathOfRoute (config_view config.now) text.now path) }
    ensures none { IfErr result (λ kind. (kind ≡ kinds.UnknownRoute)
        × ((path : List ℕ) → IsPathOfRoute (config_view config.now) text.now path → ⊥)) }
{
    let Ok(path) = Path::parse(text) else {
        return Err(Kind::UnknownRoute);
    };
    match config.at(&path) {
        Some(_) => Ok(path),
        None => Err(Kind::UnknownRoute),
    }
}
