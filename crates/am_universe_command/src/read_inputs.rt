//! Reads the inputs for which a universe is made or checked.

ghost use Rattle.std.specs.Prelude.{◌≡◌, ◌≢◌, ◌++◌, [], ◌∷◌, map, codes, decimal, string_bytes};
ghost use Rattle.std.specs.Prelude.{option_copied, IfOk, IfErr, OnOk};
ghost use Rattle.am_universe.specs.declared.kind.Kind.TheVariants as kinds;
ghost use Rattle.am_universe.specs.declared.place.Place.TheVariants as places;
ghost use Rattle.am_json.specs.Reading.{IsRefusalAt};
ghost use Rattle.am_list_files.specs.UniverseFile.{AreTextsOfLists};
ghost use Rattle.am_config.specs.ConfigView.{config_view};
ghost use Rattle.am_eval.specs.QuestionView.{question_view};
ghost use Rattle.am_files.specs.Faults.{IsFirstFault, UniverseRefusedFor};
ghost use Rattle.am_files.specs.Files.{SaysUniverseIfAny};
ghost use Rattle.am_questions.specs.QuestionText.{ReadsQuestion, QuestionRefusedFor};
ghost use Rattle.am_universe_command.specs.UniverseInputs.{HasListsIfAny, ReadsQuestions};
ghost use Rattle.am_universe_command.specs.UniverseInputs.{QuestionsRefusedFor};
ghost use Rattle.am_universe_command.specs.UniverseInputs.{AcceptsUniverseInputs};
ghost use Rattle.am_universe_command.specs.UniverseInputs.{universe_input_stages};

use crate::UniverseInputs;
use am_config::Config;
use am_eval::{Question, World};
use am_files::read_timeless_world;
use am_labels::Space;
use am_list_files::read_universe_with_texts;
use am_questions::parse_question;
use am_universe::{Fault, Kind, Place, Universe};
use std::alloc::Global;

/// What the inputs say.
#[derive(Drop)]
pub(crate) struct ReadInputs {
    pub space: Space,
    /// The texts of the impossible lists of the space.
    pub texts: Vec<String>,
    pub world: World,
    pub questions: Vec<Question>,
}

/// Reads the inputs: the universe file, if there is one, the other files, and then the questions.
/// Fails with the first fault.
pub(crate) fn read_inputs(alloc: Global, inputs: &UniverseInputs<'_>) -> Result<ReadInputs, Fault>
    ensures accepts { IfOk result (λ read. AcceptsUniverseInputs inputs.now
        read.space read.world (map question_view read.questions.items)) }
    ensures texts { IfOk result (λ read.
        AreTextsOfLists (map string_bytes read.texts.items) read.space.impossible) }
    ensures lists { IfOk result (λ read.
        HasListsIfAny inputs.now.universe (map string_bytes read.texts.items)) }
    ensures first { IfErr result (IsFirstFault (universe_input_stages inputs.now)) }
{
    let (space, texts) = read_universe_and_texts(alloc, inputs.universe)?;
    let world = read_timeless_world(alloc, inputs.files)?;
    let questions = read_questions(alloc, inputs.questions, world.config())?;
    Ok(ReadInputs {
        space,
        texts,
        world,
        questions,
    })
}

/// Reads the space of a universe file, with the texts of its impossible lists. Without a file the
/// space has no label, and nothing is impossible. Fails as `read_universe` does.
fn read_universe_and_texts(
    alloc: Global,
    file: Option<&[u8]>,
) -> Result<(Space, Vec<String>), Fault>
    ensures says { IfOk result (λ read. SaysUniverseIfAny (option_copied file.entry) read.0) }
    ensures texts { IfOk result (λ read.
        AreTextsOfLists (map string_bytes read.1.items) read.0.impossible) }
    ensures lists { IfOk result (λ read.
        HasListsIfAny (option_copied file.entry) (map string_bytes read.1.items)) }
    ensures first { IfErr result (IsRefusalAt places.Universe
        (UniverseRefusedFor (option_copied file.entry))) }
{
    match file {
        Some(bytes) => read_universe_with_texts(alloc, bytes),
        None => Ok((Space::of(alloc, Universe::empty(alloc)), Vec::new(alloc))),
    }
}

/// Reads questions about a configuration, one after another. Fails with the first fault.
fn read_questions(alloc: Global, texts: &[&str], config: &Config) -> Result<Vec<Question>, Fault>
    ensures reads { IfOk result (λ questions. ReadsQuestions (config_view config.now)
        (map (λ text. text.now) texts.now) (map question_view questions.items)) }
    ensures refused { IfErr result (IsRefusalAt places.Question
        (QuestionsRefusedFor (config_view config.now) (map (λ text. text.now) texts.now))) }
{
    let mut questions = Vec::new(alloc);
    for i in 0..texts.len() {
        let question = read_question(alloc, i, texts[i], config)?;
        add_question(alloc, &mut questions, question)?;
    }
    Ok(questions)
}

/// Adds a question. Fails only if memory runs out.
fn add_question(
    alloc: Global,
    questions: &mut Vec<Question>,
    question: Question,
) -> Result<(), Fault>
    ensures added { OnOk result (questions.new.items ≡ questions.old.items ++ question ∷ []) }
    ensures memory { IfErr result (λ fault. fault.kind ≡ kinds.Memory) }
{
    match questions.push(question) {
        Ok(()) => Ok(()),
        Err(_) => Err(Fault::memory(alloc)),
    }
}

/// Reads the question at a position. The pointer of a fault leads to that position.
fn read_question(
    alloc: Global,
    position: usize,
    text: &str,
    config: &Config,
) -> Result<Question, Fault>
    ensures reads { IfOk result (λ question.
        ReadsQuestion (config_view config.now) text.now (question_view question)) }
    ensures refused { IfErr result (IsRefusalAt places.Question (λ r.
        QuestionRefusedFor (config_view config.now) text.now r.kind
        × (r.pointer ≡ codes "/" ++ decimal position))) }
{
    match parse_question(alloc, text, config) {
        Ok(question) => Ok(question),
        Err(kind) => Err(fault_of_question(alloc, position, kind)),
    }
}

/// The fault of the question at a position.
fn fault_of_question(alloc: Global, position: usize, kind: Kind) -> Fault
    ensures kind { result.kind ≢ kinds.Memory → result.kind ≡ kind }
    ensures place { result.kind ≢ kinds.Memory → kind ≢ kinds.Write
        → result.place ≡ places.Question }
    ensures pointer { result.kind ≢ kinds.Memory → kind ≢ kinds.Write
        → string_bytes result.pointer ≡ codes "/" ++ decimal position }
{
    match format!(in alloc; "/{position}") {
        Ok(pointer) => Fault::within(kind, Place::Question, pointer),
        Err(_) => Fault::memory(alloc),
    }
}
