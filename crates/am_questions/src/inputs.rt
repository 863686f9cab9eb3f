ghost use Rattle.std.specs.Prelude.{◌≡◌, [], option_copied, IfOk, IfErr};
ghost use Rattle.am_universe.specs.declared.place.Place.TheVariants as places;
ghost use Rattle.am_json.specs.Reading.{IsRefusalAt};
ghost use Rattle.am_universe.specs.Universe.{sizes};
ghost use Rattle.am_search.specs.Start.{IsStart};
ghost use Rattle.am_eval.specs.QuestionView.{question_view};
ghost use Rattle.am_files.specs.Faults.{IsFirstFault};
ghost use Rattle.am_questions.specs.Inputs.{inputs_of, AcceptsInputs, ask_stages};
ghost use Rattle.am_questions.specs.Inputs.{inputs_fingerprint};
ghost use Rattle.am_questions.specs.AskedStart.{AsksStart, StartRefusedFor};

use crate::fingerprints::fingerprint;
use crate::names::parse_question;
use am_eval::{Question, World};
use am_files::{Files, read_world};
use am_labels::Space;
use am_list_files::read_universe;
use am_search::{Page, Start, parse_token};
use am_universe::{Choice, Fault, Place};
use std::alloc::Global;

/// What the inputs of a question say, if they are accepted.
#[derive(Drop)]
pub struct AcceptedInputs {
    pub space: Space,
    pub world: World,
    pub question: Question,
    pub start: Start,
    /// The fingerprint of the inputs, which the token of a later page has.
    pub fingerprint: [u8; 16],
}

/// Reads the inputs of a question: the universe file, the world, the question, and then the token.
///
/// The token says where the answers begin, and may name a choice that is impossible. Fails with the
/// first fault, at `Universe`, at a place of [`read_world`], at `Question` or at `Token`. If memory
/// runs out, it is `Memory`.
pub fn read_inputs(
    alloc: Global,
    universe: &[u8],
    files: &Files<'_>,
    question: &str,
    page: &Page<'_>,
) -> Result<AcceptedInputs, Fault>
    ensures accepts { IfOk result (λ accepted. AcceptsInputs
        (inputs_of universe.now files.now question.now page.now)
        accepted.space accepted.world (question_view accepted.question) accepted.start) }
    ensures start { IfOk result (λ accepted.
        IsStart (sizes accepted.space.labels) accepted.start) }
    ensures fingerprint { IfOk result (λ accepted. accepted.fingerprint
        ≡ inputs_fingerprint (inputs_of universe.now files.now question.now page.now)) }
    ensures first { IfErr result (IsFirstFault
        (ask_stages (inputs_of universe.now files.now question.now page.now))) }
{
    let fingerprint = fingerprint(universe, files, question);
    let space = read_universe(alloc, universe)?;
    let world = read_world(alloc, files)?;
    let question = match parse_question(alloc, question, world.config()) {
        Ok(question) => question,
        Err(kind) => return Err(Fault::at(alloc, kind, Place::Question)),
    };
    let start = read_start(alloc, page.after, &space, &fingerprint)?;
    Ok(AcceptedInputs {
        space,
        world,
        question,
        start,
        fingerprint,
    })
}

/// Reads the start that a token stands for. Without a token it is the start of all choices. Fails
/// with `BadToken` or `OtherInputs`, at `Token`, as `parse_token` does. Takes no memory.
fn read_start(
    alloc: Global,
    after: Option<&str>,
    space: &Space,
    fingerprint: &[u8; 16],
) -> Result<Start, Fault>
    ensures starts { IfOk result
        (AsksStart space.now.labels fingerprint.now (option_copied after.entry)) }
    ensures refused { IfErr result (IsRefusalAt places.Token (λ r. (r.pointer ≡ [])
        × StartRefusedFor space.now.labels fingerprint.now (option_copied after.entry) r.kind)) }
{
    let Some(token) = after else {
        return Ok(Start::At(Choice::empty()));
    };
    match parse_token(token, space.universe(), fingerprint) {
        Ok(start) => Ok(start),
        Err(kind) => Err(Fault::at(alloc, kind, Place::Token)),
    }
}
