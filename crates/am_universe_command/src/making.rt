//! Makes universes that stand for every alert.

ghost use Rattle.std.specs.Prelude.{◌≢◌, ◌<◌, Some, IfOk, IfErr};
ghost use Rattle.std.specs.Prelude.{map, string_bytes};
ghost use Rattle.am_universe.specs.declared.kind.Kind.TheVariants as kinds;
ghost use Rattle.am_universe.specs.Universe.{HaveLabelNames};
ghost use Rattle.am_json.specs.Reading.{refusal_of};
ghost use Rattle.am_list_files.specs.UniverseFile.{AreTextsOfLists};
ghost use Rattle.am_eval.specs.QuestionView.{question_view};
ghost use Rattle.am_files.specs.Promise.{IsKept};
ghost use Rattle.am_universe_command.specs.Universes.{IsMadeFor, IsMadeUniverse};
ghost use Rattle.am_universe_command.specs.Universes.{IsMakingRefusal};
ghost use Rattle.am_universe_command.specs.Universes.{universe_promise};

use crate::asked_labels::labels_asked;
use crate::read_inputs::{ReadInputs, read_inputs};
use crate::universe_file::universe_text;
use crate::{UniverseForm, UniverseInputs};
use am_asked::{equal_matchers_of, universe_for, unproved_fault};
use am_complete::AllowedNames;
use am_json::limits::MAX_FILE_BYTES;
use am_universe::{Fault, Kind, Place, Sink, Universe, answer_of_write, put_str};
use std::alloc::Global;

/// Writes the file of a universe that stands for every alert whose texts are over the alphabet of
/// the form.
///
/// The universe keeps the labels, values and impossible lists of the universe file, if there is
/// one. For each label that the matchers of the files, of the questions and of the impossible lists
/// ask about, it has a value for each class of texts that these cannot tell apart. With `routes` in
/// the form, matchers of silences and inhibition rules do not count. If the form is open, the
/// universe may lack values of unproved labels. All input is read and the whole universe is made
/// before the first byte is written.
///
/// Fails with the first of these faults:
///
/// - at `Universe`, those of `read_universe`;
/// - at `Config`, those of `read_config`;
/// - at `Silences`, those of `read_silences`;
/// - at `Alerts`, those of `read_alerts`;
/// - at `Alerts`, with no pointer: `Limit`, as `World::new` counts pairs of rules and alerts;
/// - at `Question`, those of `parse_question`, with `/` and the position of the question as the
///   pointer;
/// - `Limit`, at `Universe` and with no pointer, if a label needs more values than a label may
///   have, or if more labels have to be declared than a universe may have;
/// - `Unproved`, unless the form is open, if the classes of a label could not be computed, or if a
///   label needs a value and its name is no label name; at the file, or at `Question`, and with the
///   pointer of the route, rule, silence, question or impossible list that first asks about the
///   first such label;
/// - `Limit`, at `Universe` and with no pointer, if the file of the universe would have more bytes
///   than a file may have;
/// - `Write`.
///
/// `Memory` may come at any point. After any fault but `Write` the sink is unchanged; after `Write`
/// it has taken a prefix of the file.
pub fn universe<W: Sink>(
    alloc: Global,
    inputs: &UniverseInputs<'_>,
    form: UniverseForm,
    out: &mut W,
) -> Result<(), Fault>
    // The file says a universe that keeps the given labels and values and, unless it is open, is
    // complete for the matchers that decide, with the same impossible lists. No value is added that
    // is not needed, or that may not stand for its class.
    ensures kept { IsKept (universe_promise inputs.now form)
        W.taken W.failures out.old out.new result }
{
    let read = read_inputs(alloc, inputs)?;
    let text = made_text(alloc, &read, form)?;
    answer_of_write(alloc, put_str(out, text.as_str()))
}

/// Makes the text of the universe file for the inputs.
fn made_text(alloc: Global, read: &ReadInputs, form: UniverseForm) -> Result<String, Fault>
    requires texts { AreTextsOfLists (map string_bytes read.now.texts.items)
        read.now.space.impossible }
    requires named { HaveLabelNames read.now.space.labels }
    ensures made { IfOk result (λ text. IsMadeUniverse form read.now.space
        (map string_bytes read.now.texts.items) read.now.world
        (map question_view read.now.questions.items) (string_bytes text)) }
    ensures refused { IfErr result (λ fault. fault.kind ≢ kinds.Memory
        → IsMakingRefusal form read.now.space (map string_bytes read.now.texts.items)
        read.now.world (map question_view read.now.questions.items) fault.place
        (refusal_of fault)) }
{
    let universe = made_universe(alloc, read, form)?;
    let Ok(text) = universe_text(alloc, &universe, read.texts.as_slice()) else {
        return Err(Fault::memory(alloc));
    };
    if text.as_str().len() > MAX_FILE_BYTES {
        return Err(Fault::at(alloc, Kind::Limit, Place::Universe));
    }
    Ok(text)
}

/// Makes the universe for the inputs.
fn made_universe(alloc: Global, read: &ReadInputs, form: UniverseForm) -> Result<Universe, Fault>
    ensures made { IfOk result (IsMadeFor form read.now.space read.now.world
        (map question_view read.now.questions.items)) }
    ensures refused { IfErr result (λ fault. fault.kind ≢ kinds.Memory
        → IsMakingRefusal form read.now.space (map string_bytes read.now.texts.items)
        read.now.world (map question_view read.now.questions.items) fault.place
        (refusal_of fault)) }
{
    let world = &read.world;
    let Ok(equal) = equal_matchers_of(alloc, world) else {
        return Err(Fault::memory(alloc));
    };
    let Ok(asked) = labels_asked(alloc, read, equal.as_slice(), form.routes) else {
        return Err(Fault::memory(alloc));
    };
    let labels = asked.as_slice();
    let found = universe_for(
        alloc,
        form.alphabet,
        AllowedNames::OfFiles,
        form.open,
        &read.space,
        labels,
        Some(world.alerts()),
    )?;
    match found {
        Ok(universe) => Ok(universe),
        Err(label) => Err(unproved_fault(alloc, &label.first())),
    }
}
