ghost use Rattle.std.specs.Prelude.{◌≡◌, [], option_copied, string_bytes, IfOk, IfErr};
ghost use Rattle.am_universe.specs.declared.place.Place.TheVariants as places;
ghost use Rattle.am_json.specs.Reading.{IsRefusalAt};
ghost use Rattle.am_files.specs.Promise.{IsKept};
ghost use Rattle.am_eval.specs.QuestionView.{question_view};
ghost use Rattle.am_config.specs.ConfigView.{config_view};
ghost use Rattle.am_questions.specs.QuestionText.{ReadsQuestion, QuestionRefusedFor};
ghost use Rattle.am_report_texts.specs.Written.{IsWritten};
ghost use Rattle.am_alerts.specs.SilenceIds.{ids_of_file};
ghost use Rattle.am_alerts.specs.AlertLines.{alerts_report, lines_of};
ghost use Rattle.am_alerts.specs.Alerts.{asked_text, alerts_promise};

use crate::alert_lines::alerts_report;
use crate::outcomes::Outcomes;
use crate::silence_ids::silence_names;
use am_config::Config;
use am_eval::{Question, World};
use am_files::{Files, read_world};
use am_questions::parse_question;
use am_report_texts::{Form, written};
use am_universe::{Fault, Place, Sink, answer_of_write, put_str};
use std::alloc::{AllocError, Global};

/// Writes the alerts of an export of which a question is true, in the order of the file, and then
/// `# end`. Without a question it writes all alerts. In the form of JSON, each line is an object.
///
/// Each line has the position of the alert in the file, from 0, its labels, the receivers to which
/// it goes, the silences that hide it, the inhibition rules and firing alerts that inhibit it, and
/// the time intervals of its routes, since they may mute it and are not evaluated.
/// A silence is named by its `id` if the file has one, and else by its position. Rules and firing
/// alerts are named by their positions. `files` has the configuration, the silences, the firing
/// alerts and the instant, each of which is optional. All input is read and all results are found
/// before the first byte is written.
///
/// Fails with the first of these faults:
///
/// - at `Config`, `Silences`, `Alerts` or `Instant`, those of `read_world`;
/// - at `Question`, with no pointer, those of `parse_question`;
/// - `Write`.
///
/// `Memory` may come at any point. After any fault but `Write` the sink is unchanged; after `Write`
/// it has taken a prefix of the report.
pub fn alerts<W: Sink>(
    alloc: Global,
    files: &Files<'_>,
    question: Option<&str>,
    form: Form,
    out: &mut W,
) -> Result<(), Fault>
    // Exactly the alerts of which the question is true are written, each with exactly its
    // receivers, its silences, the rules and alerts that inhibit it, and its time intervals.
    ensures kept { IsKept (alerts_promise files.now (option_copied question.entry) form)
        W.taken W.failures out.old out.new result }
{
    let world = read_world(alloc, files)?;
    let question = read_question(alloc, question, world.config())?;
    let Ok(text) = report_text(alloc, files, &world, &question, form) else {
        return Err(Fault::memory(alloc));
    };
    answer_of_write(alloc, put_str(out, text.as_str()))
}

/// Returns the report of the alerts of the world of some files of which a question is true. Fails
/// only if memory runs out.
fn report_text(
    alloc: Global,
    files: &Files<'_>,
    world: &World,
    question: &Question,
    form: Form,
) -> Result<String, AllocError>
    ensures { IfOk result (λ text. IsWritten form (alerts_report world.now.config
        (lines_of world.now (ids_of_file files.now.silences) (question_view question.now)))
        (string_bytes text)) }
{
    let names = silence_names(alloc, files.silences, world.silences().len())?;
    let outcomes = Outcomes::of(alloc, world)?;
    let report = alerts_report(alloc, &outcomes, names.as_slice(), question)?;
    written(alloc, form, &report)
}

/// Reads the question that a text asks about a configuration, as `parse_question` does. Without a
/// text it is `any`. Its faults are at `Question`.
fn read_question(alloc: Global, asked: Option<&str>, config: &Config) -> Result<Question, Fault>
    ensures reads { IfOk result (λ question. ReadsQuestion (config_view config.now)
        (asked_text (option_copied asked.entry)) (question_view question)) }
    ensures refused { IfErr result (IsRefusalAt places.Question (λ r.
        QuestionRefusedFor (config_view config.now) (asked_text (option_copied asked.entry)) r.kind
        × (r.pointer ≡ []))) }
{
    match parse_question(alloc, asked_text(asked), config) {
        Ok(question) => Ok(question),
        Err(kind) => Err(Fault::at(alloc, kind, Place::Question)),
    }
}

/// The text of the question.
fn asked_text<'a>(asked: Option<&'a str>) -> &'a str
    ensures { result.now ≡ asked_text (option_copied asked.entry) }
{
    match asked {
        Some(text) => text,
        None => "any",
    }
}
