ghost use Rattle.std.specs.Prelude.{◌<◌, IfSome};
ghost use Rattle.am_universe.specs.declared.limits.TheConstants.{MAX_LABELS};
ghost use Rattle.am_universe.specs.Universe.{sizes};
ghost use Rattle.am_questions.specs.Inputs.{inputs_of};
ghost use Rattle.am_files.specs.Promise.{IsKept};
ghost use Rattle.am_search.specs.Start.{IsStart};
ghost use Rattle.am_commands.specs.AskOutcome.{ask_promise, page_promise};

use am_files::Files;
use am_plans::Plan;
use am_questions::{AcceptedInputs, read_inputs};
use am_search::{Answers, Page, Trailer, write_page};
use am_universe::{Fault, LineTable, Sink, answer_of_write};
use std::alloc::Global;

/// Writes the label sets of a universe that satisfy a question, in declared order and each once, a
/// line for each, and then the trailer.
///
/// `universe` is a universe file. `files` has the configuration, the silences, the firing alerts
/// and the instant, each of which is optional, and `question` is a question about them. `page` says
/// where the lines begin, how many lines there are at most, and how many prefixes of choices the
/// search may judge. Returns the trailer, whose token a rerun takes to go on there:
///
/// - `Next` with the last choice that was written, if the answers that were found are more than the
///   limit;
/// - else `Stopped` with the next prefix to judge, if the budget left one out;
/// - else `End`.
///
/// All input is read before the first byte is written. Each line is written before the search for
/// the next label set begins.
///
/// Fails with the first of these faults:
///
/// - at `Universe`, those of `read_universe`;
/// - at `Config`, those of `read_config`;
/// - at `Silences`, those of `read_silences`;
/// - at `Alerts`, those of `read_alerts`;
/// - at `Instant`, with no pointer: `BadTime` for a text that is no instant, and `NeedAt` for a
///   file of silences without an instant;
/// - at `Alerts`, with no pointer: `Limit`, as `World::new` counts pairs of rules and alerts;
/// - at `Question`, with no pointer, those of `parse_question`;
/// - at `Token`, with no pointer, those of `parse_token`;
/// - `Write`.
///
/// `Memory` may come at any point. After any fault but `Write` the sink is unchanged; after `Write`
/// it has taken a prefix of the page.
///
/// The search skips a prefix if the plan's cubes show that no completion is an answer, and it
/// writes all completions without judging each if all are answers. Where neither shows early, time
/// grows with the product of the numbers of values, unless a budget stops the search. Memory does
/// not grow with the number of answers.
pub fn ask<W: Sink>(
    alloc: Global,
    universe: &[u8],
    files: &Files<'_>,
    question: &str,
    page: &Page<'_>,
    out: &mut W,
) -> Result<Trailer, Fault>
    requires limit { IfSome page.now.limit (λ n. 0 < n) }
    requires steps { IfSome page.now.steps (λ n. MAX_LABELS < n) }

    // The page of the answers is written, and its trailer is returned. A refusal is the first fault
    // of the inputs.
    ensures kept { IsKept (ask_promise
        (inputs_of universe.now files.now question.now page.now) page.now.limit page.now.steps)
        W.taken W.failures out.old out.new result }
{
    let accepted = read_inputs(alloc, universe, files, question, page)?;
    write_answers(alloc, &accepted, page.limit, page.steps, out)
}

/// Writes the page of the answers to an accepted question, from its start on, under the limit and
/// the budget of steps if there are any. Returns the trailer. `Memory` comes before the first byte
/// is written.
fn write_answers<W: Sink>(
    alloc: Global,
    accepted: &AcceptedInputs,
    limit: Option<u64>,
    steps: Option<u64>,
    out: &mut W,
) -> Result<Trailer, Fault>
    requires limit { IfSome limit (λ n. 0 < n) }
    requires start { IsStart (sizes accepted.now.space.labels) accepted.now.start }
    ensures kept { IsKept (page_promise accepted.now limit steps)
        W.taken W.failures out.old out.new result }
{
    let Ok(judge) = Plan::new(alloc, &accepted.space, &accepted.world, &accepted.question) else {
        return Err(Fault::memory(alloc));
    };
    let Ok(mut table) = LineTable::of(alloc, accepted.space.universe()) else {
        return Err(Fault::memory(alloc));
    };
    let mut answers = Answers::from(&judge, accepted.start, steps);
    let written = write_page(&mut table, &mut answers, limit, &accepted.fingerprint, out);
    answer_of_write(alloc, written)
}
