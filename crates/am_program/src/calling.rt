//! The call of a command.

ghost use Rattle.std.specs.Prelude.{◌≡◌, ◌<◌, IfSome, option_map, MatchResult, Ok, Err, false};
ghost use Rattle.std.specs.Prelude.{nat_lt};
ghost use Rattle.std.specs.Int.NonZero.{non_zero_u64_get};
ghost use Rattle.am_universe.specs.declared.limits.TheConstants.{MAX_LABELS};
ghost use Rattle.am_command_line.specs.StepsView.{step_count};
ghost use Rattle.am_files.specs.Promise.{IsKept};
ghost use Rattle.am_program.specs.Requests.{alphabet_of, bytes_of, files_of, form_of, promise_of};
ghost use Rattle.am_program.specs.Requests.{report_inputs, world_inputs};

use am_alerts::alerts;
use am_classes::Alphabet;
use am_command_line::{Call, Request, Steps};
use am_commands::{ask, dead, explain_words, receivers};
use am_files::Files;
use am_report_texts::Form;
use am_reports::{
    CompareInputs, ReportInputs, WorldInputs, compare, lint, outcomes, routes, where_alerts_go,
};
use am_search::Page;
use am_universe::{Fault, Sink};
use am_universe_command::{UniverseForm, UniverseInputs, check_universe, universe};
use std::alloc::Global;
use std::num::NonZeroU64;

/// Makes the call that a command line asks for. Returns whether it found something wrong, or a
/// change, which only `lint` and `compare` look for. The faults are those of the call.
pub fn make_call<W: Sink>(alloc: Global, call: &Call<'_>, out: &mut W) -> Result<bool, Fault>
    ensures kept { IsKept (promise_of call.now) W.taken W.failures out.old out.new result }
{
    let given = call.universe.as_deref();
    let files = &files_of(call);
    let form = form_of(call.json);
    match &call.request {
        Request::Lint { ascii } => {
            let inputs = world_inputs(call, files, *ascii);
            lint(alloc, &inputs, out)
        }
        Request::Where { ascii, receivers } => {
            let inputs = world_inputs(call, files, *ascii);
            nothing_found(where_alerts_go(alloc, &inputs, receivers.as_slice(), out))
        }
        Request::Routes { ascii, receivers } => {
            let inputs = report_inputs(call, files, *ascii);
            nothing_found(routes(alloc, &inputs, receivers.as_slice(), out))
        }
        Request::Compare { ascii } => {
            let inputs = CompareInputs {
                universe: given,
                old: bytes_of(&call.old),
                new: bytes_of(&call.new),
                rules: call.rules.as_deref(),
                alphabet: alphabet_of(*ascii),
                form,
            };
            something_found(compare(alloc, &inputs, out))
        }
        Request::Outcomes { ascii } => {
            let inputs = report_inputs(call, files, *ascii);
            nothing_found(outcomes(alloc, &inputs, out))
        }
        Request::Ask {
            question,
            after,
            limit,
            steps,
        } => {
            let page = Page {
                after: *after,
                limit: limit_of(*limit),
                steps: steps_of(*steps),
            };
            let universe = bytes_of(&call.universe);
            nothing_found(ask(alloc, universe, files, question, &page, out))
        }
        Request::Dead => {
            nothing_found(dead(alloc, bytes_of(&call.universe), files.config(), out))
        }
        Request::Receivers => {
            nothing_found(receivers(alloc, bytes_of(&call.universe), files.config(), out))
        }
        Request::Explain { set } => {
            nothing_found(explain_words(alloc, files, set.as_slice(), out))
        }
        Request::Alerts { question } => nothing_found(alerts(alloc, files, *question, form, out)),
        Request::Universe {
            routes,
            ascii,
            open,
            questions,
        } => {
            let inputs = UniverseInputs {
                universe: given,
                files,
                questions: questions.as_slice(),
            };
            let form = UniverseForm {
                routes: *routes,
                alphabet: alphabet_of(*ascii),
                open: *open,
            };
            nothing_found(universe(alloc, &inputs, form, out))
        }
        Request::CheckUniverse {
            routes,
            ascii,
            questions,
        } => {
            let inputs = UniverseInputs {
                universe: given,
                files,
                questions: questions.as_slice(),
            };
            nothing_found(check_universe(alloc, &inputs, *routes, alphabet_of(*ascii), out))
        }
    }
}

/// The answer of a call that counts changes: whether there are any.
fn something_found(count: Result<usize, Fault>) -> Result<bool, Fault>
    ensures { MatchResult count (λ n. result ≡ Ok (nat_lt 0 n)) (λ fault. result ≡ Err fault) }
{
    match count {
        Ok(count) => Ok(count > 0),
        Err(fault) => Err(fault),
    }
}

/// The answer of a call that looks for nothing wrong: it has found nothing.
fn nothing_found<T: Drop>(answer: Result<T, Fault>) -> Result<bool, Fault>
    ensures { MatchResult answer (λ _. result ≡ Ok false) (λ fault. result ≡ Err fault) }
{
    match answer {
        Ok(_) => Ok(false),
        Err(fault) => Err(fault),
    }
}

/// The inputs of `lint` and of `where`.
fn world_inputs<'a>(call: &'a Call<'_>, files: &'a Files<'a>, ascii: bool) -> WorldInputs<'a>
    requires { files.now ≡ files_of call.now }
    ensures { result ≡ world_inputs call.now ascii }
{
    WorldInputs {
        universe: call.universe.as_deref(),
        files,
        rules: call.rules.as_deref(),
        alphabet: alphabet_of(ascii),
        form: form_of(call.json),
    }
}

/// The inputs of `routes` and of `outcomes`.
fn report_inputs<'a>(call: &'a Call<'_>, files: &'a Files<'a>, ascii: bool) -> ReportInputs<'a>
    requires { files.now ≡ files_of call.now }
    ensures { result ≡ report_inputs call.now ascii }
{
    ReportInputs {
        universe: call.universe.as_deref(),
        config: files.config(),
        alphabet: alphabet_of(ascii),
        form: form_of(call.json),
    }
}

/// The files of a call, but for those of a universe and of a comparison.
fn files_of<'a>(call: &'a Call<'_>) -> Files<'a>
    ensures { result ≡ files_of call.now }
{
    Files {
        config: call.config.as_deref(),
        silences: call.silences.as_deref(),
        alerts: call.alerts.as_deref(),
        at: call.at,
    }
}

/// The bytes of a file that the request needs. The command line makes sure that it is given.
fn bytes_of(file: &Option<Vec<u8>>) -> &[u8]
    ensures { result.now ≡ bytes_of file.now }
{
    match file {
        Some(bytes) => bytes.as_slice(),
        None => &[],
    }
}

/// The alphabet of the alerts that count.
fn alphabet_of(ascii: bool) -> Alphabet
    ensures { result ≡ alphabet_of ascii }
{
    if ascii {
        Alphabet::Ascii
    } else {
        Alphabet::Unicode
    }
}

/// The form of a report.
fn form_of(json: bool) -> Form
    ensures { result ≡ form_of json }
{
    if json { Form::Json } else { Form::Lines }
}

/// The most lines of a page, if there is a limit.
fn limit_of(limit: Option<NonZeroU64>) -> Option<u64>
    ensures limit { result ≡ option_map non_zero_u64_get limit }
    ensures some { IfSome result (λ n. 0 < n) }
{
    match limit {
        Some(limit) => Some(limit.get()),
        None => None,
    }
}

/// The most prefixes that a page may judge, if there is a budget.
fn steps_of(steps: Option<Steps>) -> Option<u64>
    ensures steps { result ≡ option_map step_count steps }
    ensures enough { IfSome result (λ n. MAX_LABELS < n) }
{
    match steps {
        Some(steps) => Some(steps.get()),
        None => None,
    }
}
