//! What to type after a refusal.

use crate::bad_matchers::{add_bad_text, add_bad_words};
use crate::likeness::Likeness;
use crate::not_json::add_not_json;
use crate::notes::Notes;
use crate::receivers::add_similar_receivers;
use crate::sentences::looks_like;
use crate::stray_words::add_question_syntax;
use am_command_line::{Call, NOW, Request};
use am_json::limits::MAX_FILE_BYTES;
use am_json::read_json;
use am_universe::{Fault, Kind, Place};
use std::alloc::{AllocError, Global};

/// Adds the remedy for a fault, if one is known.
pub(crate) fn add_remedy(
    alloc: Global,
    notes: &mut Notes,
    call: &Call<'_>,
    fault: &Fault,
) -> Result<(), AllocError> {
    match fault.kind {
        Kind::NotJson => match file_at(call, fault.place) {
            Some(bytes) => add_not_json(alloc, notes, bytes, fault.place),
            None => Ok(()),
        },
        Kind::Shape | Kind::UnknownField => add_likeness(alloc, notes, call, fault.place),
        Kind::BadMatcher => match file_at(call, fault.place) {
            Some(bytes) => add_bad_text(alloc, notes, bytes, fault.pointer.as_str()),
            None => add_bad_words(alloc, notes, call, fault),
        },
        Kind::QuestionSyntax => add_question_syntax(alloc, notes, call, fault),
        Kind::Limit => add_if_any(alloc, notes, limit_remedy(call, fault)),
        Kind::UnknownReceiver => add_unknown_receiver(alloc, notes, call, fault),
        kind => add_if_any(alloc, notes, remedy(call, kind, fault.place)),
    }
}

fn add_if_any(
    alloc: Global,
    notes: &mut Notes,
    remedy: Option<&'static str>,
) -> Result<(), AllocError> {
    match remedy {
        Some(remedy) => notes.add_str(alloc, remedy),
        None => Ok(()),
    }
}

/// The bytes of the file at a place, if there is one.
fn file_at<'a>(call: &'a Call<'_>, place: Place) -> Option<&'a [u8]> {
    match place {
        Place::Universe => call.universe.as_deref(),
        Place::Config => call.config.as_deref(),
        Place::Old => call.old.as_deref(),
        Place::New => call.new.as_deref(),
        Place::Silences => call.silences.as_deref(),
        Place::Alerts => call.alerts.as_deref(),
        Place::Rules => call.rules.as_deref(),
        _ => None,
    }
}

/// Adds a note on what a file looks like, if that does not belong at its place.
fn add_likeness(
    alloc: Global,
    notes: &mut Notes,
    call: &Call<'_>,
    place: Place,
) -> Result<(), AllocError> {
    let Some(bytes) = file_at(call, place) else {
        return Ok(());
    };
    let value = read_json(alloc, bytes).map_err(|_| AllocError)?;
    match Likeness::of(&value) {
        Some(likeness) if !likeness.belongs_at(place) => {
            notes.add(looks_like(alloc, place.text(), likeness.text(place))?)
        }
        _ => Ok(()),
    }
}

/// Adds a note on a name that no receiver has.
fn add_unknown_receiver(
    alloc: Global,
    notes: &mut Notes,
    call: &Call<'_>,
    fault: &Fault,
) -> Result<(), AllocError> {
    if add_similar_receivers(alloc, notes, call, fault)? {
        return Ok(());
    }
    add_if_any(alloc, notes, remedy(call, fault.kind, fault.place))
}

/// The remedy for any other fault.
fn remedy(call: &Call<'_>, kind: Kind, place: Place) -> Option<&'static str> {
    match kind {
        Kind::UnknownReceiver | Kind::UnknownRoute if call.config.is_none() => {
            Some("without --config there is one receiver, none, and one route, /")
        }
        Kind::UnknownReceiver => Some(
            "a receiver is named as in the file of --config, capital letters included",
        ),
        Kind::UnknownRoute => {
            Some("positions count from 0: / is the top-level route, /0 its first child")
        }
        // Only for the text on the command line, not for one in a file.
        Kind::BadTime if place == Place::Instant => Some(time_remedy(call)),
        Kind::NeedAt => Some(match call.request {
            Request::Ask { .. } => { "silences need a time; now is --at \"$(date -u +%FT%T.%NZ)\"" }
            _ => "silences need a time, such as --at now",
        }),
        Kind::BadToken => Some("--after takes the word behind # next or # stopped"),
        Kind::OtherInputs => {
            Some("an input has changed since the page before: start again without --after")
        }
        Kind::Incomplete => Some(incomplete_remedy(&call.request)),
        Kind::Unproved => Some(unproved_remedy(&call.request)),
        _ => None,
    }
}

/// The remedy for a text that is no instant.
fn time_remedy(call: &Call<'_>) -> &'static str {
    match call.request {
        Request::Ask { .. } if call.at == Some(NOW) => {
            "each page of an answer is asked for with the same words, so ask does not take now: \
            --at \"$(date -u +%FT%T.%NZ)\""
        }
        Request::Ask { .. } => {
            "a time is written as 2024-05-01T10:00:00Z; now is --at \"$(date -u +%FT%T.%NZ)\""
        }
        _ => "a time is now, or one such as 2024-05-01T10:00:00Z",
    }
}

/// The remedy for a universe file that lacks a value. If it lacks one for two configurations
/// together, no command adds it.
fn incomplete_remedy(request: &Request<'_>) -> &'static str {
    match request {
        Request::Compare { .. } => {
            "a universe file need not declare this label: what it does not declare is added"
        }
        _ => {
            "a universe file need not declare this label: what it does not declare is added; \
            amcover universe --from UNIVERSE --config FILE adds what it lacks"
        }
    }
}

/// The remedy if the routes tell too many alerts apart. If the universe file itself exceeds a
/// limit, that is another fault: it has a pointer to a part of the file, or the file is too long.
fn limit_remedy(call: &Call<'_>, fault: &Fault) -> Option<&'static str> {
    let bytes = call.universe.as_deref().unwrap_or(&[]);
    let is_of_file = !fault.pointer.is_empty() || bytes.len() > MAX_FILE_BYTES;
    if fault.place != Place::Universe || is_of_file {
        return None;
    }
    match call.request {
        Request::Routes { ascii: true, .. }
        | Request::Where { ascii: true, .. }
        | Request::Outcomes { ascii: true }
        | Request::Compare { ascii: true } => Some(
            "the routes tell too many alerts apart: \
            a universe file that says what never occurs may help",
        ),
        Request::Routes { ascii: false, .. }
        | Request::Where { ascii: false, .. }
        | Request::Outcomes { ascii: false }
        | Request::Compare { ascii: false } => Some(
            "the routes tell too many alerts apart: --ascii may help, \
            or a universe file that says what never occurs",
        ),
        _ => None,
    }
}

/// The remedy if it is not proved that a universe stands for every alert. Patterns that cannot be
/// read over all texts may still be read over those of printable ASCII.
fn unproved_remedy(request: &Request<'_>) -> &'static str {
    match request {
        Request::Lint { ascii: false }
        | Request::Routes { ascii: false, .. }
        | Request::Where { ascii: false, .. }
        | Request::Outcomes { ascii: false }
        | Request::Compare { ascii: false } => {
            "with --ascii patterns are read that are not read otherwise; \
            amcover universe --check UNIVERSE --config FILE says more"
        }
        Request::Lint { ascii: true }
        | Request::Routes { ascii: true, .. }
        | Request::Where { ascii: true, .. }
        | Request::Outcomes { ascii: true }
        | Request::Compare { ascii: true } => {
            "amcover universe --ascii --check UNIVERSE --config FILE says more"
        }
        _ => {
            "with --open a universe is made all the same; \
            amcover universe --check UNIVERSE --config FILE says what of it is not proved"
        }
    }
}
