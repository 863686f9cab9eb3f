//! What the commands with several options ask for.

use crate::steps::Steps;
use crate::table::Request;
use clap::ArgMatches;
use std::alloc::{AllocError, Global};
use std::num::NonZeroU64;

/// The words of an option or an argument, which may be repeated.
pub(crate) fn words_of<'a>(
    alloc: Global,
    matches: &ArgMatches<'a>,
    id: &str,
) -> Result<Vec<&'a str>, AllocError> {
    Vec::from_slice(alloc, matches.get_strs(id).unwrap_or(&[]))
}

/// What `ask` asks for.
pub(crate) fn ask_request<'a>(question: &'a str, matches: &ArgMatches<'a>) -> Request<'a> {
    Request::Ask {
        question,
        after: matches.get_str("after"),
        limit: matches.get_one::<u64>("limit").and_then(NonZeroU64::new),
        steps: matches.get_one::<u64>("steps").and_then(Steps::new),
    }
}

/// What `universe` asks for: to make a universe, or to say what the one of `--check` lacks.
pub(crate) fn universe_request<'a>(
    questions: Vec<&'a str>,
    matches: &ArgMatches<'a>,
) -> Request<'a> {
    let routes = matches.get_flag("routes");
    let ascii = matches.get_flag("ascii");
    if matches.get_str("universe").is_some() {
        return Request::CheckUniverse {
            routes,
            ascii,
            questions,
        };
    }
    Request::Universe {
        routes,
        ascii,
        open: matches.get_flag("open"),
        questions,
    }
}
