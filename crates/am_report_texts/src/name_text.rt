//! The names of labels.

ghost use Rattle.std.specs.Prelude.{◌≡◌, ◌++◌, string_bytes, OnOk};
ghost use Rattle.std.specs.List.{list_all};
ghost use Rattle.am_labels.specs.MatcherText.{is_name, continues_name};
ghost use Rattle.am_report_texts.specs.NameText.{name_text};

use crate::push_quoted;
use am_universe::{begins_label_name, continues_label_name};
use std::alloc::AllocError;

/// Adds the name of a label, in quotes unless a list of matchers may have it. Fails only if memory
/// runs out.
pub fn push_name(text: &mut String, name: &str) -> Result<(), AllocError>
    ensures text { OnOk result
        (string_bytes text.new ≡ string_bytes text.old ++ name_text name.now) }
{
    if is_name(name) {
        text.push_str(name)
    } else {
        push_quoted(text, name)
    }
}

/// Whether a list of matchers may have the name: it is of the form `[a-zA-Z_:][a-zA-Z0-9_:]*`.
pub fn is_name(name: &str) -> bool
    ensures named { result ≡ is_name name.now }
{
    match name.as_bytes().split_first() {
        Some((first, rest)) => {
            (begins_label_name(*first) || *first == b':') && all_continue_name(rest)
        }
        None => false,
    }
}

fn all_continue_name(bytes: &[u8]) -> bool
    ensures { result ≡ list_all continues_name bytes.now }
{
    bytes
        .iter()
        .all(|byte| continues_label_name(*byte) || *byte == b':')
}
