//! Notes on a file that is not JSON: where, and what makes JSON.

use crate::notes::Notes;
use crate::sentences::not_json_at;
use am_universe::Place;
use serde_json::Value;
use std::alloc::{AllocError, Global};

/// Adds a note on a file that is not JSON.
pub(crate) fn add_not_json(
    alloc: Global,
    notes: &mut Notes,
    bytes: &[u8],
    place: Place,
) -> Result<(), AllocError> {
    if bytes.trim_ascii().is_empty() {
        return notes.add_str(
            alloc,
            "the file is empty: did the command that wrote it fail?",
        );
    }
    let Err(error) = Value::from_slice(alloc, bytes) else {
        return Ok(());
    };
    if error.is_memory() {
        return Err(AllocError);
    }
    let remedy = remedy(bytes, place);
    // At the end of a file, the column is that of the last byte, or 0 behind a line feed.
    let column = error.column().max(1);
    notes.add(not_json_at(alloc, error.line(), column, remedy)?)
}

/// What makes JSON for a place. For a configuration or a rules file it converts YAML, if the file
/// may be YAML.
fn remedy(bytes: &[u8], place: Place) -> Option<&'static str> {
    match place {
        Place::Universe => Some("a universe is JSON: amcover universe --config FILE writes one"),
        Place::Config | Place::Old | Place::New if may_be_yaml(bytes) => Some(
            "YAML becomes JSON by python3 -c 'import json,sys,yaml; \
            print(json.dumps(yaml.safe_load(sys.stdin), indent=2))' \
            < alertmanager.yml > alertmanager.json  # Python with PyYAML",
        ),
        Place::Silences => Some("--silences takes JSON: amtool silence query -o json"),
        Place::Alerts => Some("--alerts takes JSON: amtool alert query -a -s -i -u -o json"),
        Place::Rules if may_be_yaml(bytes) => Some(
            "YAML becomes JSON by python3 -c 'import json,sys,yaml; \
            print(json.dumps(yaml.safe_load(sys.stdin), indent=2))' \
            < rules.yml > rules.json  # Python with PyYAML",
        ),
        _ => None,
    }
}

/// Whether a file that is not JSON may be YAML: it does not begin as JSON would, even behind a byte
/// order mark.
fn may_be_yaml(bytes: &[u8]) -> bool {
    let marked = bytes.strip_prefix(b"\xEF\xBB\xBF");
    !matches!(
        marked.unwrap_or(bytes).trim_ascii_start(),
        [b'{' | b'[', ..]
    )
}
