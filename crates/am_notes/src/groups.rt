//! Whether an alerts file is an export of groups. More than notes depends on this.

ghost use Rattle.std.specs.Prelude.{◌≡◌, is_some, IfOk};
ghost use Rattle.serde_json.specs.View.{view};
ghost use Rattle.am_notes.specs.Groups.{first_group, has_groups, is_of_groups};

use am_json::limits::MAX_FILE_BYTES;
use memchr::memmem;
use serde_json::Value;
use std::alloc::{AllocError, Global};

/// Whether the bytes of an alerts file have groups of alerts: its first item is an object with an
/// array in the field `alerts`, as in the answer of Alertmanager at `/api/v2/alerts/groups`. Fails
/// only if memory runs out.
pub fn has_groups(alloc: Global, bytes: &[u8]) -> Result<bool, AllocError>
    ensures groups { IfOk result (λ has. has ≡ has_groups bytes.now) }
{
    if bytes.len() > MAX_FILE_BYTES {
        return Ok(false);
    }
    is_of_groups(alloc, bytes)
}

/// Whether the value of a file is a list of groups, however long the file is.
fn is_of_groups(alloc: Global, bytes: &[u8]) -> Result<bool, AllocError>
    ensures { IfOk result (λ has. has ≡ is_of_groups bytes.now) }
{
    match Value::from_slice(alloc, bytes) {
        Ok(value) => Ok(begins_with_group(&value)),
        Err(error) => {
            if error.is_memory() {
                return Err(AllocError);
            }
            Ok(false)
        }
    }
}

/// What the bytes of a file with a field `alerts` have one of: its name, or an escape of a letter.
const SIGNS_OF_ALERTS: [&[u8]; 3] = [b"\"alerts\"", b"\\u006", b"\\u007"];

/// Whether a file may have a field `alerts`. To look for its name takes far less than to read the
/// file, and is enough for most files.
pub(crate) fn may_have_alerts(bytes: &[u8]) -> bool {
    SIGNS_OF_ALERTS
        .iter()
        .any(|sign| memmem::find(bytes, sign).is_some())
}

/// Whether a value is a list that begins with a group of alerts.
pub(crate) fn begins_with_group(value: &Value) -> bool
    ensures { result ≡ is_some (first_group (view value.now)) }
{
    match value.get(0) {
        Some(first) => first.get("alerts").is_some_and(|alerts| alerts.is_array()),
        None => false,
    }
}
