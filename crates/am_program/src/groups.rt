//! Exports of groups, which `lint` and `alerts` do not take for alerts.

ghost use Rattle.std.specs.Prelude.{◌≡◌, ◌≢◌, OnOk, IfErr, true, false, string_bytes, codes};
ghost use Rattle.am_universe.specs.declared.kind.Kind.TheVariants as kinds;
ghost use Rattle.am_notes.specs.Groups.{has_groups};
ghost use Rattle.am_program.specs.Groups.{has_refused_groups, takes_no_groups, IsFaultOfGroups};

use am_command_line::{Call, Request};
use am_notes::has_groups;
use am_universe::{Fault, Kind, Place};
use std::alloc::Global;

/// Fails if the request is `lint` or `alerts`, and the alerts file is an export of groups.
pub fn check_groups(alloc: Global, call: &Call<'_>) -> Result<(), Fault>
    ensures ok { OnOk result (has_refused_groups call.now ≡ false) }
    ensures refused { IfErr result (λ fault. fault.kind ≢ kinds.Memory
        → (has_refused_groups call.now ≡ true) × IsFaultOfGroups fault) }
{
    if !takes_no_groups(&call.request) {
        return Ok(());
    }
    match &call.alerts {
        Some(bytes) => refuse_groups(alloc, bytes.as_slice()),
        None => Ok(()),
    }
}

/// Whether a request takes each alert of the alerts file by itself.
fn takes_no_groups(request: &Request<'_>) -> bool
    ensures { result ≡ takes_no_groups request.now }
{
    matches!(request, Request::Lint { .. } | Request::Alerts { .. })
}

/// Fails if an alerts file is an export of groups.
fn refuse_groups(alloc: Global, bytes: &[u8]) -> Result<(), Fault>
    ensures ok { OnOk result (has_groups bytes.now ≡ false) }
    ensures refused { IfErr result (λ fault. fault.kind ≢ kinds.Memory
        → (has_groups bytes.now ≡ true) × IsFaultOfGroups fault) }
{
    let Ok(pointer) = String::from_str(alloc, "/0/alerts") else {
        return Err(Fault::memory(alloc));
    };
    match has_groups(alloc, bytes) {
        Ok(false) => Ok(()),
        Ok(true) => Err(Fault::within(Kind::Shape, Place::Alerts, pointer)),
        Err(_) => Err(Fault::memory(alloc)),
    }
}
