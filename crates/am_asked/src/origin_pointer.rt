//! Where a matcher stands: in which input, and the JSON Pointer (RFC 6901) to the part of it.

ghost use Rattle.std.specs.Prelude.{◌≡◌, ◌++◌, string_bytes, decimal, codes, IfOk, OnOk};
ghost use Rattle.std.specs.List.{flat_map};
ghost use Rattle.am_asked.specs.OriginPointer.{origin_place, origin_pointer, child_pointer};

use am_complete::Origin;
use am_config::Path;
use am_universe::Place;
use std::alloc::{AllocError, Global};

/// Returns the file in which a matcher stands, or `Question`.
pub fn place_of(origin: &Origin) -> Place
    ensures place { result ≡ origin_place origin.now }
{
    match origin {
        Origin::Route(_) | Origin::Rule(_) => Place::Config,
        Origin::Silence(_) => Place::Silences,
        Origin::Question(_) => Place::Question,
        Origin::Impossible(_) => Place::Universe,
    }
}

/// Returns the JSON Pointer (RFC 6901) to the route, rule, silence or impossible list in which a
/// matcher stands, in its file, such as `/route/routes/0` or `/inhibit_rules/2`. For a question it
/// is `/` and the position of the question. Fails only if memory runs out.
pub fn pointer_to(alloc: Global, origin: &Origin) -> Result<String, AllocError>
    ensures pointer { IfOk result (λ pointer. string_bytes pointer ≡ origin_pointer origin.now) }
{
    match origin {
        Origin::Route(path) => route_pointer(alloc, path),
        Origin::Rule(position) => format!(in alloc; "/inhibit_rules/{position}"),
        Origin::Silence(position) | Origin::Question(position) => {
            format!(in alloc; "/{position}")
        }
        Origin::Impossible(position) => format!(in alloc; "/impossible/{position}"),
    }
}

fn route_pointer(alloc: Global, path: &Path) -> Result<String, AllocError>
    ensures { IfOk result (λ pointer. string_bytes pointer
        ≡ codes "/route" ++ flat_map child_pointer path.now) }
{
    let mut pointer = String::from_str(alloc, "/route")?;
    for position in path.steps() {
        push_child(alloc, &mut pointer, *position)?;
    }
    Ok(pointer)
}

/// Adds the step to the child at a position.
fn push_child(alloc: Global, pointer: &mut String, position: u16) -> Result<(), AllocError>
    ensures { OnOk result (string_bytes pointer.new
        ≡ string_bytes pointer.old ++ child_pointer position) }
{
    let step = format!(in alloc; "/routes/{position}")?;
    pointer.push_str(step.as_str())
}
