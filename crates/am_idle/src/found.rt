//! What was found of rules or silences, one after another, and why it is not known.

ghost use Rattle.std.specs.Prelude.{◌≡◌, ◌++◌, [], ◌∷◌, Ok, IfOk, IfErr, OnOk};
ghost use Rattle.am_universe.specs.declared.kind.Kind.TheVariants as kinds;

use am_first_sets::{Unfinished, UsedUp};
use am_universe::Kind;
use std::alloc::AllocError;

/// Why it is not known what is wrong with rules or with silences.
#[derive(Clone, Copy)]
pub struct FindingFault {
    /// The position of the rule or silence that is refused.
    pub position: usize,
    /// Why it is refused: `Limit`, `Unproved` or `Memory`.
    pub kind: Kind,
}

/// Adds what was found of the rule or silence at a position. Fails only if memory runs out.
pub(crate) fn push_finding<T: Drop>(
    found: &mut Vec<T>,
    position: usize,
    finding: T,
) -> Result<(), FindingFault>
    ensures added { OnOk result (found.new.items ≡ found.old.items ++ finding ∷ []) }
    ensures memory { IfErr result (λ fault. fault.kind ≡ kinds.Memory) }
{
    match found.push(finding) {
        Ok(()) => Ok(()),
        Err(_) => Err(FindingFault {
            position,
            kind: Kind::Memory,
        }),
    }
}

/// Returns what a search found, or the evidence that its budget was used up. Fails only if memory
/// ran out.
pub(crate) fn found_or_used_up<T: Drop>(
    found: Result<T, Unfinished>,
) -> Result<Result<T, UsedUp>, AllocError>
    ensures { IfOk result (λ answer. IfOk answer (λ item. found ≡ Ok item)) }
{
    match found {
        Ok(item) => Ok(Ok(item)),
        Err(Unfinished::UsedUp(evidence)) => Ok(Err(evidence)),
        Err(Unfinished::Memory) => Err(AllocError),
    }
}
