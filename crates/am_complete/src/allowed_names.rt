//! Which names the labels of a made universe may have.

ghost use Rattle.std.specs.Prelude.{◌≡◌};
ghost use Rattle.am_universe.specs.Universe.{is_label_name};
ghost use Rattle.am_complete.specs.AllowedNames.{may_declare};

use am_universe::Universe;
use std::alloc::Global;

/// Which names a made universe may give to labels beside those of its space.
#[derive(Clone, Copy, Debug)]
pub enum AllowedNames {
    /// Label names alone, as in a universe file.
    OfFiles,
    /// Any name that is not empty, as in Alertmanager. Such a universe stays in memory.
    Any,
}

/// Whether a made universe may declare a label of this name.
pub(crate) fn may_declare(alloc: Global, allowed: AllowedNames, name: &str) -> bool
    ensures { result ≡ may_declare allowed name.now }
{
    match allowed {
        AllowedNames::OfFiles => is_label_name(alloc, name),
        AllowedNames::Any => !name.is_empty(),
    }
}

/// Whether a text is a label name, of the form `[a-zA-Z_][a-zA-Z0-9_]*`.
pub fn is_label_name(alloc: Global, name: &str) -> bool
    ensures named { result ≡ is_label_name name.now }
{
    Universe::empty(alloc).name_fault(name).is_none()
}
