//! What an alert must meet to enter a route or to end there, as literals that name routes.

ghost use Rattle.std.specs.Prelude.{◌≡◌, IfOk, OnOk};
ghost use Rattle.am_lint.specs.Places.{stands_before};
ghost use Rattle.am_lint.specs.Literals.{stands_in, is_wanted, AddsPart, AreLiterals};

use crate::table::{Table, TableRoute};
use am_config::Path;
use am_first_sets::Candidate;
use std::alloc::{AllocError, Global};

/// A part of the literals for a route, by the routes that they name.
#[derive(Clone, Copy)]
pub enum Part {
    /// The routes on the way to the route, and the route itself. An alert must match each of them.
    Way,
    /// The earlier siblings of the route, or of a route on the way, that lack `continue`. An alert
    /// that is tried at the route must not match any of them.
    Before,
    /// The children of the route. An alert that ends at the route must not match any of them.
    Children,
}

impl Part {
    /// Whether an alert must match these routes. If not, it must match none of them.
    fn is_wanted(self) -> bool
        ensures { result ≡ is_wanted self }
    {
        matches!(self, Part::Way)
    }

    /// Whether `route` is one of these routes for the route at `path`.
    fn has(self, path: &Path, route: &TableRoute) -> bool
        ensures { result ≡ stands_in self path.now route.now.path route.now.continues }
    {
        match self {
            Part::Way => path.leads_through(&route.path),
            Part::Before => !route.continues && stands_before(path.steps(), route.path.steps()),
            Part::Children => route.path.len() == path.len() + 1 && route.path.leads_through(path),
        }
    }
}

/// The literals for a route, one part after another.
#[derive(Drop)]
pub struct Literals<'t> {
    pub all: Vec<Candidate<'t>>,
    /// How many an alert meets that matches the way to the route.
    pub on_way: usize,
    /// How many an alert meets that enters the route.
    pub to_enter: usize,
}

/// Returns the literals for the route at a path. An alert ends there exactly if it meets all of
/// them. Fails only if memory runs out.
pub fn literals_of<'t>(
    alloc: Global,
    table: &'t Table<'_>,
    path: &Path,
) -> Result<Literals<'t>, AllocError>
    ensures { IfOk result (AreLiterals table.now.routes.items path.now) }
{
    let mut all = Vec::new(alloc);
    add_part(table, Part::Way, path, &mut all)?;
    let on_way = all.len();
    add_part(table, Part::Before, path, &mut all)?;
    let to_enter = all.len();
    add_part(table, Part::Children, path, &mut all)?;
    Ok(Literals {
        all,
        on_way,
        to_enter,
    })
}

/// Adds the literals of a part for the route at a path. All that are added are named, and the tag
/// of each is the position of its route in the table. Fails only if memory runs out.
fn add_part<'t>(
    table: &'t Table<'_>,
    part: Part,
    path: &Path,
    literals: &mut Vec<Candidate<'t>>,
) -> Result<(), AllocError>
    ensures { OnOk result (AddsPart table.now.routes.items part path.now table.now.routes.items
        literals.old.items literals.new.items) }
{
    for (i, route) in table.routes.iter().enumerate() {
        if part.has(path, route) {
            literals.push(Candidate {
                cube: &route.cube,
                wanted: part.is_wanted(),
                named: true,
                tag: i,
            })?;
        }
    }
    Ok(())
}

/// Whether the route at `other` is an earlier sibling of the route at `path`, or of one on the way
/// to it.
#[tactic(auto, using(crate::proofs::PlaceSteps::before_nowhere))]
fn stands_before(path: &[u16], other: &[u16]) -> bool
    ensures { result ≡ stands_before path.now other.now }
{
    match (path, other) {
        ([step, ..], [last]) => last < step,
        ([step, path @ ..], [first, other @ ..]) => step == first && stands_before(path, other),
        _ => false,
    }
}
