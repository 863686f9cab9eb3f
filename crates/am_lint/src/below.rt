//! What the lines of routes say of the routes below and above.
//!
//! No alert enters a route below one that no alert enters. So a dead route has one line for itself
//! and all routes below it.

ghost use Rattle.std.specs.Prelude.{◌≡◌, ◌++◌, ◌&&◌, map, OnOk};
ghost use Rattle.am_report_texts.specs.LineView.{pieces_view};
ghost use Rattle.am_lint.specs.FoundView.{finding_of, said_of};
ghost use Rattle.am_lint.specs.LintLines.{are_both, below_pieces, count_below, is_said_above};
ghost use Rattle.am_lint.specs.Places.{is_child_of};

use crate::found::{FoundRoute, RouteFinding};
use am_config::Path;
use am_report_texts::{Field, Piece, Shown, plural};
use std::alloc::AllocError;

/// Returns how many of some routes stand below the route at a path.
pub fn count_below(routes: &[FoundRoute], path: &Path) -> usize
    ensures count { result ≡ count_below (map said_of routes.now) path.now }
{
    routes
        .iter()
        .filter(|route| route.path.len() > path.len() && route.path.leads_through(path))
        .count()
}

/// Adds the end of a line that says how many routes stand below a route, if any do. Fails only if
/// memory runs out.
pub fn push_below(pieces: &mut Vec<Piece<'_>>, count: usize) -> Result<(), AllocError>
    ensures below { OnOk result (pieces_view pieces.new.items
        ≡ pieces_view pieces.old.items ++ below_pieces count) }
{
    if count == 0 {
        return Ok(());
    }
    pieces.push(Piece::Words(" (and "))?;
    pieces.push(Piece::Value(Field::Below, Shown::Number(count as u64)))?;
    pieces.push(Piece::Words(" route"))?;
    pieces.push(Piece::Words(plural(count as u128)))?;
    pieces.push(Piece::Words(" below)"))?;
    Ok(())
}

/// Whether the parent of a route is dead too, or unusual too.
pub(crate) fn is_said_above(routes: &[FoundRoute], route: &FoundRoute) -> bool
    ensures { result ≡ is_said_above (map said_of routes.now) (said_of route.now) }
{
    routes.iter().any(|other| is_parent_and_same(other, route))
}

fn is_parent_and_same(other: &FoundRoute, route: &FoundRoute) -> bool
    ensures { result ≡ (is_child_of other.now.path route.now.path
        && are_both (finding_of other.now) (finding_of route.now)) }
{
    let is_child = route.path.len() == other.path.len() + 1
        && route.path.leads_through(&other.path);
    is_child
        && matches!(
            (other.finding(), route.finding()),
            (Some(RouteFinding::Dead(_)), Some(RouteFinding::Dead(_)))
                | (
                    Some(RouteFinding::Unusual(_, _)),
                    Some(RouteFinding::Unusual(_, _))
                )
        )
}
