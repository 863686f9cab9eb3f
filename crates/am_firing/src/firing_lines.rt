//! The lines of what the firing alerts of a world show.

ghost use Rattle.std.specs.Prelude.{◌≡◌, ◌++◌, length, map, OnOk};
ghost use Rattle.am_report_texts.specs.LineView.{line_view};
ghost use Rattle.am_lint.specs.FoundView.{said_of};
ghost use Rattle.am_firing.specs.FiringLines.{firing_lines};

use crate::going::alerts_of_receivers;
use crate::hiding_lines::push_hiding_lines;
use crate::reached::{Whose, reached_by_alerts};
use crate::unreached_lines::push_unreached;
use crate::wide_lines::push_wide_lines;
use am_eval::World;
use am_idle::{RuleFinding, SilenceFinding};
use am_lint::{FoundRoute, ReceiverFinding};
use am_report_texts::Line;
use std::alloc::{AllocError, Global};

/// Adds the lines of what the alerts of a world show: of the routes, the receivers and the sides of
/// rules that none of them reaches, of the rules by which one of them inhibits most of the others,
/// and of the silences that hide all of them that go to a receiver. Each alert of the world counts.
///
/// `routes`, `receivers`, `rules` and `silences` have what is said of the routes, the receivers and
/// the rules of its configuration, and of its silences, over every alert, in their order. Where
/// that is worse, no line is added. Fails only if memory runs out.
pub fn push_firing_lines<'a>(
    alloc: Global,
    lines: &mut Vec<Line<'a>>,
    world: &'a World,
    routes: &[FoundRoute],
    receivers: &[Option<ReceiverFinding>],
    rules: &[Option<RuleFinding>],
    silences: &[Option<SilenceFinding>],
) -> Result<(), AllocError>
    requires receivers { length receivers.now ≡ length world.now.config.receivers }
    requires rules { length rules.now ≡ length world.now.config.rules }
    requires silences { length silences.now ≡ length world.now.silences }
    ensures lines { OnOk result (map line_view lines.new.items ≡ map line_view lines.old.items
        ++ firing_lines world.now (map said_of routes.now) receivers.now rules.now
        silences.now) }
{
    let going = alerts_of_receivers(alloc, world)?;
    let reached = reached_by_alerts(alloc, world, going.as_slice())?;
    let config = world.config();
    push_unreached(
        alloc,
        lines,
        config,
        Whose::File,
        &reached,
        routes,
        receivers,
        rules,
    )?;
    push_wide_lines(alloc, lines, world)?;
    push_hiding_lines(alloc, lines, world, going.as_slice(), silences)
}
