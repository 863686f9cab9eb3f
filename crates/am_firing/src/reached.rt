//! What some alerts reach of a configuration.

ghost use Rattle.std.specs.Prelude.{◌≡◌, ◌==◌, length, map, not, IfOk};
ghost use Rattle.std.specs.List.{range_with_len};
ghost use Rattle.am_report_texts.specs.declared.lines.Level.{Level};
ghost use Rattle.am_firing.specs.FiringLines.{level_of, whose_text};
ghost use Rattle.am_firing.specs.Going.{positions_of};
ghost use Rattle.am_firing.specs.Reach.{reached_by_alerts, reached_view, sides_matched};

use crate::entered::ends_of_alerts;
use crate::matching::is_matched;
use am_config::Rule;
use am_eval::World;
use am_list_files::Alerts;
use am_report_texts::Level;
use indexmap::IndexSet;
use std::alloc::{AllocError, Global};

/// Whose alerts are looked at.
#[derive(Clone, Copy, PartialEq, Eq, Drop)]
pub enum Whose {
    /// Those of a file of firing alerts.
    File,
    /// Those of alerting rules.
    Rules,
}

impl Whose {
    /// What they are those of, as a line says it.
    pub(crate) fn text(self) -> &'static str
        ensures { result.now ≡ whose_text self }
    {
        match self {
            Whose::File => "file",
            Whose::Rules => "rules",
        }
    }

    /// The level of a line on what they do not reach.
    pub(crate) fn level(self) -> Level
        ensures { result ≡ level_of self }
    {
        match self {
            Whose::File => Level::Note,
            Whose::Rules => Level::Finding,
        }
    }
}

/// What some alerts reach.
#[derive(Drop)]
pub struct Reached {
    /// Whether there is an alert.
    pub is_any: bool,
    /// Where they end: the steps of each path.
    pub ends: IndexSet<Vec<usize>>,
    /// For each receiver of the configuration, whether one of them goes to it.
    pub receivers: Vec<bool>,
    /// For each inhibition rule, whether one of them matches its source side, and whether one
    /// matches its target side.
    pub sides: Vec<(bool, bool)>,
}

/// Returns what the alerts of a world reach. `going` has for each receiver the positions of the
/// alerts that go to it. Fails only if memory runs out.
pub(crate) fn reached_by_alerts(
    alloc: Global,
    world: &World,
    going: &[Vec<usize>],
) -> Result<Reached, AllocError>
    requires { map (λ positions. positions.items) going.now
        ≡ map (positions_of world.now) (range_with_len 0 (length world.now.config.receivers)) }
    ensures { IfOk result (λ reached. reached_view reached ≡ reached_by_alerts world.now) }
{
    Ok(Reached {
        is_any: !world.alerts().is_empty(),
        ends: ends_of_alerts(alloc, world)?,
        receivers: have_positions(alloc, going)?,
        sides: sides_matched(alloc, world.config().rules(), world.alerts())?,
    })
}

/// Returns for each of some lists of positions whether it has one.
fn have_positions(alloc: Global, lists: &[Vec<usize>]) -> Result<Vec<bool>, AllocError>
    ensures { IfOk result (λ found. found.items
        ≡ map (λ positions. not (length positions.items == 0)) lists.now) }
{
    let mut found = Vec::with_capacity(alloc, lists.len())?;
    for positions in lists {
        found.push(!positions.is_empty())?;
    }
    Ok(found)
}

/// Returns for each inhibition rule whether its source side matches one of some alerts, and whether
/// its target side does.
fn sides_matched(
    alloc: Global,
    rules: &[Rule],
    alerts: &Alerts,
) -> Result<Vec<(bool, bool)>, AllocError>
    ensures { IfOk result (λ found. found.items ≡ map (sides_matched alerts.now) rules.now) }
{
    let mut found = Vec::with_capacity(alloc, rules.len())?;
    for rule in rules {
        let source = is_matched(alloc, rule.source(), alerts)?;
        let target = is_matched(alloc, rule.target(), alerts)?;
        found.push((source, target))?;
    }
    Ok(found)
}
