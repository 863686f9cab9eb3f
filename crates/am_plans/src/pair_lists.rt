//! The pairs of an inhibition rule and a firing alert, with their lists.

ghost use Rattle.std.specs.Prelude.{◌≡◌, ◌||◌, ℕ, List, map, Contains, IfOk, OnOk, IsTrue};
ghost use Rattle.std.specs.Prelude.{string_bytes, ◌<◌, ◌≤◌, length, slice_get, Some};
ghost use Rattle.std.specs.List.{list_any};
ghost use Rattle.am_universe.specs.Choice.{admits};
ghost use Rattle.am_universe.specs.Universe.{sizes};
ghost use Rattle.am_labels.specs.Row.{row_of};
ghost use Rattle.am_judged_lists.specs.Cube.{MaskedLabels, verdict_at};
ghost use Rattle.am_judged_lists.specs.Verdicts.{verdict_of_list};
ghost use Rattle.am_eval.specs.declared.property.Property.TheVariants.{Inhibited};
ghost use Rattle.am_eval.specs.Question.{Is};
ghost use Rattle.am_eval.specs.Pairs.{pairs_of};
ghost use Rattle.am_eval.specs.Conditions.{same_value};
ghost use Rattle.am_judged_lists.specs.declared.certainty.Certainty.{Certainty};
ghost use Rattle.am_judged_lists.specs.Certainty.{passes};
ghost use Rattle.am_plans.specs.Verdicts.{verdict_of_simple};
ghost use Rattle.am_plans.specs.declared.pair_lists.PairSide.{PairSide};
ghost use Rattle.am_plans.specs.PairsByLists.{inhibited_by, side_fails, pair_by, AreSources};
ghost use Rattle.am_plans.specs.PairsByLists.{AreTargets, way_of_pair};

use am_config::Rule;
use am_eval::{Pair, World};
use am_judged_lists::{Certainty, Cube, Table, rows_of};
use am_labels::Row;
use am_universe::{Choice, LabelSet, Universe};
use std::alloc::{AllocError, Global};

/// What a pair of a rule and a firing alert requires of the rule's source side.
#[derive(Clone, Copy, Drop)]
struct PairSide {
    /// The index of the rule.
    rule: usize,
    /// Whether the rule's target side matches the alert too: then its source side must not match.
    both: bool,
}

/// A pair of a rule and a firing alert that the rule's source side matches.
#[derive(Drop)]
struct PairList {
    /// The target side, with the alert's values for the labels in `equal`.
    list: Cube,
    side: PairSide,
}

/// The pairs of a world, with their lists.
#[derive(Drop)]
pub(crate) struct PairLists {
    /// The target side of each pair, with the alert's values for the labels in `equal`.
    lists: Table,
    /// What each pair requires of its source side.
    sides: Vec<PairSide>,
    /// The source side of each rule.
    sources: Vec<Cube>,
}

impl PairLists {
    /// Makes the lists of the pairs of a world. Fails only if memory runs out.
    pub(crate) fn of(
        alloc: Global,
        universe: &Universe,
        world: &World,
    ) -> Result<PairLists, AllocError>
        ensures inhibited { IfOk result (λ lists. (prefix : List ℕ) (m : Certainty)
            → IsTrue (admits (sizes universe.now) prefix) → inhibited_by prefix lists m
            ≡ passes m (verdict_of_simple universe.now world.now (Is Inhibited) prefix)) }
    {
        let rules = world.config().rules();
        let (sources, targets) = lists_of_rules(alloc, universe, rules)?;
        let pairs = lists_of_pairs(alloc, universe, world, targets.as_slice())?;
        let (lists, sides) = parts_of_pairs(alloc, pairs)?;
        Ok(PairLists {
            lists: Table::of(alloc, universe, lists)?,
            sides,
            sources,
        })
    }

    /// Whether, at a prefix, it is not excluded (`May`) or is certain (`Must`) that a firing alert
    /// inhibits the label set.
    pub(crate) fn inhibit(&self, certainty: Certainty, prefix: &Choice) -> bool
        ensures inhibited { result ≡ inhibited_by prefix.now self.now certainty }
    {
        let mut from = 0;
        while let Some(i) = self.lists.next(certainty, prefix, from) {
            if i >= self.sides.len() {
                return false;
            }
            if side_fails(&self.sources, self.sides[i], certainty, prefix) {
                return true;
            }
            // The next pairs require the same of the same source side.
            from = behind_same(&self.sides, i);
        }
        false
    }
}

/// Whether the source side of a pair does not match. If the pair does not require this, or there is
/// no such side, the result is `true`.
fn side_fails(sources: &[Cube], side: PairSide, certainty: Certainty, prefix: &Choice) -> bool
    ensures { result ≡ side_fails prefix.now certainty sources.now side }
{
    if !side.both {
        return true;
    }
    match sources.get(side.rule) {
        Some(source) => certainty.fails(source, prefix),
        None => true,
    }
}

/// The first index after `place` whose pair requires something else, or the number of pairs if
/// there is none.
fn behind_same(sides: &[PairSide], place: usize) -> usize
    requires { place < length sides.now }
    ensures behind { place < result }
    ensures same { (j : ℕ) (x y : PairSide) → place ≤ j → j < result
        → slice_get sides.now place ≡ Some x → slice_get sides.now j ≡ Some y → y ≡ x }
{
    let side = sides[place];
    for i in place + 1..sides.len() {
        if sides[i].rule != side.rule || sides[i].both != side.both {
            return i;
        }
    }
    sides.len()
}

/// The lists of some pairs, and what the pairs require of their source sides.
fn parts_of_pairs(
    alloc: Global,
    pairs: Vec<PairList>,
) -> Result<(Vec<Cube>, Vec<PairSide>), AllocError>
    ensures lists { IfOk result (λ parts. parts.0.items ≡ map (λ pair. pair.list) pairs.items) }
    ensures sides { IfOk result (λ parts. parts.1.items ≡ map (λ pair. pair.side) pairs.items) }
{
    let mut lists = Vec::with_capacity(alloc, pairs.len())?;
    let mut sides = Vec::with_capacity(alloc, pairs.len())?;
    for pair in pairs {
        let PairList { list, side } = pair;
        lists.push(list)?;
        sides.push(side)?;
    }
    Ok((lists, sides))
}

/// The list of the source side of each rule, and the rows of its target side.
fn lists_of_rules(
    alloc: Global,
    universe: &Universe,
    rules: &[Rule],
) -> Result<(Vec<Cube>, Vec<Vec<Row>>), AllocError>
    ensures sources { IfOk result (λ lists. (prefix : List ℕ)
        → IsTrue (admits (sizes universe.now) prefix)
        → AreSources universe.now prefix lists.0.items rules.now) }
    ensures targets { IfOk result (λ lists. AreTargets universe.now lists.1.items rules.now) }
{
    let mut sources = Vec::with_capacity(alloc, rules.len())?;
    let mut targets = Vec::with_capacity(alloc, rules.len())?;
    for rule in rules {
        sources.push(Cube::of(alloc, rule.source(), universe)?)?;
        targets.push(rows_of(alloc, universe, rule.target())?)?;
    }
    Ok((sources, targets))
}

/// The lists of the pairs of a world. A pair is left out if its list never matches, or if it says
/// the same as another pair of its rule: such a pair does not change an `or`.
fn lists_of_pairs(
    alloc: Global,
    universe: &Universe,
    world: &World,
    targets: &[Vec<Row>],
) -> Result<Vec<PairList>, AllocError>
    requires { AreTargets universe.now targets.now world.now.config.rules }
    ensures pairs { IfOk result (λ lists.
        (prefix : List ℕ) (m : Certainty) (sources : List MaskedLabels)
        → IsTrue (admits (sizes universe.now) prefix)
        → AreSources universe.now prefix sources world.now.config.rules
        → list_any (pair_by prefix m sources) lists.items
        ≡ list_any (way_of_pair universe.now world.now prefix m)
        (pairs_of world.now.config.rules world.now.alerts)) }
{
    let mut lists = Vec::new(alloc);
    for pair in world.pairs() {
        let list = list_of_pair(alloc, universe, world, targets, *pair)?;
        add_pair(&mut lists, list)?;
    }
    Ok(lists)
}

/// Adds a pair, unless it makes no difference.
fn add_pair(lists: &mut Vec<PairList>, pair: PairList) -> Result<(), AllocError>
    ensures { OnOk result ((prefix : List ℕ) (m : Certainty) (sources : List MaskedLabels)
        → list_any (pair_by prefix m sources) lists.new.items
        ≡ (list_any (pair_by prefix m sources) lists.old.items
        || pair_by prefix m sources pair)) }
{
    if !is_idle(lists.as_slice(), &pair) {
        lists.push(pair)?;
    }
    Ok(())
}

/// Whether a pair makes no difference to some pairs: its list never matches, or one of the last of
/// them, which are of the same rule, says the same.
fn is_idle(lists: &[PairList], pair: &PairList) -> bool
    ensures { IsTrue result → (prefix : List ℕ) (m : Certainty) (sources : List MaskedLabels)
        → IsTrue (pair_by prefix m sources pair.now)
        → IsTrue (list_any (pair_by prefix m sources) lists.now) }
{
    if pair.list.is_empty() {
        return true;
    }
    for i in (0..lists.len()).rev() {
        let other = &lists[i];
        if other.side.rule != pair.side.rule {
            return false;
        }
        if other.side.both == pair.side.both && other.list.is_same(&pair.list) {
            return true;
        }
    }
    false
}

/// Makes the list of a pair: the target side, and the alert's values for the labels in `equal`.
fn list_of_pair(
    alloc: Global,
    universe: &Universe,
    world: &World,
    targets: &[Vec<Row>],
    pair: Pair,
) -> Result<PairList, AllocError>
    requires targets { AreTargets universe.now targets.now world.now.config.rules }
    requires pair { Contains (pairs_of world.now.config.rules world.now.alerts) pair }
    ensures pair { IfOk result (λ list.
        (prefix : List ℕ) (m : Certainty) (sources : List MaskedLabels)
        → IsTrue (admits (sizes universe.now) prefix)
        → AreSources universe.now prefix sources world.now.config.rules
        → pair_by prefix m sources list
        ≡ way_of_pair universe.now world.now prefix m pair) }
{
    let rule = &world.config().rules()[pair.rule];
    let alert = world.alerts().get(pair.alert);
    let values = rows_of_values(alloc, universe, rule.equal(), alert)?;
    let list = Cube::of_rows(
        alloc,
        universe,
        targets[pair.rule].as_slice(),
        values.as_slice(),
    )?;
    Ok(PairList {
        list,
        side: PairSide {
            rule: pair.rule,
            both: pair.both,
        },
    })
}

/// The rows of the matchers that require an alert's values of these labels, in the order of the
/// names. Fails only if memory runs out.
fn rows_of_values(
    alloc: Global,
    universe: &Universe,
    names: &[String],
    alert: &LabelSet,
) -> Result<Vec<Row>, AllocError>
    ensures rows { IfOk result (λ rows. rows.items
        ≡ map (λ name. row_of universe.now (same_value alert.now (string_bytes name)))
        names.now) }
{
    let mut rows = Vec::with_capacity(alloc, names.len())?;
    for name in names {
        rows.push(Row::of_value(alloc, universe, name.as_str(), alert.get(name))?)?;
    }
    Ok(rows)
}
