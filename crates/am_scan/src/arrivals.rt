//! The steps that lead to each state of a compiled pattern.
ghost use Rattle.std.specs.Prelude.{◌≡◌, ◌||◌, ◌&&◌, ◌==◌, ◌<◌, ℕ, [], IfOk, OnOk, length, vec_len};
ghost use Rattle.std.specs.List.{list_any};
ghost use Rattle.am_scan.specs.Closure.{contains};
ghost use Rattle.am_scan.specs.Arrivals.{AreArrivals, froms, items_at, sources_below};

use crate::column::{Column, Edge};
use regex_nfa::StateId;
use std::alloc::{AllocError, Global};

/// A step to some state: the class of the bytes that take it, and where it comes from.
#[derive(Clone, Copy, Drop)]
pub(crate) struct Arrival {
    pub(crate) class: usize,
    pub(crate) from: StateId,
}

/// Returns, for each of the first states, the steps of these columns that lead to it.
pub(crate) fn arrivals_of(
    alloc: Global,
    columns: &[Column],
    states: usize,
) -> Result<Vec<Vec<Arrival>>, AllocError>
    ensures count { IfOk result (λ arrivals. vec_len arrivals ≡ states) }
    ensures all { IfOk result (λ arrivals. AreArrivals columns.now arrivals.items) }
{
    let mut arrivals = empty_lists(alloc, states)?;
    for (class, column) in columns.iter().enumerate() {
        push_arrivals(class, column.edges.as_slice(), &mut arrivals)?;
    }
    Ok(arrivals)
}

/// Adds the steps of the column of a class.
fn push_arrivals(
    class: usize,
    edges: &[Edge],
    arrivals: &mut Vec<Vec<Arrival>>,
) -> Result<(), AllocError>
    ensures count { vec_len arrivals.new ≡ vec_len arrivals.old }
    ensures each { OnOk result ((r k q : ℕ) → r < vec_len arrivals.old
        → contains (froms k (items_at arrivals.new.items r)) q
        ≡ (contains (froms k (items_at arrivals.old.items r)) q
        || (k == class && list_any (λ e. r == e.to && e.from == q) edges.now))) }
{
    for edge in edges {
        let to = edge.to as usize;
        if to < arrivals.len() {
            let from = edge.from;
            arrivals[to].push(Arrival { class, from })?;
        }
    }
    Ok(())
}

/// Returns, for each of so many classes, the states from which a byte of the class leads to an
/// accepted state.
pub(crate) fn sources(
    alloc: Global,
    arrivals: &[Vec<Arrival>],
    accepted: &[bool],
    classes: usize,
) -> Result<Vec<Vec<StateId>>, AllocError>
    requires { length arrivals.now ≡ length accepted.now }
    ensures { IfOk result (λ sources. (k q : ℕ) → k < classes
        → contains (items_at sources.items k) q
        ≡ sources_below (length accepted.now) arrivals.now accepted.now k q) }
{
    let mut sources = empty_lists(alloc, classes)?;
    for (state, is_accepted) in accepted.iter().enumerate() {
        if *is_accepted {
            push_sources(arrivals[state].as_slice(), &mut sources)?;
        }
    }
    Ok(sources)
}

/// Adds the states that steps come from, each to those of the step's class.
fn push_sources(arrivals: &[Arrival], sources: &mut Vec<Vec<StateId>>) -> Result<(), AllocError>
    ensures count { vec_len sources.new ≡ vec_len sources.old }
    ensures each { OnOk result ((k q : ℕ) → k < vec_len sources.old
        → contains (items_at sources.new.items k) q
        ≡ (contains (items_at sources.old.items k) q || contains (froms k arrivals.now) q)) }
{
    for arrival in arrivals {
        if arrival.class < sources.len() {
            sources[arrival.class].push(arrival.from)?;
        }
    }
    Ok(())
}

/// Returns so many empty lists.
fn empty_lists<T: Drop>(alloc: Global, count: usize) -> Result<Vec<Vec<T>>, AllocError>
    ensures count { IfOk result (λ lists. vec_len lists ≡ count) }
    ensures empty { IfOk result (λ lists. (k : ℕ) → items_at lists.items k ≡ []) }
{
    let mut lists = Vec::with_capacity(alloc, count)?;
    for _ in 0..count {
        lists.push(Vec::new(alloc))?;
    }
    Ok(lists)
}
