ghost use Rattle.std.specs.Prelude.{◌≡◌, ℕ, ◌∷◌, [], IfOk, IsTrue};
ghost use Rattle.regex_hir.specs.Text.{is_boundary};
ghost use Rattle.regex_nfa.specs.declared.nfa.Nfa.{Nfa};
ghost use Rattle.am_scan.specs.declared.sight.Sight.{Sight};
ghost use Rattle.am_scan.specs.Column.{IsColumn, edges_of};

use crate::sight::Sight;
use regex_nfa::{Nfa, StateId};
use std::alloc::{AllocError, Global};

/// A step of a compiled pattern from one state to another.
#[derive(Clone, Copy, Drop)]
pub(crate) struct Edge {
    pub(crate) from: StateId,
    pub(crate) to: StateId,
}

/// How a pattern treats a byte.
#[derive(Drop)]
pub(crate) struct Column {
    /// The steps that reading the byte may take.
    pub(crate) edges: Vec<Edge>,
    /// The kind of the byte, which is all that assertions see of it.
    pub(crate) kind: u8,
    /// Whether a character begins with the byte.
    pub(crate) starts: bool,
}

impl Column {
    /// Finds how the pattern treats this byte.
    pub(crate) fn of(alloc: Global, nfa: &Nfa, sight: Sight, byte: u8) -> Result<Column, AllocError>
        ensures { IfOk result (λ column. IsColumn nfa.now sight byte column) }
    {
        Ok(Column {
            edges: edges_of(alloc, nfa, byte)?,
            kind: sight.kind_of(byte),
            starts: is_start(byte),
        })
    }

    /// Whether this is the column of a byte. It takes no memory. `false` promises nothing.
    pub(crate) fn is_of(&self, nfa: &Nfa, sight: Sight, byte: u8) -> bool
        ensures { IsTrue result → IsColumn nfa.now sight byte self.now }
    {
        self.kind == sight.kind_of(byte)
            && self.starts == is_start(byte)
            && has_edges(self.edges.as_slice(), nfa, byte)
    }

    /// Whether two columns are the same. `false` promises nothing.
    pub(crate) fn same(&self, other: &Column) -> bool
        ensures { IsTrue result → (nfa : Nfa) (sight : Sight) (byte : ℕ)
            → IsColumn nfa sight byte other.now → IsColumn nfa sight byte self.now }
    {
        self.kind == other.kind
            && self.starts == other.starts
            && same_edges(self.edges.as_slice(), other.edges.as_slice())
    }
}

/// Whether a character begins with a byte.
#[tactic(auto, using(std::proofs::lemmas::Bool::Decides::nat_tests), unfolding(regex_hir::specs::Text::is_boundary))]
fn is_start(byte: u8) -> bool
    ensures { result ≡ is_boundary (byte ∷ []) 0 }
{
    byte < 0x80 || byte > 0xBF
}

/// Returns the steps that reading a byte may take, in the order of the states.
fn edges_of(alloc: Global, nfa: &Nfa, byte: u8) -> Result<Vec<Edge>, AllocError>
    ensures { IfOk result (λ edges. edges.items ≡ edges_of nfa.now byte) }
{
    let mut edges = Vec::new(alloc);
    for q in 0..nfa.states.len() {
        if let Some(to) = nfa.next_on(nfa.state(q as u32), byte) {
            edges.push(Edge { from: q as u32, to })?;
        }
    }
    Ok(edges)
}

/// Whether these are the steps that reading a byte may take, in the order of the states.
fn has_edges(edges: &[Edge], nfa: &Nfa, byte: u8) -> bool
    ensures { IsTrue result → edges.now ≡ edges_of nfa.now byte }
{
    let mut seen = 0;
    for q in 0..nfa.states.len() {
        if let Some(to) = nfa.next_on(nfa.state(q as u32), byte) {
            if seen == edges.len() {
                return false;
            }
            let edge = edges[seen];
            if edge.from != q as u32 || edge.to != to {
                return false;
            }
            seen += 1;
        }
    }
    seen == edges.len()
}

/// Whether two lists have the same steps in the same order.
fn same_edges(edges: &[Edge], others: &[Edge]) -> bool
    ensures { IsTrue result → edges.now ≡ others.now }
{
    if edges.len() != others.len() {
        return false;
    }
    for (i, edge) in edges.iter().enumerate() {
        let other = others[i];
        if edge.from != other.from || edge.to != other.to {
            return false;
        }
    }
    true
}
