ghost use Rattle.std.specs.Prelude.{◌≡◌, ℕ, ◌<◌, ◌∷◌, ◌||◌, ◌&&◌, [], List, All, length, Bool};
ghost use Rattle.std.specs.Prelude.{true, false, Some, None, IfOk, IfSome, slice_index_or, vec_len};
ghost use Rattle.std.specs.Prelude.{string_bytes};
ghost use Rattle.std.specs.List.{list_all};
ghost use Rattle.regex_nfa.specs.Run.{state_of};
ghost use Rattle.am_labels.specs.Pattern.{finds};
ghost use Rattle.am_scan.specs.Sight.{is_scanned, sees_state, IsScanned};
ghost use Rattle.am_scan.specs.Trimming.{IsScannedSearch};
ghost use Rattle.am_scan.specs.Closure.{IsClosed, AcceptsReads, accepts, contains};
ghost use Rattle.am_scan.specs.Closure.{reads_byte};

use crate::arrivals::sources;
use crate::byte_set::ByteSet;
use crate::columns::Columns;
use crate::limits::{MAX_STATES, MAX_TABLE_BYTES};
use crate::pattern_state::PatternState;
use crate::sight::{Sight, holds};
use crate::steps::Steps;
use crate::trimming::trim;
use am_labels::compile_pattern;
use regex_nfa::{Nfa, State, StateId};
use std::alloc::{AllocError, Global};

/// A pattern, compiled to scan texts from their end.
#[derive(Drop)]
pub(crate) struct PatternScan {
    pub(crate) pattern: String,
    /// The bytes that scanned texts may have.
    pub(crate) bytes: ByteSet,
    /// The compiled pattern. If it is large, it has only the states that scanned texts reach.
    pub(crate) nfa: Nfa,
    /// What the assertions of the pattern see.
    pub(crate) sight: Sight,
    /// The states that read no byte, from last to first, because most of them lead to later ones.
    idle: Vec<StateId>,
    ghost faithful: { IsScannedSearch bytes nfa (string_bytes pattern) },
    ghost seen: { list_all (sees_state sight) nfa.states.items ≡ true },
    ghost words_in_ascii: { sight.words ≡ true → (b : ℕ) → is_scanned bytes b ≡ true → b < 128 },
    ghost idle_alone: { All (λ q. (q < vec_len nfa.states)
        × (reads_byte (state_of nfa q) ≡ false)) idle.items },
    ghost all_idle: { (q : ℕ) → q < vec_len nfa.states
        → reads_byte (state_of nfa q) ≡ false → contains idle.items q ≡ true },
}

impl PatternScan {
    ghost use Rattle.am_scan.specs.declared.pattern_state.PatternState.{PatternState};
    ghost use Rattle.am_scan.specs.Scan.{Follows};
    ghost use Rattle.am_scan.specs.Automaton.{AreNext, AreSteps, IsIndexed};

    /// Compiles a pattern, to scan texts that have only these bytes. Returns `None` if the pattern
    /// cannot be followed: the engine's grammar does not read it, it is too large, or it asks
    /// whether a word begins or ends (as `\b` does) in texts that may have other characters than
    /// those of ASCII. Fails only if memory runs out.
    pub(crate) fn of(
        alloc: Global,
        pattern: &str,
        bytes: ByteSet,
    ) -> Result<Option<PatternScan>, AllocError>
        ensures pattern { IfOk result (λ found. IfSome found
            (λ scan. string_bytes scan.pattern ≡ pattern.now)) }
        ensures bytes { IfOk result (λ found. IfSome found (λ scan. scan.bytes ≡ bytes)) }
    {
        let Some(nfa) = compile_pattern(alloc, pattern, MAX_TABLE_BYTES)? else {
            return Ok(None);
        };
        if nfa.states.len() > MAX_STATES {
            return Ok(None);
        }
        let nfa = trim(alloc, nfa, bytes)?;
        let sight = Sight::of(nfa.states.as_slice());
        if !sight.sees_all(nfa.states.as_slice()) {
            return Ok(None);
        }
        if sight.words && !bytes.is_ascii() {
            return Ok(None);
        }
        let idle = idle_states(alloc, &nfa)?;
        let pattern = String::from_str(alloc, pattern)?;
        Ok(Some(PatternScan {
            pattern,
            bytes,
            nfa,
            sight,
            idle,
        }))
    }

    /// The state of the empty text.
    pub(crate) fn end(&self, alloc: Global) -> PatternState
        ensures { Follows self.now result [] }
    {
        PatternState {
            first: None,
            starts: true,
            reads: Vec::new(alloc),
            later: false,
        }
    }

    /// Returns the states of a text with one more byte before it, one for each column. Returns
    /// `None` if [`PatternScan::closure`] does.
    pub(crate) fn next_states(
        &self,
        alloc: Global,
        state: &PatternState,
        columns: &Columns,
    ) -> Result<Option<Vec<PatternState>>, AllocError>
        requires { IsIndexed self.now.nfa columns.now }
        ensures count { IfOk result (λ found. IfSome found
            (λ nexts. vec_len nexts ≡ vec_len columns.now.columns)) }
        ensures each { IfOk result (λ found. IfSome found
            (λ nexts. AreNext self.now columns.now.columns.items state.now nexts.items)) }
    {
        let mut nexts = Vec::with_capacity(alloc, columns.columns.len())?;
        let mut last = None;
        for (class, column) in columns.columns.iter().enumerate() {
            let Some(steps) = self.steps_of_kind(alloc, state, columns, column.kind, last)? else {
                return Ok(None);
            };
            nexts.push(steps.next(alloc, class, column.starts)?)?;
            last = Some(steps);
        }
        Ok(Some(nexts))
    }

    /// Finds what bytes of this kind make of a text. Usually the previous column has shown this
    /// already.
    fn steps_of_kind(
        &self,
        alloc: Global,
        state: &PatternState,
        columns: &Columns,
        kind: u8,
        last: Option<Steps>,
    ) -> Result<Option<Steps>, AllocError>
        requires index { IsIndexed self.now.nfa columns.now }
        requires last { IfSome last (λ steps.
            AreSteps self.now columns.now.columns.items state.now steps) }
        ensures kind { IfOk result (λ found. IfSome found (λ steps. steps.kind ≡ kind)) }
        ensures steps { IfOk result (λ found. IfSome found (λ steps.
            AreSteps self.now columns.now.columns.items state.now steps)) }
    {
        match last {
            Some(steps) if steps.kind == kind => Ok(Some(steps)),
            _ => self.steps(alloc, state, columns, kind),
        }
    }

    /// Finds what bytes of this kind make of a text. Returns `None` if [`PatternScan::closure`]
    /// does.
    fn steps(
        &self,
        alloc: Global,
        state: &PatternState,
        columns: &Columns,
        kind: u8,
    ) -> Result<Option<Steps>, AllocError>
        requires { IsIndexed self.now.nfa columns.now }
        ensures kind { IfOk result (λ found. IfSome found (λ steps. steps.kind ≡ kind)) }
        ensures steps { IfOk result (λ found. IfSome found (λ steps.
            AreSteps self.now columns.now.columns.items state.now steps)) }
    {
        let Some(accepted) = self.closure(alloc, state, Some(kind))? else {
            return Ok(None);
        };
        let arrivals = columns.arrivals.as_slice();
        let accepted = accepted.as_slice();
        Ok(Some(Steps {
            kind,
            reads: sources(alloc, arrivals, accepted, columns.columns.len())?,
            later: self.matches_from(state, accepted),
        }))
    }

    /// Whether the pattern finds the whole text that was read. Returns `None` if
    /// [`PatternScan::closure`] does.
    pub(crate) fn finds(
        &self,
        alloc: Global,
        state: &PatternState,
    ) -> Result<Option<bool>, AllocError>
        ensures { IfOk result (λ found. IfSome found (λ answer. (text : List ℕ)
            → Follows self.now state.now text → IsScanned self.now.bytes text
            → answer ≡ finds (string_bytes self.now.pattern) text)) }
    {
        let Some(accepted) = self.closure(alloc, state, None)? else {
            return Ok(None);
        };
        Ok(Some(self.matches_from(state, accepted.as_slice())))
    }

    /// Whether a match begins at the start of the state's text, or later.
    fn matches_from(&self, state: &PatternState, accepted: &[bool]) -> bool
        requires { length accepted.now ≡ vec_len self.now.nfa.states }
        ensures { result ≡ (state.now.later
            || (state.now.starts && slice_index_or accepted.now self.now.nfa.start false)) }
    {
        state.later || (state.starts && accepted[self.nfa.start as usize])
    }

    /// Finds for each state of the compiled pattern whether it leads to a match from the start of
    /// the text of `state`, after a byte of kind `before`. Looks at the states that read no byte in
    /// rounds, until a round changes nothing. There are at most as many rounds as such states, and
    /// one more. Returns `None` if each of them changes something.
    fn closure(
        &self,
        alloc: Global,
        state: &PatternState,
        before: Option<u8>,
    ) -> Result<Option<Vec<bool>>, AllocError>
        ensures { IfOk result (λ found. IfSome found (λ accepted.
            IsClosed self.now.nfa state.now.first before (contains state.now.reads.items)
            accepted.items)) }
    {
        let mut accepted = vec![in alloc; false; self.nfa.states.len()]?;
        mark(state.reads.as_slice(), accepted.as_mut_slice());
        for _ in 0..=self.idle.len() {
            if !self.accept_more(state, before, accepted.as_mut_slice()) {
                return Ok(Some(accepted));
            }
        }
        Ok(None)
    }

    /// Looks once at each state that reads no byte, and notes whether it leads to a match, by what
    /// is known of the others. Returns whether something has changed.
    fn accept_more(&self, state: &PatternState, before: Option<u8>, accepted: &mut [bool]) -> bool
        requires len { length accepted.old ≡ vec_len self.now.nfa.states }
        requires reads { AcceptsReads self.now.nfa (contains state.now.reads.items) accepted.old }
        ensures reads { AcceptsReads self.now.nfa (contains state.now.reads.items) accepted.new }
        ensures closed { result ≡ false → IsClosed self.now.nfa state.now.first before
            (contains state.now.reads.items) accepted.new }
    {
        let mut changed = false;
        for id in &self.idle {
            let is_accepted = self.is_accepted(*id, state.first, before, accepted);
            if is_accepted != accepted[*id as usize] {
                accepted[*id as usize] = is_accepted;
                changed = true;
            }
        }
        changed
    }

    /// Whether a state that reads no byte leads to a match, by what is known of the others.
    fn is_accepted(
        &self,
        id: StateId,
        after: Option<u8>,
        before: Option<u8>,
        accepted: &[bool],
    ) -> bool
        requires id { id < vec_len self.now.nfa.states }
        requires accepted { length accepted.now ≡ vec_len self.now.nfa.states }
        ensures { (reads : Bool) → reads_byte (state_of self.now.nfa id) ≡ false
            → result ≡ accepts after before accepted.now reads (state_of self.now.nfa id) }
    {
        match self.nfa.state(id) {
            State::ByteRange(_) | State::Sparse { .. } => false,
            State::Split { first, second } => accepted[first as usize] || accepted[second as usize],
            State::Save { next, .. } => accepted[next as usize],
            State::Look { look, next } => holds(look, before, after) && accepted[next as usize],
            State::Match => true,
            State::Fail => false,
        }
    }
}

/// Returns the states that read no byte, from last to first.
fn idle_states(alloc: Global, nfa: &Nfa) -> Result<Vec<StateId>, AllocError>
    ensures alone { IfOk result (λ idle. All (λ q. (q < vec_len nfa.now.states)
        × (reads_byte (state_of nfa.now q) ≡ false)) idle.items) }
    ensures all { IfOk result (λ idle. (q : ℕ) → q < vec_len nfa.now.states
        → reads_byte (state_of nfa.now q) ≡ false → contains idle.items q ≡ true) }
{
    let len = nfa.states.len();
    let mut idle = Vec::new(alloc);
    for k in 0..len {
        let id = (len - 1 - k) as u32;
        if !reads_byte(nfa.state(id)) {
            idle.push(id)?;
        }
    }
    Ok(idle)
}

/// Whether a state reads a byte.
fn reads_byte(state: State) -> bool
    ensures { result ≡ reads_byte state }
{
    matches!(state, State::ByteRange(_) | State::Sparse { .. })
}

/// Sets the marks at these positions.
fn mark(places: &[StateId], marks: &mut [bool])
    ensures { (q : ℕ) → q < length marks.old → slice_index_or marks.new q false
        ≡ (slice_index_or marks.old q false || contains places.now q) }
{
    for place in places {
        if (*place as usize) < marks.len() {
            marks[*place as usize] = true;
        }
    }
}
