ghost use Rattle.std.specs.Prelude.{◌≡◌, Some, IsTrue, IfOk, OnOk};
ghost use Rattle.am_scan.specs.declared.pattern_automaton.PatternAutomaton.{PatternAutomaton};
ghost use Rattle.am_labels.specs.Matcher.{takes_pattern};
ghost use Rattle.am_labels.specs.Pattern.{finds};
ghost use Rattle.am_scan.specs.Automaton.{pattern_of, scanned_bytes};
ghost use Rattle.am_scan.specs.Sight.{IsScanned};
ghost use denote.Ref.{Bor};

use am_labels::{Matcher, Op, PreparedMatcher};
use am_scan::PatternAutomaton;
use std::alloc::{AllocError, Global};
use std::marker::Model;

/// Finds out which texts the pattern of a matcher finds.
#[derive(Drop)]
pub(crate) struct Finder<'t, 'm> {
    matcher: &'m Matcher,
    automaton: Option<&'t PatternAutomaton>,
    /// The engine of patterns, once it was needed.
    engine: Option<PreparedMatcher<'m>>,
}

impl<'t, 'm> Model for Finder<'t, 'm> {
    ghost use Rattle.std.specs.Prelude.{◌≡◌, ℕ, List, Some, IsTrue};
    ghost use Rattle.am_labels.specs.Matcher.{Matcher, takes_pattern};
    ghost use Rattle.am_scan.specs.declared.pattern_automaton.PatternAutomaton.{PatternAutomaton};
    ghost use Rattle.am_scan.specs.Automaton.{pattern_of};
    ghost use denote.Ref.{Bor};

    ghost Value = { List ℕ };

    ghost view = { λ f. f.matcher.now.value };

    ghost invariant = { λ f. IsTrue (takes_pattern f.matcher.now.op)
        × ((a : Bor PatternAutomaton) → f.automaton ≡ Some a
        → pattern_of a.now ≡ f.matcher.now.value)
        × ((m : Matcher) → f.engine ≡ Some m → m ≡ f.matcher.now) };
}

impl<'t, 'm> Finder<'t, 'm> {
    /// Prepares the pattern of a matcher. An automaton of it may be given.
    pub(crate) fn of(
        matcher: &'m Matcher,
        automaton: Option<&'t PatternAutomaton>,
    ) -> Finder<'t, 'm>
        requires pattern { IsTrue (takes_pattern matcher.now.op) }
        requires automaton { (a : Bor PatternAutomaton) → automaton ≡ Some a
            → pattern_of a.now ≡ matcher.now.value }
        ensures { result ≡ matcher.now.value }
    {
        Finder {
            matcher,
            automaton,
            engine: None,
        }
    }

    /// Whether the pattern finds a text. An automaton is much faster than the engine.
    pub(crate) fn finds(&mut self, alloc: Global, text: &str) -> Result<bool, AllocError>
        ensures found { IfOk result (λ found. found ≡ finds self.old text.now) }
        ensures same { OnOk result (self.new ≡ self.old) }
    {
        match self.automaton {
            Some(automaton) if automaton.reads(text) => Ok(accepts(automaton, text)),
            _ => self.search(alloc, text),
        }
    }

    /// The same, by the engine.
    fn search(&mut self, alloc: Global, text: &str) -> Result<bool, AllocError>
        ensures found { IfOk result (λ found. found ≡ finds self.old text.now) }
        ensures same { OnOk result (self.new ≡ self.old) }
    {
        let mut engine = match self.engine.take() {
            Some(engine) => engine,
            None => self.matcher.prepare(alloc)?,
        };
        let holds = engine.holds(text);
        self.engine = Some(engine);
        Ok(holds != (self.matcher.op() == Op::NotMatches))
    }
}

/// Whether the pattern of an automaton finds a text that the automaton reads.
fn accepts(automaton: &PatternAutomaton, text: &str) -> bool
    requires { IsScanned (scanned_bytes automaton.now) text.now }
    ensures { result ≡ finds (pattern_of automaton.now) text.now }
{
    let bytes = text.as_bytes();
    let mut number = automaton.end();
    for i in (0..bytes.len()).rev() {
        number = automaton.step(number, bytes[i]);
    }
    automaton.finds(number)
}
