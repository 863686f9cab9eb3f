//! The matchers of a label, made ready to test texts.
//!
//! Most matchers name texts, and a map has the places of those that name a text. If the others have
//! automata that read all texts, each text is tested by all of them at once. If not, each of them
//! tests all texts before the next one does.

ghost use Rattle.std.specs.Prelude.{◌≡◌, ◌<◌, ◌++◌, ℕ, List, IfOk, IfSome, OnOk, IsTrue, false};
ghost use Rattle.std.specs.Prelude.{◌∷◌, [], Some, if◌then◌else◌};
ghost use Rattle.std.specs.Prelude.{length, map, slice_index_or, string_bytes, vec_len};
ghost use Rattle.std.specs.List.{AllByRecursion};
ghost use Rattle.am_labels.specs.Matcher.{Matcher};
ghost use Rattle.am_scan.specs.Arrivals.{items_at};
ghost use Rattle.am_scan.specs.Automaton.{pattern_of};
ghost use Rattle.am_scan.specs.Closure.{contains};
ghost use Rattle.am_scan.specs.Sight.{IsScanned};
ghost use Rattle.am_classes.specs.Automata.{AreAutomataOf, AreFor, AreScanned, found_by};
ghost use Rattle.am_classes.specs.PatternPlaces.{ArePlaced, ArePlacesWith, is_found, is_marked};
ghost use Rattle.am_classes.specs.Places.{places_where};
ghost use Rattle.am_classes.specs.AskedPatterns.{patterns_asked};

use crate::finder::Finder;
use crate::found::Found;
use crate::named_texts::{names_texts, other_patterns};
use crate::naming::naming_places;
use crate::questions::Questions;
use crate::tested::{Tested, tested_by};
use crate::text_ends::TextEnds;
use am_labels::Matcher;
use am_scan::{ByteSet, PatternAutomaton};
use indexmap::IndexSet;
use std::alloc::{AllocError, Global};
use std::collections::HashMap;

/// What is known of the questions of a label.
#[derive(Drop)]
pub(crate) enum Asked {
    /// Nothing yet.
    Nothing,
    /// The questions.
    Questions(Questions),
    /// The questions, and the candidates that were found.
    Found(Found),
}

/// The matchers of a label, made ready to test texts.
#[derive(Drop)]
pub struct LabelTests<'m> {
    pub(crate) matchers: Vec<&'m Matcher>,
    /// For each text that matchers name, the places of these matchers.
    pub(crate) named: HashMap<&'m str, Vec<usize>>,
    /// The patterns of the others, each once.
    pub(crate) patterns: IndexSet<&'m str>,
    /// What they ask, by these patterns.
    pub(crate) asked: Asked,
    ghost fit: { (asked_by : List (List ℕ)) → patterns_asked asked ≡ Some asked_by
        → asked_by ≡ map (λ p. p.now) patterns.keys },
}

impl<'m> LabelTests<'m> {
    ghost use Rattle.am_classes.specs.LabelTests.{IsTestsOf, named_places};
    ghost use Rattle.am_classes.specs.Named.{names_texts};
    ghost use Rattle.am_classes.specs.Truths.{AreHits, AreTested, texts_of};

    /// Makes matchers ready, without automata. Fails only if memory runs out.
    pub fn of(alloc: Global, matchers: &[&'m Matcher]) -> Result<LabelTests<'m>, AllocError>
        ensures { IfOk result (IsTestsOf (map (λ m. m.now) matchers.now)) }
    {
        Ok(LabelTests {
            matchers: Vec::from_slice(alloc, matchers)?,
            named: naming_places(alloc, matchers)?,
            patterns: other_patterns(alloc, matchers)?,
            asked: Asked::Nothing,
        })
    }

    /// The same with what they ask.
    pub(crate) fn with_asked(self, asked: Asked) -> LabelTests<'m>
        requires fit { (asked_by : List (List ℕ)) → patterns_asked asked ≡ Some asked_by
            → asked_by ≡ map (λ p. p.now) self.patterns.keys }
        ensures { (ms : List Matcher) → IsTestsOf ms self.entry → IsTestsOf ms result }
    {
        LabelTests {
            matchers: self.matchers,
            named: self.named,
            patterns: self.patterns,
            asked,
        }
    }

    /// Tests texts. Fails only if memory runs out.
    pub fn tested(&self, alloc: Global, texts: Vec<String>) -> Result<Vec<Tested>, AllocError>
        ensures texts { IfOk result (λ all. texts_of all.items ≡ map string_bytes texts.items) }
        ensures tested { IfOk result (λ all. (ms : List Matcher) → IsTestsOf ms self.now
            → AreTested ms all.items) }
    {
        match &self.asked {
            Asked::Found(found) => {
                let questions = found.questions();
                let automata = questions.automata.as_slice();
                self.tested_with(alloc, &questions.bytes, automata, Some(found), texts)
            }
            Asked::Questions(questions) => {
                let automata = questions.automata.as_slice();
                self.tested_with(alloc, &questions.bytes, automata, None, texts)
            }
            Asked::Nothing => self.tested_in_turn(alloc, &[], texts),
        }
    }

    /// Tests texts, with automata of the first patterns, which read texts that have only certain
    /// bytes. What was found by all of them is taken over if it is given.
    pub(crate) fn tested_with(
        &self,
        alloc: Global,
        bytes: &ByteSet,
        automata: &[PatternAutomaton],
        found: Option<&Found>,
        texts: Vec<String>,
    ) -> Result<Vec<Tested>, AllocError>
        requires fit { AreAutomataOf self.now.patterns.keys automata.now }
        requires read { AreFor bytes.now automata.now }
        requires found { IfSome found (λ f. f.now.1.1 ≡ map pattern_of automata.now) }
        ensures texts { IfOk result (λ all. texts_of all.items ≡ map string_bytes texts.items) }
        ensures tested { IfOk result (λ all. (ms : List Matcher) → IsTestsOf ms self.now
            → AreTested ms all.items) }
    {
        if texts.is_empty() {
            return Ok(Vec::new(alloc));
        }
        // For each text all matchers are gone through, so most of them must have a pattern to test.
        let have_patterns = self.matchers.len() / 2 <= automata.len();
        if have_patterns
            && automata.len() == self.patterns.len()
            && have_all(bytes, texts.as_slice())
        {
            if let Some(places) = self.pattern_places(alloc)? {
                let lasts = last_bytes(texts.as_slice());
                let ends = TextEnds::of(alloc, automata, &lasts, texts.len())?;
                return self.tested_from_ends(alloc, &ends, found, places.as_slice(), texts);
            }
        }
        self.tested_in_turn(alloc, automata, texts)
    }

    /// Returns for each matcher the place of its pattern, or `None` if it names texts. Returns
    /// `None` if a pattern is missing.
    fn pattern_places(&self, alloc: Global) -> Result<Option<Vec<Option<usize>>>, AllocError>
        ensures { IfOk result (λ found. IfSome found (λ places.
            ArePlaced self.now.matchers.items self.now.patterns.keys places.items)) }
    {
        let mut places = Vec::with_capacity(alloc, self.matchers.len())?;
        for matcher in &self.matchers {
            if names_texts(matcher) {
                places.push(None)?;
                continue;
            }
            let Some(place) = self.patterns.get_index_of(matcher.value()) else {
                return Ok(None);
            };
            places.push(Some(place))?;
        }
        Ok(Some(places))
    }

    /// Tests texts that the automata of all patterns read, each text by all patterns at once.
    fn tested_from_ends(
        &self,
        alloc: Global,
        ends: &TextEnds<'_>,
        found: Option<&Found>,
        patterns: &[Option<usize>],
        texts: Vec<String>,
    ) -> Result<Vec<Tested>, AllocError>
        requires found { IfSome found (λ f. f.now.1.1 ≡ map pattern_of ends.now.automata.now) }
        requires fit { AreAutomataOf self.now.patterns.keys ends.now.automata.now }
        requires count { length ends.now.automata.now ≡ length self.now.patterns.keys }
        requires placed { ArePlaced self.now.matchers.items self.now.patterns.keys patterns.now }
        requires read { AllByRecursion
            (λ text. AreScanned ends.now.automata.now (string_bytes text)) texts.items }
        ensures texts { IfOk result (λ all. texts_of all.items ≡ map string_bytes texts.items) }
        ensures tested { IfOk result (λ all. (ms : List Matcher) → IsTestsOf ms self.now
            → AreTested ms all.items) }
    {
        let lists = places_with(alloc, patterns, self.patterns.len())?;
        let mut all = Vec::with_capacity(alloc, texts.len())?;
        for text in texts {
            let places = found_by(alloc, ends, found, text.as_str())?;
            let mut hits = self.naming(alloc, text.as_str())?;
            self.push_hits(
                alloc,
                patterns,
                lists.as_slice(),
                places.as_slice(),
                &mut hits,
            )?;
            all.push(Tested { text, hits })?;
        }
        Ok(all)
    }

    /// Adds the places of the matchers whose patterns are found. For one pattern or none, not all
    /// matchers are gone through.
    fn push_hits(
        &self,
        alloc: Global,
        patterns: &[Option<usize>],
        lists: &[Vec<usize>],
        found: &[usize],
        hits: &mut Vec<usize>,
    ) -> Result<(), AllocError>
        requires placed { ArePlaced self.now.matchers.items self.now.patterns.keys patterns.now }
        requires lists { ArePlacesWith patterns.now lists.now }
        ensures { OnOk result (hits.new.items
            ≡ hits.old.items ++ places_where (is_found found.now) patterns.now) }
    {
        if found.is_empty() {
            return Ok(());
        }
        if found.len() == 1 && found[0] < lists.len() {
            hits.extend_from_slice(lists[found[0]].as_slice())?;
            return Ok(());
        }
        let marks = marks_at(alloc, found, self.patterns.len())?;
        push_marked(patterns, marks.as_slice(), hits)
    }

    /// Tests texts, by one pattern after the other.
    fn tested_in_turn(
        &self,
        alloc: Global,
        automata: &[PatternAutomaton],
        texts: Vec<String>,
    ) -> Result<Vec<Tested>, AllocError>
        requires { AreAutomataOf self.now.patterns.keys automata.now }
        ensures texts { IfOk result (λ all. texts_of all.items ≡ map string_bytes texts.items) }
        ensures tested { IfOk result (λ all. (ms : List Matcher) → IsTestsOf ms self.now
            → AreTested ms all.items) }
    {
        let mut all = self.named_tested(alloc, texts)?;
        for (place, matcher) in self.matchers.iter().enumerate() {
            if names_texts(matcher) {
                continue;
            }
            let finder = self.finder(automata, matcher);
            all = tested_by(alloc, finder, place, all)?;
        }
        Ok(all)
    }

    /// Tests texts by the matchers that name texts alone.
    fn named_tested(&self, alloc: Global, texts: Vec<String>) -> Result<Vec<Tested>, AllocError>
        ensures texts { IfOk result (λ all. texts_of all.items ≡ map string_bytes texts.items) }
        ensures hits { IfOk result (λ all. AreHits (named_places self.now.named) all.items) }
    {
        let mut all = Vec::with_capacity(alloc, texts.len())?;
        for text in texts {
            let hits = self.naming(alloc, text.as_str())?;
            all.push(Tested { text, hits })?;
        }
        Ok(all)
    }

    /// Returns the places of the matchers that name a text.
    fn naming(&self, alloc: Global, text: &str) -> Result<Vec<usize>, AllocError>
        ensures { IfOk result (λ places. places.items ≡ named_places self.now.named text.now) }
    {
        match self.named.get(text) {
            Some(places) => places.clone(),
            None => Ok(Vec::new(alloc)),
        }
    }

    /// Prepares the pattern of a matcher, with its automaton if that is given.
    fn finder<'t>(&self, automata: &'t [PatternAutomaton], matcher: &'m Matcher) -> Finder<'t, 'm>
        requires pattern { names_texts matcher.now ≡ false }
        requires fit { AreAutomataOf self.now.patterns.keys automata.now }
        ensures { result ≡ matcher.now.value }
    {
        let Some(place) = self.patterns.get_index_of(matcher.value()) else {
            return Finder::of(matcher, None);
        };
        Finder::of(matcher, automata.get(place))
    }
}

/// Returns the places of the patterns that find a text that all automata read: those that were
/// found for it, or else those that its end leads to.
fn found_by(
    alloc: Global,
    ends: &TextEnds<'_>,
    found: Option<&Found>,
    text: &str,
) -> Result<Vec<usize>, AllocError>
    requires found { IfSome found (λ f. f.now.1.1 ≡ map pattern_of ends.now.automata.now) }
    ensures { IfOk result (λ found. AreScanned ends.now.automata.now text.now
        → found.items ≡ found_by ends.now.automata.now text.now) }
{
    if let Some(found) = found {
        if let Some(places) = found.found(text) {
            return places.to_vec(alloc);
        }
    }
    ends.found(alloc, text)
}

/// Returns the bytes with which texts end.
fn last_bytes(texts: &[String]) -> ByteSet {
    let mut lasts = ByteSet::empty();
    for text in texts {
        if let Some(last) = text.as_bytes().last() {
            lasts.insert(*last);
        }
    }
    lasts
}

/// Whether each text has only certain bytes.
fn have_all(bytes: &ByteSet, texts: &[String]) -> bool
    ensures { IsTrue result → AllByRecursion (λ text. IsScanned bytes.now (string_bytes text))
        texts.now }
{
    texts.iter().all(|text| bytes.has_all(text.as_str()))
}

/// Returns for each of so many patterns the places of the matchers that have it.
fn places_with(
    alloc: Global,
    patterns: &[Option<usize>],
    count: usize,
) -> Result<Vec<Vec<usize>>, AllocError>
    ensures { IfOk result (λ lists. ArePlacesWith patterns.now lists.items) }
{
    let mut lists = Vec::with_capacity(alloc, count)?;
    for _ in 0..count {
        lists.push(Vec::new(alloc))?;
    }
    for (place, pattern) in patterns.iter().enumerate() {
        push_place(*pattern, place, &mut lists)?;
    }
    Ok(lists)
}

/// Adds a place to the list of a pattern, if that is there.
fn push_place(
    pattern: Option<usize>,
    place: usize,
    lists: &mut Vec<Vec<usize>>,
) -> Result<(), AllocError>
    ensures count { vec_len lists.new ≡ vec_len lists.old }
    ensures each { OnOk result ((k : ℕ) → k < vec_len lists.old
        → items_at lists.new.items k ≡ items_at lists.old.items k
        ++ (if is_found (k ∷ []) pattern then place ∷ [] else [])) }
{
    let Some(pattern) = pattern else {
        return Ok(());
    };
    if pattern < lists.len() {
        lists[pattern].push(place)?;
    }
    Ok(())
}

/// Returns for each of so many places whether it is one of these.
fn marks_at(alloc: Global, places: &[usize], count: usize) -> Result<Vec<bool>, AllocError>
    ensures { IfOk result (λ marks. (k : ℕ) → k < count
        → slice_index_or marks.items k false ≡ contains places.now k) }
{
    let mut marks = vec![in alloc; false; count]?;
    for place in places {
        if *place < marks.len() {
            marks[*place] = true;
        }
    }
    Ok(marks)
}

/// Adds the places of the matchers whose patterns are marked.
fn push_marked(
    patterns: &[Option<usize>],
    marks: &[bool],
    hits: &mut Vec<usize>,
) -> Result<(), AllocError>
    ensures { OnOk result (hits.new.items
        ≡ hits.old.items ++ places_where (is_marked marks.now) patterns.now) }
{
    for (place, pattern) in patterns.iter().enumerate() {
        if is_marked(marks, *pattern) {
            hits.push(place)?;
        }
    }
    Ok(())
}

/// Whether a pattern is there, and marked.
fn is_marked(marks: &[bool], pattern: Option<usize>) -> bool
    ensures { result ≡ is_marked marks.now pattern }
{
    match pattern {
        Some(place) => place < marks.len() && marks[place],
        None => false,
    }
}
