//! Patterns, which have to match a whole text.
//!
//! Most patterns have wildcards alone. Such a pattern is compared with a text as it is written. The
//! others are compiled, by the crates below `regex`: `regex_syntax` reads the text,
//! `regex_compile` makes an automaton of what was read, and `regex_vm` follows it. `regex` itself
//! has other engines too, and each check of a crate that knows matchers would load all of them.

ghost use Rattle.std.specs.Prelude.{◌≡◌, ◌≢◌, ◌≤◌, true, false, IfOk, IfErr};
ghost use Rattle.std.specs.Prelude.{OnOk, IfSome, string_bytes, map, option_map, length, vec_len};
ghost use Rattle.std.specs.Prelude.{is_some};
ghost use Rattle.regex_hir.specs.Text.{is_boundary};
ghost use Rattle.regex_nfa.specs.declared.nfa.Nfa.{Nfa};
ghost use Rattle.regex_syntax.specs.Verdict.{Reads, default_config};
ghost use Rattle.am_labels.specs.Pattern.{anchored_pattern, finds, is_pattern};
ghost use Rattle.am_labels.specs.PatternProfile.{in_profile};
ghost use Rattle.am_labels.specs.PatternView.{IsSearchFor, has_match, start_at};
ghost use Rattle.am_universe.specs.declared.kind.Kind.TheVariants as kinds;

use crate::known_answers::KnownAnswers;
use crate::pattern_profile::is_in_profile;
use crate::wildcard_match::wildcards_find;
use crate::wildcards::is_wildcards;
use am_universe::Kind;
use regex_nfa::Nfa;
use regex_syntax::{Config, ErrorKind, Parsed};
use regex_vm::PikeVm;
use std::alloc::{AllocError, Global};
use std::marker::Model;
use std::rc::Rc;

/// The most bytes that the tables of a compiled pattern may have. The crate `regex` has the same
/// limit, unless it is told another.
const MAX_PATTERN_BYTES: usize = 10 << 20;

/// A pattern, which has to match a whole text. It is compiled, unless it has wildcards alone. The
/// compiled form is large, so patterns of the same text may share it.
#[derive(Drop)]
pub(crate) struct Pattern {
    text: String,
    nfa: Option<Rc<Nfa>>,
}

impl Model for Pattern {
    ghost use Rattle.std.specs.Prelude.{◌≡◌, ℕ, List, MatchOption, string_bytes, true};
    ghost use Rattle.am_labels.specs.Pattern.{is_pattern};
    ghost use Rattle.am_labels.specs.PatternProfile.{in_profile};
    ghost use Rattle.am_labels.specs.PatternView.{IsSearchFor};
    ghost use Rattle.am_labels.specs.Wildcards.{is_wildcards};

    ghost Value = { List ℕ };

    ghost view = { λ p. string_bytes p.text };

    ghost invariant = { λ p. (in_profile (string_bytes p.text) ≡ true)
        × (is_pattern (string_bytes p.text) ≡ true)
        × MatchOption p.nfa (is_wildcards (string_bytes p.text) ≡ true)
        (λ nfa. IsSearchFor nfa.value (string_bytes p.text)) };
}

impl Pattern {
    /// Reads a pattern as `new` does. If the other pattern has the same text, nothing is compiled
    /// again.
    pub(crate) fn new_beside(
        alloc: Global,
        other: Option<&Pattern>,
        value: &str,
    ) -> Result<Pattern, Kind>
        ensures value { IfOk result (λ p. p ≡ value.now) }
        ensures profile { OnOk result (in_profile value.now ≡ true) }
        ensures read { OnOk result (is_pattern value.now ≡ true) }
        ensures outside { in_profile value.now ≡ false → result ≡ Err kinds.PatternProfile }
        ensures refused { in_profile value.now ≡ true
            → IfErr result (λ kind. kind ≢ kinds.Memory → kind ≡ kinds.Pattern) }
    {
        if let Some(other) = other
            && other.text.as_str() == value
        {
            return Ok(other.shared(alloc)?);
        }
        Pattern::new(alloc, value)
    }

    /// The same pattern again, which shares what is compiled. Fails only if memory runs out.
    fn shared(&self, alloc: Global) -> Result<Pattern, AllocError>
        ensures value { IfOk result (λ p. p ≡ self.now) }
        ensures profile { in_profile self.now ≡ true }
        ensures read { is_pattern self.now ≡ true }
    {
        let text = String::from_str(alloc, self.text.as_str())?;
        let nfa = match &self.nfa {
            Some(nfa) => Some(nfa.clone()?),
            None => None,
        };
        Ok(Pattern { text, nfa })
    }

    /// Reads a pattern. Fails with `PatternProfile` exactly if it is outside the profile. One that
    /// does not have wildcards alone is compiled: that fails with `Pattern` if its grammar does not
    /// read the anchored text, or if what is compiled is too large. Fails with `Memory` if memory
    /// runs out.
    #[tactic(auto, using(crate::proofs::WildcardMatches::wildcards_are_read))]
    pub(crate) fn new(alloc: Global, value: &str) -> Result<Pattern, Kind>
        ensures value { IfOk result (λ p. p ≡ value.now) }
        ensures profile { OnOk result (in_profile value.now ≡ true) }
        ensures read { OnOk result (is_pattern value.now ≡ true) }
        ensures outside { in_profile value.now ≡ false → result ≡ Err kinds.PatternProfile }
        ensures refused { in_profile value.now ≡ true
            → IfErr result (λ kind. kind ≢ kinds.Memory → kind ≡ kinds.Pattern) }
    {
        if !is_in_profile(value) {
            return Err(Kind::PatternProfile);
        }
        let text = String::from_str(alloc, value)?;
        if is_wildcards(alloc, value)? {
            return Ok(Pattern { text, nfa: None });
        }
        let Some(nfa) = compile_pattern(alloc, value, MAX_PATTERN_BYTES)? else {
            return Err(Kind::Pattern);
        };
        Ok(Pattern {
            text,
            nfa: Some(Rc::new(alloc, nfa)?),
        })
    }

    /// Prepares a search for this pattern in one text after another.
    pub(crate) fn matcher(&self, alloc: Global) -> Result<PatternMatcher<'_>, AllocError>
        ensures { IfOk result (λ m. m ≡ self.now) }
    {
        let search = match &self.nfa {
            Some(nfa) => Some(Search::new(alloc, nfa)?),
            None => None,
        };
        Ok(PatternMatcher {
            text: self.text.as_str(),
            search,
        })
    }
}

/// Compiles a pattern, anchored at both ends. Returns `None` if the grammar does not read it, or if
/// the tables of what is compiled would have more than so many bytes. Fails only if memory runs
/// out.
pub fn compile_pattern(
    alloc: Global,
    pattern: &str,
    most_bytes: usize,
) -> Result<Option<Nfa>, AllocError>
    ensures search { IfOk result (λ found. IfSome found (λ nfa. IsSearchFor nfa pattern.now)) }
    ensures read { IfOk result (λ found. IfSome found (λ _. is_pattern pattern.now ≡ true)) }
{
    let source = anchored_pattern(alloc, pattern)?;
    let Some(parsed) = read_pattern(alloc, source.as_str())? else {
        return Ok(None);
    };
    let Ok(groups) = u32::try_from(parsed.names.len()) else {
        return Ok(None);
    };
    match regex_compile::compile(alloc, &parsed.hir, groups, most_bytes) {
        Ok(nfa) => Ok(Some(nfa)),
        Err(regex_compile::Error::OutOfMemory) => Err(AllocError),
        Err(_) => Ok(None),
    }
}

/// Reads a text by the grammar of patterns. Returns `None` if the grammar does not read it. Fails
/// only if memory runs out.
fn read_pattern(alloc: Global, source: &str) -> Result<Option<Parsed>, AllocError>
    ensures { IfOk result (λ found. IfSome found (λ parsed. Reads default_config source.now
        parsed.hir (map (option_map string_bytes) parsed.names.items))) }
{
    match regex_syntax::parse(alloc, source, &Config::default()) {
        Ok(parsed) => Ok(Some(parsed)),
        Err(error) => match error.kind {
            ErrorKind::OutOfMemory => Err(AllocError),
            _ => Ok(None),
        },
    }
}

/// The text that is compiled for a pattern.
fn anchored_pattern(alloc: Global, value: &str) -> Result<String, AllocError>
    ensures { IfOk result (λ source. string_bytes source ≡ anchored_pattern value.now) }
{
    let mut source = String::new(alloc);
    source.push_str("^(?:")?;
    source.push_str(value)?;
    source.push_str(")$")?;
    Ok(source)
}

/// Searches for a pattern in one text after another. A search cannot fail.
#[derive(Drop)]
pub(crate) struct PatternMatcher<'p> {
    text: &'p str,
    search: Option<Search<'p>>,
}

impl<'p> Model for PatternMatcher<'p> {
    ghost use Rattle.std.specs.Prelude.{◌≡◌, ℕ, List, MatchOption, true};
    ghost use Rattle.am_labels.specs.PatternView.{IsSearchFor};
    ghost use Rattle.am_labels.specs.Wildcards.{is_wildcards};

    ghost Value = { List ℕ };

    ghost view = { λ m. m.text.now };

    ghost invariant = { λ m. MatchOption m.search (is_wildcards m.text.now ≡ true)
        (λ nfa. IsSearchFor nfa m.text.now) };
}

impl<'p> PatternMatcher<'p> {
    /// Whether the pattern matches the whole text.
    pub(crate) fn is_match(&mut self, text: &str) -> bool
        ensures found { result ≡ finds self.old text.now }
        ensures same { self.new ≡ self.old }
    {
        if let Some(search) = &mut self.search {
            return search.is_match(text);
        }
        wildcards_find(self.text, text)
    }
}

/// Searches for a compiled pattern. The room that a search needs is taken once. It is large, so it
/// is boxed.
#[derive(Drop)]
struct Search<'p> {
    nfa: &'p Nfa,
    vm: Box<PikeVm>,
    known: KnownAnswers,
}

impl<'p> Model for Search<'p> {
    ghost use Rattle.std.specs.Prelude.{◌≡◌, vec_len};
    ghost use Rattle.regex_nfa.specs.declared.nfa.Nfa.{Nfa};
    ghost use Rattle.am_labels.specs.PatternView.{has_match};
    ghost use Rattle.am_labels.specs.KnownAnswers.{AreAnswers};

    ghost Value = { Nfa };

    ghost view = { λ s. s.nfa.now };

    ghost invariant = { λ s. (s.vm.value.states ≡ vec_len s.nfa.now.states)
        × AreAnswers (has_match s.nfa.now) s.known };
}

impl<'p> Search<'p> {
    /// Prepares a search for a compiled pattern.
    fn new(alloc: Global, nfa: &'p Nfa) -> Result<Search<'p>, AllocError>
        ensures { IfOk result (λ search. search ≡ nfa.now) }
    {
        Ok(Search {
            nfa,
            vm: Box::new(alloc, PikeVm::new(alloc, nfa)?)?,
            known: KnownAnswers::new(alloc),
        })
    }

    /// Whether there is a match in a text. A text that comes again is not searched again.
    fn is_match(&mut self, text: &str) -> bool
        ensures found { result ≡ has_match self.old text.now }
        ensures same { self.new ≡ self.old }
    {
        if let Some(found) = self.known.get(text) {
            return found;
        }
        let found = has_match(&mut self.vm, self.nfa, text);
        self.known.keep(text, found);
        found
    }
}

/// Whether there is a match in a text. A match begins where a character does.
fn has_match(search: &mut PikeVm, nfa: &Nfa, text: &str) -> bool
    requires room { search.old.states ≡ vec_len nfa.now.states }
    ensures found { result ≡ has_match nfa.now text.now }
    ensures same { search.new ≡ search.old }
{
    let bytes = text.as_bytes();
    for start in 0..bytes.len() + 1 {
        if starts_match(search, nfa, bytes, start) {
            return true;
        }
    }
    false
}

/// Whether a match starts at a position of a text, and a character begins there.
fn starts_match(search: &mut PikeVm, nfa: &Nfa, bytes: &[u8], start: usize) -> bool
    requires room { search.old.states ≡ vec_len nfa.now.states }
    requires within { start ≤ length bytes.now }
    ensures match_there { result ≡ is_some (start_at nfa.now bytes.now start) }
    ensures same { search.new ≡ search.old }
{
    is_boundary(bytes, start) && search.is_match(nfa, bytes, start, start, bytes.len())
}

/// Whether a character begins at a position of a text, or the text ends there.
#[tactic(auto, using(std::proofs::lemmas::Bool::Decides::nat_tests, crate::proofs::PatternLemmas::reads), unfolding(regex_hir::specs::Text::is_boundary))]
fn is_boundary(bytes: &[u8], at: usize) -> bool
    ensures { result ≡ is_boundary bytes.now at }
{
    if at >= bytes.len() {
        return true;
    }
    (bytes[at] < 0x80) | (bytes[at] > 0xBF)
}
