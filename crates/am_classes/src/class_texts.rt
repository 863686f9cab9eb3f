//! One text for each class of texts that the matchers of a label cannot tell apart.
//!
//! Matchers name texts: the text behind `=` or `!=`, and the alternatives of a pattern that is an
//! alternation of plain texts, such as `db|web`. Of named texts that are alike one is kept. If no
//! matcher takes any other pattern, all texts that are not named are one more class. If some do,
//! the states of the label are explored. At a state where a character may begin, it follows from
//! the state which patterns find the text. So one text is kept for each set of patterns that find
//! one.
//!
//! The classes are found for all matchers together, and not joined from the classes of each.
//! Patterns of one label mostly exclude each other, and a class without a text is never listed.
//!
//! The search stops once there are more classes than a label may have values. If there are many
//! matchers, some of them may tell so many texts apart, and then all do. So those that name texts
//! are looked at first, and then `PART` matchers at a time, with texts that their patterns find.

ghost use Rattle.std.specs.Prelude.{◌≡◌, ◌++◌, ◌<◌, ◌⊎◌, ℕ, List, false, map, IfOk, IfSome};
ghost use Rattle.std.specs.Prelude.{IfNone, IsTrue, Contains, length, string_bytes, vec_len};
ghost use Rattle.std.specs.List.{AllByRecursion};
ghost use Rattle.am_universe.specs.declared.limits.TheConstants.{MAX_VALUES};
ghost use Rattle.am_labels.specs.Matcher.{Matcher};
ghost use Rattle.am_classes.specs.Alike.{Covers, AreApart, HasOtherPattern};
ghost use Rattle.am_classes.specs.Alphabet.{AreOver};
ghost use Rattle.am_classes.specs.declared.alphabet.Alphabet.{Alphabet};
ghost use Rattle.am_classes.specs.Found.{IsFoundFor};
ghost use Rattle.am_classes.specs.Named.{AreEachOnce, named_over};
ghost use Rattle.am_classes.specs.Parts.{AreClassTexts, AreParts};
ghost use Rattle.am_classes.specs.State.{patterns_of};
ghost use Rattle.am_classes.specs.Limits.{HaveTooManyStates, HaveWildcardsAlone};
ghost use Rattle.am_classes.specs.ClassTexts.{IsClassText, AreManyClasses};
ghost use Rattle.am_classes.specs.LabelTests.{IsTestsOf};
ghost use Rattle.am_classes.specs.declared.limits.TheConstants.{MAX_SAMPLE_NUMBERS};

use crate::candidate::Candidate;
use crate::found::Found;
use crate::label_tests::Asked;
use crate::named_texts::{named_texts, names_texts, naming_matchers};
use crate::parts::{Parts, apart_texts, parts_of, questions_of};
use crate::samples::samples;
use crate::{Alphabet, LabelTests, SpareAutomata};
use am_labels::Matcher;
use am_universe::limits::MAX_VALUES;
use std::alloc::{AllocError, Global};

/// How many matchers are looked at together, before all are. How long that takes grows with the
/// square of it.
const PART: usize = MAX_VALUES + MAX_VALUES / 2;

/// Texts of a label, no two of which are alike to its matchers.
#[derive(Drop)]
pub struct ClassTexts<'m> {
    /// The texts, those that a matcher names first.
    pub texts: Vec<String>,
    /// Whether each text that the label may have is alike to one of these. If not, there are more
    /// of these than a label may have values.
    pub all: bool,
    /// The matchers, or if the texts are not all, perhaps only some of them.
    pub tests: LabelTests<'m>,
}

/// Finds one text for each class of texts over an alphabet that matchers cannot tell apart. The
/// names of the matchers are ignored. Texts that matchers compare with come first, in the order of
/// the matchers. Then come alternatives of patterns, the shorter ones first. If all classes are
/// found, each other text is a shortest of its class or, if no matcher takes another pattern,
/// `other`, repeated until it is not named. Returns `None` if the classes cannot be computed: a
/// pattern cannot be followed, or there are too many states. If each pattern is an alternation of
/// plain texts, all classes are always found. If the others are made of plain characters, `.*` and
/// bars, they are found unless there are too many states or classes. What is spare is taken where
/// it fits: automata, and all that was found if the last label was asked the same. Fails only if
/// memory runs out.
pub fn classes<'m>(
    alloc: Global,
    alphabet: Alphabet,
    matchers: &[&'m Matcher],
    spare: &mut SpareAutomata<'m>,
) -> Result<Option<ClassTexts<'m>>, AllocError>
    ensures covers { IfOk result (λ found. IfSome found (λ classes. IsTrue classes.all
        → Covers alphabet (map (λ m. m.now) matchers.now) (map string_bytes classes.texts.items))) }
    ensures many { IfOk result (λ found. IfSome found (λ classes. classes.all ≡ false
        → (MAX_VALUES < vec_len classes.texts)
        × HasOtherPattern (map (λ m. m.now) matchers.now))) }
    ensures over { IfOk result (λ found. IfSome found (λ classes.
        AreOver alphabet (map string_bytes classes.texts.items))) }
    ensures apart { IfOk result (λ found. IfSome found (λ classes.
        AreApart (map (λ m. m.now) matchers.now) (map string_bytes classes.texts.items))) }
    ensures tied { IfOk result (λ found. IfSome found (λ classes. AllByRecursion
        (λ text. IsClassText alphabet (map (λ m. m.now) matchers.now) text
        ⊎ ((classes.all ≡ false) × (length text < MAX_SAMPLE_NUMBERS)))
        (map string_bytes classes.texts.items))) }
    ensures tests { IfOk result (λ found. IfSome found (λ classes. (ms : List Matcher)
        × IsTestsOf ms classes.tests
        × AllByRecursion (Contains (map (λ m. m.now) matchers.now)) ms
        × (IsTrue classes.all → ms ≡ map (λ m. m.now) matchers.now))) }
    ensures none { IfOk result (λ found. IfNone found
        (HasOtherPattern (map (λ m. m.now) matchers.now)
        × (HaveWildcardsAlone (map (λ m. m.now) matchers.now)
        → HaveTooManyStates alphabet (map (λ m. m.now) matchers.now)))) }
{
    if let Some(many) = many_classes(alloc, alphabet, matchers)? {
        return Ok(Some(many));
    }
    let tests = LabelTests::of(alloc, matchers)?;
    let texts = named_texts(alloc, alphabet, matchers)?;
    let Some(parts) = parts_of(alloc, alphabet, &tests, texts, spare)? else {
        return Ok(None);
    };
    let classes = classes_of(alloc, tests, parts)?;
    Ok(Some(classes))
}

/// Returns the classes of a label from its parts.
fn classes_of<'m>(
    alloc: Global,
    tests: LabelTests<'m>,
    parts: Parts,
) -> Result<ClassTexts<'m>, AllocError>
    requires patterns { patterns_of parts.questions ≡ map (λ p. p.now) tests.patterns.keys }
    requires found { IsFoundFor parts.questions parts.candidates }
    ensures { IfOk result (λ classes. (ms : List Matcher) (a : Alphabet) (texts : List (List ℕ))
        → IsTestsOf ms tests.entry → AreEachOnce (named_over a ms) texts
        → AreParts a tests.entry texts parts
        → AreClassTexts a ms classes) }
{
    let Parts {
        questions,
        named,
        candidates,
    } = parts;
    let all = candidates.all;
    let texts = with_texts(alloc, named, candidates.items.as_slice())?;
    let found = Found::of(alloc, questions, candidates)?;
    let tests = tests.with_asked(Asked::Found(found));
    Ok(ClassTexts { texts, all, tests })
}

/// Returns more texts than a label may have values, no two of which are alike, if a part of many
/// matchers tells so many apart and a matcher takes a pattern that is no alternation. The first
/// part is made of all matchers that name texts.
fn many_classes<'m>(
    alloc: Global,
    alphabet: Alphabet,
    matchers: &[&'m Matcher],
) -> Result<Option<ClassTexts<'m>>, AllocError>
    ensures many { IfOk result (λ found. IfSome found
        (AreManyClasses alphabet (map (λ m. m.now) matchers.now))) }
    ensures other { IfOk result (λ found. IfSome found
        (λ _. HasOtherPattern (map (λ m. m.now) matchers.now))) }
{
    if matchers.len() < MAX_VALUES || !has_other_pattern(matchers) {
        return Ok(None);
    }
    let naming = naming_matchers(alloc, matchers)?;
    let many = many_of_part(alloc, alphabet, naming.as_slice())?;
    if many.is_some() {
        return Ok(many);
    }
    let mut from = 0;
    while from < matchers.len() {
        let end = matchers.len().min(from + PART);
        let many = many_of_part(alloc, alphabet, &matchers[from..end])?;
        if many.is_some() {
            return Ok(many);
        }
        from = end;
    }
    Ok(None)
}

/// Whether a matcher takes a pattern that is no alternation of plain texts.
fn has_other_pattern(matchers: &[&Matcher]) -> bool
    ensures { IsTrue result → HasOtherPattern (map (λ m. m.now) matchers.now) }
{
    for matcher in matchers {
        if !names_texts(matcher) {
            return true;
        }
    }
    false
}

/// Tests the texts that matchers name, and texts that their patterns find. Returns those that are
/// alike to none before them, if they are more than a label may have values.
fn many_of_part<'m>(
    alloc: Global,
    alphabet: Alphabet,
    matchers: &[&'m Matcher],
) -> Result<Option<ClassTexts<'m>>, AllocError>
    ensures { IfOk result (λ found. IfSome found
        (AreManyClasses alphabet (map (λ m. m.now) matchers.now))) }
{
    let tests = LabelTests::of(alloc, matchers)?;
    let patterns = tests.patterns.as_slice();
    let texts = named_texts(alloc, alphabet, matchers)?;
    let mut spare = SpareAutomata::none(alloc);
    let Some(questions) = questions_of(alloc, alphabet, texts, patterns, &mut spare)? else {
        return Ok(None);
    };
    let automata = questions.automata.as_slice();
    let mut texts = questions.texts.as_slice().to_vec(alloc)?;
    // Each text is tested by each pattern. So if there are patterns, only the first texts are.
    texts.truncate(if automata.is_empty() {
        usize::MAX
    } else {
        PART
    });
    texts.append(&mut samples(alloc, alphabet, patterns, automata)?)?;
    let texts = apart_texts(alloc, &tests, &questions, texts.as_slice())?;
    if texts.len() <= MAX_VALUES {
        return Ok(None);
    }
    let tests = tests.with_asked(Asked::Questions(questions));
    Ok(Some(ClassTexts {
        texts,
        all: false,
        tests,
    }))
}

/// Returns texts, followed by copies of those of candidates.
fn with_texts(
    alloc: Global,
    mut texts: Vec<String>,
    candidates: &[Candidate],
) -> Result<Vec<String>, AllocError>
    ensures { IfOk result (λ all. map string_bytes all.items
        ≡ map string_bytes texts.items ++ map (λ c. string_bytes c.text) candidates.now) }
{
    for candidate in candidates {
        texts.push(String::from_str(alloc, candidate.text.as_str())?)?;
    }
    Ok(texts)
}
