//! Tests of the values of labels, and the answers that are known.

ghost use Rattle.std.specs.Prelude.{◌≡◌, ◌<◌, ℕ, List, [], length, IfOk, IfSome, IsTrue, OnOk};
ghost use Rattle.std.specs.Borrow.{Bor};
ghost use Rattle.am_alerts.specs.Judge.{passes, text_at, IsSound, IsTestOf};

use am_labels::{Matcher, PreparedMatcher};
use std::alloc::{AllocError, Global};
use std::mem;

/// A test of the value of a label.
#[derive(Drop)]
pub(crate) enum ValueTest<'t> {
    /// That of a matcher.
    Matcher(PreparedMatcher<'t>),
    /// Whether it is this text.
    Equal(&'t str),
}

impl<'t> ValueTest<'t> {
    /// Whether a value passes the test.
    fn passes(&mut self, value: &str) -> bool
        ensures truth { result ≡ passes self.old value.now }
        ensures same { self.new ≡ self.old }
    {
        match self {
            ValueTest::Matcher(matcher) => matcher.holds(value),
            ValueTest::Equal(text) => *text == value,
        }
    }
}

/// Whether a value passes a test.
#[derive(Clone, Copy, Drop)]
pub(crate) struct Answer {
    /// The place of the value among all values.
    pub(crate) place: usize,
    pub(crate) passes: bool,
}

/// Tests the values of labels, those of one label after those of another. The answers for the last
/// label are kept, because labels often share their values, and matchers of a list their patterns.
/// Values are given by their places among all values, which are compared far faster than texts.
#[derive(Drop)]
pub(crate) struct Judge<'t> {
    pub(crate) test: ValueTest<'t>,
    /// The answers for the label that is judged, and for the one before it, in the order of the
    /// values.
    pub(crate) found: Vec<Answer>,
    pub(crate) before: Vec<Answer>,
    /// So many of those before have values that come no more.
    pub(crate) passed: usize,
}

impl<'t> Judge<'t> {
    /// A judge that knows no answer yet.
    pub(crate) fn of(alloc: Global, test: ValueTest<'t>) -> Judge<'t>
        ensures test { result.test ≡ test.entry }
        ensures sound { (values : List (Bor (List ℕ))) → IsSound values result }
    {
        Judge {
            test,
            found: Vec::new(alloc),
            before: Vec::new(alloc),
            passed: 0,
        }
    }

    /// Begins to judge another label. Returns whether the empty text passes the test.
    pub(crate) fn begin(&mut self) -> bool
        ensures empty { result ≡ passes self.old.test [] }
        ensures test { self.new.test ≡ self.old.test }
        ensures sound { (values : List (Bor (List ℕ))) → IsSound values self.old
            → IsSound values self.new }
    {
        mem::swap(&mut self.before, &mut self.found);
        self.found.clear();
        self.passed = 0;
        self.test.passes("")
    }

    /// Whether the value at a place passes the test. The values of a label come in order. Fails
    /// only if memory runs out.
    pub(crate) fn passes(&mut self, values: &[&str], place: usize) -> Result<bool, AllocError>
        requires place { place < length values.now }
        requires sound { IsSound values.now self.old }
        ensures truth { IfOk result (λ truth.
            truth ≡ passes self.old.test (text_at values.now place)) }
        ensures test { OnOk result (self.new.test ≡ self.old.test) }
        ensures sound { OnOk result (IsSound values.now self.new) }
    {
        let passes = self.answer(values, place);
        self.found.push(Answer { place, passes })?;
        Ok(passes)
    }

    /// Whether the value at a place passes the test, from the answers for the label before it, if
    /// that has the value too.
    fn answer(&mut self, values: &[&str], place: usize) -> bool
        requires place { place < length values.now }
        requires sound { IsSound values.now self.old }
        ensures truth { result ≡ passes self.old.test (text_at values.now place) }
        ensures test { self.new.test ≡ self.old.test }
        ensures found { self.new.found ≡ self.old.found }
        ensures sound { IsSound values.now self.new }
    {
        while self.passed < self.before.len() {
            let known = self.before[self.passed];
            if place < known.place {
                break;
            }
            self.passed += 1;
            if known.place == place {
                return known.passes;
            }
        }
        self.test.passes(values[place])
    }
}

/// Returns the judge for a matcher. It is the last one, if that is for a matcher that makes the
/// same test. Fails only if memory runs out.
pub(crate) fn judge_for<'t>(
    alloc: Global,
    matcher: &'t Matcher,
    last: Option<(&'t Matcher, Judge<'t>)>,
) -> Result<Judge<'t>, AllocError>
    requires last { IfSome last (λ known. IsTestOf known.1.test known.0.now) }
    ensures sound { IfOk result (λ judge. (values : List (Bor (List ℕ)))
        → IfSome last.entry (λ known. IsSound values known.1) → IsSound values judge) }
    ensures test { IfOk result (λ judge. IsTestOf judge.test matcher.now) }
{
    if let Some((other, judge)) = last {
        if is_same_test(other, matcher) {
            return Ok(judge);
        }
    }
    let test = ValueTest::Matcher(matcher.prepare(alloc)?);
    Ok(Judge::of(alloc, test))
}

/// Whether two matchers make the same test, each of its own label.
fn is_same_test(one: &Matcher, other: &Matcher) -> bool
    ensures { IsTrue result
        → (one.now.op ≡ other.now.op) × (one.now.value ≡ other.now.value) }
{
    one.op() == other.op() && one.value() == other.value()
}
