//! The texts of a label of a universe, and which of them stands for another text.

ghost use Rattle.std.specs.Prelude.{◌≡◌, ◌<◌, [], List, length, map, position, slice_get, Some};
ghost use Rattle.std.specs.Prelude.{string_bytes, unwrap_or, IfOk, OnOk};
ghost use Rattle.am_universe.specs.Universe.{Label, values_at};
ghost use Rattle.am_labels.specs.Matcher.{Matcher};
ghost use Rattle.am_classes.specs.Truths.{are_same};
ghost use Rattle.am_rule_outcomes.specs.Narrowing.{alike_position};
ghost use Rattle.am_rule_outcomes.specs.NarrowingView.{IsLabelTexts};

use am_classes::{LabelTests, Tested};
use am_labels::Matcher;
use am_universe::Universe;
use indexmap::IndexMap;
use std::alloc::{AllocError, Global};

/// The texts that a label has in a universe, tested by the matchers of the label. Absence is the
/// empty text.
#[derive(Drop)]
pub(crate) struct LabelTexts<'a, 'm> {
    name: &'a str,
    tests: LabelTests<'m>,
    texts: Vec<Tested>,
    /// Texts that were looked for, each with the position of the first text that is alike to it.
    known: IndexMap<String, Option<usize>>,
}

impl<'a, 'm> LabelTexts<'a, 'm> {
    /// The texts of the label at a position of a universe, with the matchers that ask about it.
    pub(crate) fn of(
        alloc: Global,
        universe: &'a Universe,
        i: usize,
        matchers: &[&'m Matcher],
    ) -> Result<LabelTexts<'a, 'm>, AllocError>
        requires { i < length universe.now }
        ensures { IfOk result (λ texts. (label : Label) → slice_get universe.now i ≡ Some label
            → IsLabelTexts (map (λ m. m.now) matchers.now) label texts) }
    {
        let tests = LabelTests::of(alloc, matchers)?;
        let texts = tests.tested(alloc, texts_at(alloc, universe, i)?)?;
        Ok(LabelTexts {
            name: universe.name(i),
            tests,
            texts,
            known: IndexMap::new(alloc),
        })
    }

    /// The name of the label.
    pub(crate) fn name(&self) -> &'a str
        ensures { result.now ≡ self.now.name.now }
    {
        self.name
    }

    /// Returns the position of the first text that is alike to a text: each matcher of the label
    /// has the same truth on both. Fails only if memory runs out.
    pub(crate) fn alike_position(
        &mut self,
        alloc: Global,
        text: &str,
    ) -> Result<Option<usize>, AllocError>
        ensures position { IfOk result (λ found. (ms : List Matcher) (label : Label)
            → IsLabelTexts ms label self.old → found ≡ alike_position ms text.now label) }
        ensures same { OnOk result ((ms : List Matcher) (label : Label)
            → IsLabelTexts ms label self.old → IsLabelTexts ms label self.new) }
    {
        if let Some(position) = self.known.get(text) {
            return Ok(*position);
        }
        let wanted = vec![in alloc; String::from_str(alloc, text)?]?;
        let tested = self.tests.tested(alloc, wanted)?;
        let position = first_alike(self.texts.as_slice(), &tested[0]);
        self.known.insert(String::from_str(alloc, text)?, position)?;
        Ok(position)
    }
}

/// Returns the texts of the label at a position. Absence is the empty text.
fn texts_at(alloc: Global, universe: &Universe, i: usize) -> Result<Vec<String>, AllocError>
    requires { i < length universe.now }
    ensures { IfOk result (λ texts. map string_bytes texts.items
        ≡ map (λ v. unwrap_or v []) (values_at universe.now i)) }
{
    let size = universe.size(i);
    let mut texts = Vec::with_capacity(alloc, size)?;
    for j in 0..size {
        let text = universe.value(i, j).unwrap_or("");
        texts.push(String::from_str(alloc, text)?)?;
    }
    Ok(texts)
}

/// The position of the first of some texts that is alike to a text.
fn first_alike(texts: &[Tested], wanted: &Tested) -> Option<usize>
    ensures { result ≡ position (λ t. are_same t.hits wanted.now.hits) texts.now }
{
    texts
        .iter()
        .position(|text| text.hits.as_slice() == wanted.hits.as_slice())
}
