ghost use Rattle.std.specs.Prelude.{◌≡◌, ◌<◌, [], ◌∷◌, length, map, Some, IfOk, IfSome, slice_get};
ghost use Rattle.am_universe.specs.Universe.{sizes, values_at};
ghost use Rattle.am_labels.specs.Row.{row_of, truth_at, truth_on_value};
ghost use Rattle.am_labels.specs.declared.op.Op.TheVariants.{Equal};

use crate::Matcher;
use crate::matcher::PreparedMatcher;
use am_universe::Universe;
use std::alloc::{AllocError, Global};
use std::marker::Model;

/// A matcher's truth on each value of its label.
#[derive(Drop)]
pub struct Row {
    label: Option<usize>,
    truths: Vec<bool>,
}

impl Model for Row {
    ghost use Rattle.std.specs.Prelude.{◌≡◌, None, length};
    ghost use Rattle.am_labels.specs.Row.{TruthRow};

    ghost Value = { TruthRow };

    ghost view = { λ r. record { label = r.label; truths = r.truths.items } };

    ghost invariant = { λ r. r.label ≡ None → length r.truths.items ≡ 1 };
}

impl Row {
    /// The position of the matcher's label; `None` if the label is not declared.
    pub fn label(&self) -> Option<usize>
        ensures label { result ≡ self.now.label }
    {
        self.label
    }

    /// Whether the matcher is true on the label's value at `j`.
    ///
    /// If the label is not declared, the answer is the same for every `j`: whether the matcher is
    /// true on the empty text.
    pub fn holds(&self, j: usize) -> bool
        requires { IfSome self.now.label (λ _. j < length self.now.truths) }
        ensures truth { result ≡ truth_at self.now j }
    {
        match self.label {
            Some(_) => self.truths[j],
            None => self.truths[0],
        }
    }

    /// The row of the matcher `name="value"`, for any name and any value.
    ///
    /// No matcher is made. Fails only if memory runs out.
    pub fn of_value(
        alloc: Global,
        universe: &Universe,
        name: &str,
        value: &str,
    ) -> Result<Row, AllocError>
        ensures row { IfOk result (λ row. row ≡ row_of universe.now
            (record { name = name.now; op = Equal; value = value.now })) }
    {
        let mut matcher = PreparedMatcher::of_value(name, value);
        matcher.row(alloc, universe)
    }
}

impl Matcher {
    /// The matcher's truth on each value of its label in the universe, where absence is the empty
    /// text.
    ///
    /// If the label is not declared, the row has the truth on the empty text alone. One search
    /// serves all values, and the memory of the row is taken at once. Fails only if memory runs
    /// out.
    pub fn row(&self, alloc: Global, universe: &Universe) -> Result<Row, AllocError>
        ensures row { IfOk result (λ row. row ≡ row_of universe.now self.now) }
        ensures sized { IfOk result (λ row. IfSome row.label (λ i.
            slice_get (sizes universe.now) i ≡ Some (length row.truths))) }
    {
        let mut prepared = self.prepare(alloc)?;
        prepared.row(alloc, universe)
    }
}

impl<'m> PreparedMatcher<'m> {
    /// The row of this matcher.
    fn row(&mut self, alloc: Global, universe: &Universe) -> Result<Row, AllocError>
        ensures row { IfOk result (λ row. row ≡ row_of universe.now self.old) }
        ensures sized { IfOk result (λ row. IfSome row.label (λ i.
            slice_get (sizes universe.now) i ≡ Some (length row.truths))) }
    {
        let label = universe.position(self.name());
        let truths = match label {
            Some(i) => declared_truths(alloc, self, universe, i)?,
            None => undeclared_truths(alloc, self)?,
        };
        Ok(Row { label, truths })
    }
}

/// The truth of a matcher on each value of a label.
fn declared_truths(
    alloc: Global,
    prepared: &mut PreparedMatcher<'_>,
    universe: &Universe,
    i: usize,
) -> Result<Vec<bool>, AllocError>
    requires { i < length universe.now }
    ensures truths { IfOk result (λ truths.
        truths.items ≡ map (truth_on_value prepared.old) (values_at universe.now i)) }
    ensures sized { IfOk result (λ truths.
        slice_get (sizes universe.now) i ≡ Some (length truths.items)) }
{
    let size = universe.size(i);
    let mut truths = Vec::with_capacity(alloc, size)?;
    for j in 0..size {
        truths.push(prepared.holds(universe.value(i, j).unwrap_or("")))?;
    }
    Ok(truths)
}

/// The truth of a matcher on the empty text.
fn undeclared_truths(
    alloc: Global,
    prepared: &mut PreparedMatcher<'_>,
) -> Result<Vec<bool>, AllocError>
    ensures { IfOk result (λ truths. truths.items ≡ truth_on_value prepared.old None ∷ []) }
{
    let mut truths = Vec::with_capacity(alloc, 1)?;
    truths.push(prepared.holds(""))?;
    Ok(truths)
}
