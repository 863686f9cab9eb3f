ghost use Rattle.std.specs.Prelude.{◌≡◌, ◌∷◌, [], IfOk};

use crate::label_state::LabelState;
use crate::questions::Questions;
use std::alloc::{AllocError, Global};

/// A state of a label, and a text that leads to it. Two are equal if their states are.
#[derive(Drop)]
#[derive_where(PartialEq, Eq, Hash)]
pub(crate) struct ReachedState<'q> {
    pub(crate) state: LabelState<'q>,
    #[derive_where(skip(EqHashOrd))]
    pub(crate) text: Vec<u8>,
}

impl<'q> ReachedState<'q> {
    ghost use Rattle.am_classes.specs.State.{FollowsLabel};

    /// The empty text with its state.
    pub(crate) fn end(
        alloc: Global,
        questions: &'q Questions,
    ) -> Result<ReachedState<'q>, AllocError>
        ensures follows { IfOk result (λ item.
            FollowsLabel questions.now item.state item.text.items) }
        ensures empty { IfOk result (λ item. item.text.items ≡ []) }
    {
        Ok(ReachedState {
            state: questions.end(alloc)?,
            text: Vec::new(alloc),
        })
    }

    /// Returns the text with one more byte before it, beside a state.
    pub(crate) fn longer(
        &self,
        alloc: Global,
        byte: u8,
        state: LabelState<'q>,
    ) -> Result<ReachedState<'q>, AllocError>
        ensures text { IfOk result (λ longer. longer.text.items ≡ byte ∷ self.now.text.items) }
        ensures state { IfOk result (λ longer. longer.state ≡ state.entry) }
    {
        let mut text = vec![in alloc; byte]?;
        text.extend_from_slice(self.text.as_slice())?;
        Ok(ReachedState { state, text })
    }
}
