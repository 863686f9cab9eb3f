//! Quoted parts and escapes of a matcher text.

ghost use Rattle.std.specs.Prelude.{◌≡◌, ◌+◌, ◌<◌, ◌==◌, ◌&&◌, ℕ, List, length, slice_index, not};
ghost use Rattle.am_labels.specs.MatcherText.{is_quote, is_quoted};
ghost use Rattle.am_labels.specs.QuoteState.{IsStateAt};

/// What the bytes before an index of a text tell about the index.
#[derive(Clone, Copy)]
pub(crate) struct QuoteState {
    /// An odd number of backslashes is directly before the index.
    escaped: bool,
    /// The index is in a quoted part.
    quoted: bool,
}

impl QuoteState {
    /// The state of the first index of a text.
    pub(crate) fn start() -> QuoteState
        ensures { (text : List ℕ) → IsStateAt text 0 result }
    {
        QuoteState {
            escaped: false,
            quoted: false,
        }
    }

    /// The state of the next index, after this byte.
    #[tactic(auto, using(std::proofs::lemmas::Grind::common_steps, crate::proofs::MatcherTextIndices::escaped_next, crate::proofs::MatcherTextIndices::quoted_next))]
    pub(crate) fn next(self, byte: u8) -> QuoteState
        ensures { (text : List ℕ) (i : ℕ) → i < length text → slice_index text i ≡ byte
            → IsStateAt text i self → IsStateAt text (i + 1) result }
    {
        let quoted = if self.is_quote(byte) {
            !self.quoted
        } else {
            self.quoted
        };
        QuoteState {
            escaped: byte == b'\\' && !self.escaped,
            quoted,
        }
    }

    /// Whether the byte at the index is a quote that is not escaped.
    pub(crate) fn is_quote(self, byte: u8) -> bool
        ensures { (text : List ℕ) (i : ℕ) → slice_index text i ≡ byte → IsStateAt text i self
            → result ≡ is_quote text i }
    {
        byte == b'"' && !self.escaped
    }

    /// Whether the byte at the index is the wanted one, outside quoted parts.
    pub(crate) fn is_outside(self, byte: u8, wanted: u8) -> bool
        ensures { (text : List ℕ) (i : ℕ) → slice_index text i ≡ byte → IsStateAt text i self
            → result ≡ (slice_index text i == wanted && not (is_quoted text i)) }
    {
        byte == wanted && !self.quoted
    }
}
