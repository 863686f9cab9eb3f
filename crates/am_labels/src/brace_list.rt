//! Where a list of matchers in braces ends in a question.

ghost use Rattle.std.specs.Prelude.{◌≡◌, ◌<◌, length, IfSome};
ghost use Rattle.am_labels.specs.BraceList.{first_closing, brace_len};

use crate::quotes::QuoteState;

/// The length in bytes of the matcher list in braces with which a text begins.
///
/// The list goes from the `{` to the first `}` outside quoted parts, which are those of a matcher
/// text. `None` if the text does not begin with `{`, or has no such `}`.
pub fn brace_len(text: &str) -> Option<usize>
    ensures len { result ≡ brace_len text.now }
{
    if !text.starts_with('{') {
        return None;
    }
    let last = first_closing(text.as_bytes())?;
    Some(last + 1)
}

/// The index of the first closing brace outside quoted parts.
#[tactic(auto, using(std::proofs::lemmas::Grind::common_steps, std::proofs::Common::below_more))]
fn first_closing(text: &[u8]) -> Option<usize>
    ensures index { result ≡ first_closing text.now }
    ensures within { IfSome result (λ i. i < length text.now) }
{
    let mut state = QuoteState::start();
    for (i, byte) in text.iter().enumerate() {
        if state.is_outside(*byte, b'}') {
            return Some(i);
        }
        state = state.next(*byte);
    }
    None
}
