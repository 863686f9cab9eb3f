//! What a search answered for a few texts, so that a text that comes again is not searched again.

ghost use Rattle.std.specs.Prelude.{◌≡◌, ◌<◌, ℕ, List, Bool, IfOk, IfSome};
ghost use Rattle.am_labels.specs.KnownAnswers.{AreAnswers};

use std::alloc::Global;

/// How many places there are for answers.
const PLACES: usize = 64;

/// The most bytes of a text of which the answer is kept. So little memory is taken for a search.
const MAX_TEXT_BYTES: usize = 64;

/// Answers for texts. A text has one place, by its bytes, and the first text of a place keeps it.
#[derive(Drop)]
pub(crate) struct KnownAnswers {
    answers: Vec<KnownAnswer>,
    // Which of the answers is at each place. A position behind them all says that none is.
    at_place: [u8; PLACES],
}

/// A text, and what was answered for it.
#[derive(Drop)]
struct KnownAnswer {
    text: String,
    answer: bool,
}

impl KnownAnswers {
    /// No answers. Takes no memory yet.
    pub(crate) fn new(alloc: Global) -> KnownAnswers
        ensures { (truth : List ℕ → Bool) → AreAnswers truth result }
    {
        KnownAnswers {
            answers: Vec::new(alloc),
            at_place: [u8::MAX; PLACES],
        }
    }

    /// Returns the answer for a text, if it was kept.
    pub(crate) fn get(&self, text: &str) -> Option<bool>
        ensures { (truth : List ℕ → Bool) → AreAnswers truth self.now
            → IfSome result (λ answer. answer ≡ truth text.now) }
    {
        if text.len() > MAX_TEXT_BYTES {
            return None;
        }
        let i = self.at_place[place_of(text)] as usize;
        if i < self.answers.len() && self.answers[i].text.as_str() == text {
            return Some(self.answers[i].answer);
        }
        None
    }

    /// Keeps the answer for a text, if the place of the text is free.
    pub(crate) fn keep(&mut self, text: &str, answer: bool)
        ensures { (truth : List ℕ → Bool) → AreAnswers truth self.old → answer ≡ truth text.now
            → AreAnswers truth self.new }
    {
        let count = self.answers.len();
        if text.len() > MAX_TEXT_BYTES || count >= PLACES {
            return;
        }
        let place = place_of(text);
        if (self.at_place[place] as usize) < count {
            return;
        }
        if let Ok(text) = String::from_str(*self.answers.allocator(), text)
            && self.answers.push(KnownAnswer { text, answer }).is_ok()
        {
            self.at_place[place] = count as u8;
        }
    }
}

/// The place of a text.
fn place_of(text: &str) -> usize
    ensures { result < 64 }
{
    let mut place = 0u8;
    for byte in text.as_bytes() {
        place = place.wrapping_mul(31).wrapping_add(*byte);
    }
    place as usize % PLACES
}
