ghost use Rattle.std.specs.Prelude.{◌≡◌};
ghost use Rattle.std.specs.List.{list_all};
ghost use Rattle.regex_hir.specs.Looks as looks;
ghost use Rattle.regex_nfa.specs.Sides.{seen};
ghost use Rattle.am_scan.specs.Sight.{kind_of, sees, sees_state};

use regex_hir::Look;
use regex_nfa::{Side, State, holds_between, is_word_byte};

/// What the assertions of a pattern see of a byte, besides that there is one. The less they see,
/// the fewer states there are.
#[derive(Clone, Copy, Drop)]
pub(crate) struct Sight {
    /// Whether they tell a line feed and a carriage return from other bytes.
    pub(crate) lines: bool,
    /// Whether they tell the bytes of words, which are letters, digits and `_`, from other bytes.
    pub(crate) words: bool,
}

impl Sight {
    /// Returns what the assertions of these states see, and no more.
    pub(crate) fn of(states: &[State]) -> Sight {
        let words_alone = Sight {
            lines: false,
            words: true,
        };
        let lines_alone = Sight {
            lines: true,
            words: false,
        };
        Sight {
            lines: !words_alone.sees_all(states),
            words: !lines_alone.sees_all(states),
        }
    }

    /// Returns the kind of a byte: a byte that stands for all that look the same to the assertions.
    pub(crate) fn kind_of(self, byte: u8) -> u8
        ensures { result ≡ kind_of self byte }
    {
        if self.lines && matches!(byte, b'\n' | b'\r') {
            byte
        } else if self.words && is_word_byte(byte) {
            b'a'
        } else {
            0
        }
    }

    /// Whether this is enough for an assertion.
    pub(crate) fn sees(self, look: Look) -> bool
        ensures { result ≡ sees self look }
    {
        match look {
            Look::Start | Look::End => true,
            Look::StartLf | Look::EndLf | Look::StartCrlf | Look::EndCrlf => self.lines,
            _ => self.words,
        }
    }

    /// Whether this is enough for the assertion of a state, if it has one.
    #[tactic(auto, unfolding(crate::specs::Sight::sees_state))]
    pub(crate) fn sees_state(self, state: State) -> bool
        ensures { result ≡ sees_state self state }
    {
        match state {
            State::Look { look, .. } => self.sees(look),
            _ => true,
        }
    }

    /// Whether this is enough for the assertions of all these states.
    pub(crate) fn sees_all(self, states: &[State]) -> bool
        ensures { result ≡ list_all (sees_state self) states.now }
    {
        states.iter().all(|state| self.sees_state(*state))
    }
}

/// Whether an assertion holds between two bytes; `None` is the edge of the text.
pub(crate) fn holds(look: Look, before: Option<u8>, after: Option<u8>) -> bool
    ensures { result ≡ looks.holds_between look
        (record { byte = before; char = before }) (record { byte = after; char = after }) }
{
    holds_between(look, side_of(before), side_of(after))
}

/// Returns what an assertion sees on one side. The byte there, if there is one, is taken as a
/// character.
fn side_of(byte: Option<u8>) -> Side
    ensures { seen result ≡ record { byte = byte; char = byte } }
{
    Side {
        byte,
        char: match byte {
            Some(byte) => Some(u32::from(byte)),
            None => None,
        },
    }
}
