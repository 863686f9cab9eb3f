ghost use Rattle.std.specs.Prelude.{◌≡◌};
ghost use Rattle.am_classes.specs.Alphabet.{has_byte, is_over};

/// Which texts a label may have.
#[derive(Clone, Copy, Debug, PartialEq, Eq, Drop)]
pub enum Alphabet {
    /// All texts in UTF-8.
    Unicode,
    /// Texts of printable ASCII alone: the characters from the blank (0x20) to `~` (0x7E).
    Ascii,
}

impl Alphabet {
    /// Whether a text may have a byte, if no other byte is looked at.
    pub(crate) fn has_byte(self, byte: u8) -> bool
        ensures { result ≡ has_byte self byte }
    {
        match self {
            Alphabet::Unicode => true,
            Alphabet::Ascii => matches!(byte, 0x20..=0x7E),
        }
    }

    /// Whether a text is over the alphabet.
    pub fn has(self, text: &str) -> bool
        ensures over { result ≡ is_over self text.now }
    {
        text.as_bytes().iter().all(|byte| self.has_byte(*byte))
    }
}
