ghost use Rattle.std.specs.Prelude.{◌≡◌};
ghost use Rattle.am_scan.specs.Sight.{is_scanned};
ghost use Rattle.am_classes.specs.Utf8.{text_step, tail_step, is_whole};

use am_scan::ByteSet;

/// How the end of a text in UTF-8 begins: how many bytes at its front belong to a character that
/// begins before them, and which bytes the first of these allows before it.
#[derive(Clone, Copy, PartialEq, Eq, Hash, Drop)]
pub(crate) enum Tail {
    /// A character begins here, or the text ends.
    Whole,
    One,
    /// Two bytes, of which the first is below `A0`.
    TwoLow,
    TwoHigh,
    /// Three bytes, of which the first is below `90`.
    ThreeLow,
    ThreeHigh,
}

impl Tail {
    /// Whether a character begins at the front, or the text ends there.
    pub(crate) fn is_whole(self) -> bool
        ensures { result ≡ is_whole self }
    {
        matches!(self, Tail::Whole)
    }

    /// Returns the tail with one more byte before it, or `None` if no text that has only certain
    /// bytes has such a byte there.
    pub(crate) fn step(self, bytes: &ByteSet, byte: u8) -> Option<Tail>
        ensures { result ≡ text_step (is_scanned bytes.now) self byte }
    {
        if bytes.has(byte) {
            self.utf8_step(byte)
        } else {
            None
        }
    }

    /// Returns the tail with one more byte before it, or `None` if UTF-8 allows no such byte there.
    fn utf8_step(self, byte: u8) -> Option<Tail>
        ensures { result ≡ tail_step self byte }
    {
        match (self, byte) {
            (Tail::Whole, 0x00..=0x7F) => Some(Tail::Whole),
            (Tail::Whole, 0x80..=0xBF) => Some(Tail::One),
            (Tail::One, 0x80..=0x9F) => Some(Tail::TwoLow),
            (Tail::One, 0xA0..=0xBF) => Some(Tail::TwoHigh),
            (Tail::One, 0xC2..=0xDF) => Some(Tail::Whole),
            (Tail::TwoLow | Tail::TwoHigh, 0x80..=0x8F) => Some(Tail::ThreeLow),
            (Tail::TwoLow | Tail::TwoHigh, 0x90..=0xBF) => Some(Tail::ThreeHigh),
            (Tail::TwoLow, 0xE1..=0xEF) => Some(Tail::Whole),
            (Tail::TwoHigh, 0xE0..=0xEC | 0xEE..=0xEF) => Some(Tail::Whole),
            (Tail::ThreeLow, 0xF1..=0xF4) => Some(Tail::Whole),
            (Tail::ThreeHigh, 0xF0..=0xF3) => Some(Tail::Whole),
            _ => None,
        }
    }
}
