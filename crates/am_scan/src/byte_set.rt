ghost use Rattle.std.specs.Prelude.{◌≡◌, ◌||◌, ◌==◌, ◌<◌, ℕ, true, false, IsTrue};

/// A set of bytes: those that some texts may have.
#[derive(Clone, Copy, PartialEq, Eq, Drop)]
pub struct ByteSet {
    pub(crate) marks: [bool; 256],
}

impl ByteSet {
    ghost use Rattle.std.specs.List.{list_all};
    ghost use Rattle.am_scan.specs.Sight.{is_scanned};

    /// Returns the set of no byte.
    pub fn empty() -> ByteSet
        ensures { (b : ℕ) → is_scanned result b ≡ false }
    {
        ByteSet {
            marks: [false; 256],
        }
    }

    /// Returns the set of all bytes.
    pub fn full() -> ByteSet
        ensures { (b : ℕ) → b < 256 → is_scanned result b ≡ true }
    {
        ByteSet { marks: [true; 256] }
    }

    /// Adds a byte.
    pub fn insert(&mut self, byte: u8)
        ensures { (b : ℕ) → is_scanned self.new b ≡ (is_scanned self.old b || b == byte) }
    {
        self.marks[usize::from(byte)] = true;
    }

    /// Whether a byte is in the set.
    pub fn has(&self, byte: u8) -> bool
        ensures { result ≡ is_scanned self.now byte }
    {
        self.marks[usize::from(byte)]
    }

    /// Whether each byte of a text is in the set.
    pub fn has_all(&self, text: &str) -> bool
        ensures { result ≡ list_all (is_scanned self.now) text.now }
    {
        text.as_bytes().iter().all(|byte| self.has(*byte))
    }

    /// Whether all bytes of the set are of ASCII. Only `true` promises something.
    pub(crate) fn is_ascii(&self) -> bool
        ensures { IsTrue result → (b : ℕ) → is_scanned self.now b ≡ true → b < 128 }
    {
        for byte in 128..=u8::MAX {
            if self.has(byte) {
                return false;
            }
        }
        true
    }
}
