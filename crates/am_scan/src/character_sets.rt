//! Which characters patterns can tell apart.
//!
//! A pattern asks of a character that is not of ASCII only whether it is in certain sets, which are
//! the classes of the pattern, or is a certain character, which stands in the pattern by itself.
//! Two characters are alike if all answers are the same, and both take as many bytes. In a text,
//! one may stand for the other: the pattern finds both texts or neither. So only one character of
//! each kind needs to be tried, and few bytes are in these. The classes of `\w`, for example, have
//! two kinds of characters for each number of bytes.
ghost use Rattle.std.specs.Prelude.{◌≡◌, ◌<◌, ◌⊎◌, [], ℕ, true, Some, IsTrue, IfOk, IfSome, OnOk};
ghost use Rattle.std.specs.Prelude.{chars, encode_utf8, map, option_map, slice_get, string_bytes};
ghost use Rattle.std.specs.List.{AllByRecursion};
ghost use Rattle.regex_class.specs.Ranges.{in_ranges, HasExactly};
ghost use Rattle.regex_class.specs.declared.Class.{Class};
ghost use Rattle.regex_hir.specs.Meaning.{meaning};
ghost use Rattle.regex_hir.specs.Re.{char_in, literal};
ghost use Rattle.regex_syntax.specs.Verdict.{Reads, default_config};
ghost use Rattle.am_labels.specs.Pattern.{anchored_pattern};
ghost use Rattle.am_scan.specs.Automaton.{Grows};
ghost use Rattle.am_scan.specs.Closure.{contains};
ghost use Rattle.am_scan.specs.Sight.{IsScanned, is_scanned};
ghost use Rattle.am_scan.specs.Characters.{AreParts, AreSplit, CannotTell, HasFirst, HasMember};
ghost use Rattle.am_scan.specs.Characters.{HaveRepresentatives, HasSet, IsAlone, IsBlind, Narrows};
ghost use Rattle.am_scan.specs.Characters.{Widens};

use crate::byte_set::ByteSet;
use crate::limits::MAX_KINDS;
use crate::sight::Sight;
use regex_class::{Class, ClassRange};
use regex_hir::Hir;
use regex_syntax::{Config, ErrorKind, Parsed};
use std::alloc::{AllocError, Global};
use std::str::from_utf8;

/// What assertions see that ask about lines, and not about words.
const LINES: Sight = Sight {
    lines: true,
    words: false,
};

/// Sets of characters that are not of ASCII, and such characters that stand by themselves.
#[derive(Drop)]
pub struct CharacterSets {
    pub(crate) sets: Vec<Class>,
    pub(crate) singles: Vec<char>,
}

impl CharacterSets {
    /// Begins with no set and no character, so that all characters are alike that are not of ASCII
    /// and take as many bytes.
    pub fn new(alloc: Global) -> CharacterSets {
        CharacterSets {
            sets: Vec::new(alloc),
            singles: Vec::new(alloc),
        }
    }

    /// Adds each character of a text by itself.
    pub fn add_text(&mut self, text: &str) -> Result<(), AllocError>
        ensures narrows { Narrows self.old self.new }
        ensures alone { OnOk result (AllByRecursion (IsAlone self.new) (chars text.now)) }
    {
        for character in text.chars() {
            if !character.is_ascii() {
                self.singles.push(character)?;
            }
        }
        Ok(())
    }

    /// Adds what a pattern asks of characters. Returns `false` if this is not known: the pattern
    /// asks about words, or the engine's grammar does not read it.
    pub fn add_pattern(&mut self, alloc: Global, pattern: &str) -> Result<bool, AllocError>
        ensures narrows { Narrows self.old self.new }
        ensures blind { IfOk result (λ known. IsTrue known → CannotTell self.new pattern.now) }
    {
        let source = anchored_pattern(alloc, pattern)?;
        match read_pattern(alloc, source.as_str())? {
            Some(parsed) => self.add_tree(&parsed.hir),
            None => Ok(false),
        }
    }

    /// Adds what a part of a pattern asks.
    #[cycle(add_tree)]
    fn add_tree(&mut self, tree: &Hir) -> Result<bool, AllocError>
        ensures narrows { Narrows self.old self.new }
        ensures blind { IfOk result (λ known. IsTrue known → IsBlind self.new (meaning tree.now)) }
    {
        match tree {
            Hir::Empty => Ok(true),
            Hir::Literal(bytes) => self.add_literal(bytes.as_slice()),
            Hir::Bytes(class) => Ok(class.is_within(0x7F)),
            Hir::Chars(class) => self.add_class(class),
            Hir::Look(look) => Ok(LINES.sees(*look)),
            Hir::Repetition { sub, .. } => self.add_tree(sub),
            Hir::Capture { sub, .. } => self.add_tree(sub),
            Hir::Concat(subs) => self.add_trees(subs),
            Hir::Alternation(subs) => self.add_trees(subs),
        }
    }

    /// Adds what parts of a pattern ask.
    #[cycle(add_tree)]
    fn add_trees(&mut self, trees: &[Hir]) -> Result<bool, AllocError>
        ensures narrows { Narrows self.old self.new }
        ensures blind { IfOk result (λ known. IsTrue known
            → AllByRecursion (IsBlind self.new) (map meaning trees.now)) }
    {
        for i in 0..trees.len() {
            if !self.add_tree(&trees[i])? {
                return Ok(false);
            }
        }
        Ok(true)
    }

    /// Adds the characters of plain bytes of a pattern.
    fn add_literal(&mut self, bytes: &[u8]) -> Result<bool, AllocError>
        ensures narrows { Narrows self.old self.new }
        ensures blind { IfOk result (λ known. IsTrue known → IsBlind self.new (literal bytes.now)) }
    {
        let Ok(text) = from_utf8(bytes) else {
            return Ok(false);
        };
        self.add_text(text)?;
        Ok(true)
    }

    /// Adds a class of characters, unless it is of ASCII alone or there already.
    fn add_class(&mut self, class: &Class) -> Result<bool, AllocError>
        ensures narrows { Narrows self.old self.new }
        ensures blind { IfOk result (λ known. IsTrue known
            → IsBlind self.new (char_in class.now.ranges.items)) }
    {
        if !class.is_within(0x7F) && !self.has_set(class.ranges.as_slice()) {
            self.sets.push(class.clone()?)?;
        }
        Ok(true)
    }

    /// Whether a set is there. Only `true` promises something.
    fn has_set(&self, ranges: &[ClassRange]) -> bool
        ensures { IsTrue result → HasSet self.now.sets.items ranges.now }
    {
        for set in &self.sets {
            if set.ranges.as_slice() == ranges {
                return true;
            }
        }
        false
    }

    /// Returns bytes that are enough: each character is alike to one that has only these.
    pub fn representative_bytes(&self, alloc: Global) -> Result<ByteSet, AllocError>
        ensures { IfOk result (λ bytes. HaveRepresentatives self.now bytes) }
    {
        let Some(parts) = self.parts(alloc)? else {
            return Ok(ByteSet::full());
        };
        let mut bytes = ascii_bytes();
        for single in &self.singles {
            insert_character(alloc, *single, &mut bytes)?;
        }
        for part in &parts {
            insert_first(alloc, part, &mut bytes)?;
        }
        Ok(bytes)
    }

    /// Returns the kinds of characters that are not of ASCII and do not stand by themselves, or
    /// `None` if there are too many.
    fn parts(&self, alloc: Global) -> Result<Option<Vec<Class>>, AllocError>
        ensures { IfOk result (λ found. IfSome found (λ parts.
            AreParts self.now.sets.items self.now.singles.items parts.items)) }
    {
        let mut parts = first_parts(alloc, self.singles.as_slice())?;
        for set in &self.sets {
            parts = split(alloc, parts.as_slice(), set)?;
            if parts.len() > MAX_KINDS {
                return Ok(None);
            }
        }
        Ok(Some(parts))
    }
}

/// Returns the characters of two, of three and of four bytes, without those that stand by
/// themselves.
fn first_parts(alloc: Global, singles: &[char]) -> Result<Vec<Class>, AllocError>
    ensures { IfOk result (λ parts. AreParts [] singles.now parts.items) }
{
    let singles = class_of(alloc, singles)?;
    let two = Class::from_ranges(alloc, &[(0x80, 0x7FF)])?;
    let three = Class::from_ranges(alloc, &[(0x800, 0xD7FF), (0xE000, 0xFFFF)])?;
    let four = Class::from_ranges(alloc, &[(0x1_0000, 0x10_FFFF)])?;
    Ok(vec![in alloc;
        two.difference(&singles)?,
        three.difference(&singles)?,
        four.difference(&singles)?,
    ]?)
}

/// Splits kinds of characters by a set.
fn split(alloc: Global, parts: &[Class], set: &Class) -> Result<Vec<Class>, AllocError>
    ensures { IfOk result (λ pieces. AreSplit parts.now set.now.ranges.items pieces.items) }
{
    let mut pieces = Vec::new(alloc);
    for part in parts {
        push_some(&mut pieces, part.intersection(set)?)?;
        push_some(&mut pieces, part.difference(set)?)?;
    }
    Ok(pieces)
}

/// Adds characters, unless there are none.
fn push_some(parts: &mut Vec<Class>, part: Class) -> Result<(), AllocError>
    ensures grows { Grows parts.old.items parts.new.items }
    ensures from { (k : ℕ) (one : Class) → slice_get parts.new.items k ≡ Some one
        → (slice_get parts.old.items k ≡ Some one) ⊎ (one ≡ part) }
    ensures has { OnOk result ((c : ℕ) → in_ranges part.ranges.items c ≡ true
        → HasMember parts.new.items c) }
{
    if !part.ranges.is_empty() {
        parts.push(part)?;
    }
    Ok(())
}

/// Returns the bytes of ASCII.
fn ascii_bytes() -> ByteSet
    ensures { (b : ℕ) → b < 128 → is_scanned result b ≡ true }
{
    let mut bytes = ByteSet::empty();
    for byte in 0..128 {
        bytes.insert(byte);
    }
    bytes
}

/// Adds the bytes of a character.
fn insert_character(alloc: Global, character: char, bytes: &mut ByteSet) -> Result<(), AllocError>
    ensures widens { Widens bytes.old bytes.new }
    ensures own { OnOk result (IsScanned bytes.new (encode_utf8 character)) }
{
    let mut text = String::new(alloc);
    text.push(character)?;
    for byte in text.as_bytes() {
        bytes.insert(*byte);
    }
    Ok(())
}

/// Adds the bytes of the first character of a class, if there is one.
fn insert_first(alloc: Global, class: &Class, bytes: &mut ByteSet) -> Result<(), AllocError>
    ensures widens { Widens bytes.old bytes.new }
    ensures own { OnOk result (HasFirst class.now.ranges.items bytes.new) }
{
    let Some((first, _)) = class.bounds() else {
        return Ok(());
    };
    match char::from_u32(first) {
        Some(character) => insert_character(alloc, character, bytes),
        None => Ok(()),
    }
}

/// Returns the class of some characters.
fn class_of(alloc: Global, characters: &[char]) -> Result<Class, AllocError>
    ensures { IfOk result (λ class. HasExactly class.ranges.items (contains characters.now)) }
{
    let mut ranges = Vec::with_capacity(alloc, characters.len())?;
    for character in characters {
        let code = u32::from(*character);
        ranges.push((code, code))?;
    }
    Class::new(ranges)
}

/// Returns the text that the engine reads for a pattern.
fn anchored_pattern(alloc: Global, pattern: &str) -> Result<String, AllocError>
    ensures { IfOk result (λ source. string_bytes source ≡ anchored_pattern pattern.now) }
{
    let mut source = String::from_str(alloc, "^(?:")?;
    source.push_str(pattern)?;
    source.push_str(")$")?;
    Ok(source)
}

/// Reads a text by the grammar of patterns. Returns `None` if the grammar does not read it. Fails
/// only if memory runs out.
fn read_pattern(alloc: Global, source: &str) -> Result<Option<Parsed>, AllocError>
    ensures { IfOk result (λ found. IfSome found (λ parsed. Reads default_config source.now
        parsed.hir (map (option_map string_bytes) parsed.names.items))) }
{
    match regex_syntax::parse(alloc, source, &Config::default()) {
        Ok(parsed) => Ok(Some(parsed)),
        Err(error) => match error.kind {
            ErrorKind::OutOfMemory => Err(AllocError),
            _ => Ok(None),
        },
    }
}
