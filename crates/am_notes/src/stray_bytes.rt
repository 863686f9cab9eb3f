//! Where a text spells no matchers: the first that is none, and the byte at which it can no longer
//! be one.

use crate::notes::Notes;
use crate::sentences::stray_byte;
use am_labels::{parse_matchers, parse_set, parse_set_words};
use am_universe::Kind;
use std::alloc::{AllocError, Global};

/// The most bytes of a text that is looked at, since it takes long to look at a long one.
const MOST_BYTES: usize = 4096;

/// The most commas before a byte that are tried as those before its matcher.
const MOST_COMMAS: usize = 64;

/// What a front of matchers may lack: nothing, an operator, the rest of a value in quotes, or a
/// whole matcher.
const LACKING: [&str; 4] = ["", "=x", "x\"", "a=x"];

/// What a text is to be.
#[derive(Clone, Copy)]
pub(crate) enum Written {
    /// A list of matchers.
    List,
    /// A label set in one word.
    Set,
    /// A label of a label set in several words.
    Label,
}

impl Written {
    /// What a part of the text is to be.
    fn noun(self) -> &'static str {
        match self {
            Written::List => "matcher",
            Written::Set | Written::Label => "label",
        }
    }

    /// Whether a text can be read, whatever its patterns and names are.
    fn reads(self, alloc: Global, text: &str) -> Result<bool, AllocError> {
        let refused = match self {
            Written::List => parse_matchers(alloc, text).err(),
            Written::Set => parse_set(alloc, text).err(),
            Written::Label => parse_set_words(alloc, &[text, "a=x"]).err(),
        };
        match refused {
            Some(Kind::Memory) => Err(AllocError),
            refused => Ok(refused != Some(Kind::BadMatcher)),
        }
    }

    /// Whether something can be read that begins with this front.
    fn begins_with(self, alloc: Global, front: &str) -> Result<bool, AllocError> {
        for lacking in &LACKING {
            if self.reads(alloc, format!(in alloc; "{front}{lacking}")?.as_str())? {
                return Ok(true);
            }
        }
        Ok(false)
    }
}

/// Adds a note on where a text spells no matchers, if it spells none.
pub(crate) fn add_stray_byte(
    alloc: Global,
    notes: &mut Notes,
    text: &str,
    written: Written,
    remedy: Option<&str>,
) -> Result<(), AllocError> {
    if text.len() > MOST_BYTES {
        return match remedy {
            Some(remedy) => notes.add_str(alloc, remedy),
            None => Ok(()),
        };
    }
    if written.reads(alloc, text)? {
        return Ok(());
    }
    let list = without_closing(text);
    let stray = front_len(alloc, list, written)?;
    let start = matcher_start(alloc, list, stray, written)?;
    let behind = list.get(stray..).unwrap_or("");
    let end = behind
        .find(',')
        .unwrap_or(behind.len())
        .saturating_add(stray);
    let matcher = list.get(start..end).unwrap_or("").trim_ascii();
    let byte = if behind.is_empty() {
        None
    } else {
        Some(stray.saturating_add(1))
    };
    notes.add(stray_byte(alloc, matcher, written.noun(), byte, remedy)?)
}

/// A text in braces without the last one, which ends no matcher.
fn without_closing(text: &str) -> &str {
    match text.strip_suffix('}') {
        Some(list) if list.starts_with('{') => list,
        _ => text,
    }
}

/// The length of the longest front of a text with which something begins that can be read.
fn front_len(alloc: Global, text: &str, written: Written) -> Result<usize, AllocError> {
    let (mut least, mut most) = (0, text.len());
    for _ in 0..usize::BITS {
        if least >= most {
            break;
        }
        let middle = text.ceil_char_boundary((least.saturating_add(most) / 2).saturating_add(1));
        if written.begins_with(alloc, text.get(..middle).unwrap_or(""))? {
            least = middle;
        } else {
            most = text.floor_char_boundary(middle.saturating_sub(1));
        }
    }
    Ok(least)
}

/// Where the matcher begins in which a byte stands: behind the last comma before the byte up to
/// which the text can be read.
fn matcher_start(
    alloc: Global,
    text: &str,
    byte: usize,
    written: Written,
) -> Result<usize, AllocError> {
    // In a word of its own, a comma belongs to the value.
    let mut front = match written {
        Written::Label => return Ok(0),
        _ => text.get(..byte).unwrap_or(""),
    };
    for _ in 0..MOST_COMMAS {
        let Some((before, _)) = front.rsplit_once(',') else {
            break;
        };
        if written.reads(alloc, before)? {
            return Ok(before.len().saturating_add(1));
        }
        front = before;
    }
    Ok(usize::from(text.starts_with('{')))
}
