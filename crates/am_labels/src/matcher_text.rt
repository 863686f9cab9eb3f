//! Reading the text of a list of matchers.

ghost use Rattle.std.specs.Prelude.{◌≡◌, ◌≢◌, ◌≤◌, ◌<◌, [], ◌∷◌, length, map, IsTrue, IfOk, IfErr};
ghost use Rattle.std.specs.Prelude.{string_bytes};
ghost use Rattle.std.specs.List.{All, prefix_len};
ghost use Rattle.am_universe.specs.Bytes.{backslash};
ghost use Rattle.am_universe.specs.declared.kind.Kind.TheVariants as kinds;
ghost use Rattle.am_labels.specs.Matcher as spec;
ghost use Rattle.am_labels.specs.MatcherRefusals.{have_valid_patterns, PatternsRefusedFor};
ghost use Rattle.am_labels.specs.MatcherRefusals.{WordsRefusedFor, TextRefusedFor};
ghost use Rattle.am_labels.specs.MatcherText.{Spells, WordsSpell, is_blank, begins_name};
ghost use Rattle.am_labels.specs.MatcherText.{continues_name, unescaped_text, matcher_pieces};
ghost use Rattle.am_labels.specs.MatcherText.{without_opening, without_closing, has_escape};
ghost use Rattle.am_labels.specs.MatcherText.{byte_of_escape};
ghost use Rattle.am_labels.specs.MatcherReading.{ReturnsReading, first_quote, read_body};
ghost use Rattle.am_labels.specs.MatcherReading.{read_operator, read_name, read_piece};
ghost use Rattle.am_labels.specs.MatcherReading.{read_each_piece, read_words};

use crate::limits::MAX_MATCHERS;
use crate::quotes::QuoteState;
use crate::{Matcher, Matchers, Op};
use am_universe::{Kind, begins_label_name, continues_label_name};
use std::alloc::{AllocError, Global};
use std::marker::Model;

/// A matcher as a text spells it. Its pattern, if it has one, is neither checked nor built.
#[derive(Debug, Drop)]
struct SpelledMatcher {
    name: String,
    op: Op,
    value: String,
}

impl Model for SpelledMatcher {
    ghost use Rattle.std.specs.Prelude.{string_bytes};
    ghost use Rattle.am_labels.specs.Matcher as spec;

    ghost Value = { spec.Matcher };

    ghost view = { λ m.
        record { name = string_bytes m.name; op = m.op; value = string_bytes m.value } };
}

/// Reads a list of matchers in the classic syntax, as `team="db",severity=~"crit.*"`.
///
/// The syntax is that of the Alertmanager configuration reference 0.25, `<matcher>`. The list may
/// have braces around it. Fails with the first of: `BadMatcher`, the text does not spell a list;
/// `Limit`, the list has more than [`MAX_MATCHERS`] matchers; and then, matcher by matcher,
/// `PatternProfile`, the pattern is outside the profile, or `Pattern`, the engine refuses a pattern
/// of the profile. The engine refuses every pattern that its grammar does not read. Fails with
/// `Memory` whenever memory runs out.
pub fn parse_matchers(alloc: Global, text: &str) -> Result<Matchers, Kind>
    ensures spelled { IfOk result (λ ms. Spells text.now ms) }
    ensures at_most { IfOk result (λ ms. length ms ≤ MAX_MATCHERS) }
    ensures valid_patterns { IfOk result (λ ms. IsTrue (have_valid_patterns ms)) }
    ensures refused { IfErr result (λ kind. kind ≢ kinds.Memory → TextRefusedFor text.now kind) }
{
    parse_more_matchers(alloc, &Matchers::empty(alloc), text)
}

/// Reads a list of matchers that follows others, as in one route. Returns the list without those
/// before it.
///
/// Reads as [`parse_matchers`] does, and fails as it does. A matcher that has the pattern of the
/// one before it takes over what was built for that one. So a pattern is built once, however many
/// matchers in a row have it.
pub fn parse_more_matchers(alloc: Global, before: &Matchers, text: &str) -> Result<Matchers, Kind>
    ensures spelled { IfOk result (λ ms. Spells text.now ms) }
    ensures at_most { IfOk result (λ ms. length ms ≤ MAX_MATCHERS) }
    ensures valid_patterns { IfOk result (λ ms. IsTrue (have_valid_patterns ms)) }
    ensures refused { IfErr result (λ kind. kind ≢ kinds.Memory → TextRefusedFor text.now kind) }
{
    parse_words(alloc, before.last(), &[text])
}

/// Reads a list of matchers from words: one word is the text of a list, and each of several is one
/// matcher. Fails as `parse_matchers` does, with `BadMatcher` if the words do not spell a list. The
/// first matcher may take over the pattern of the matcher before.
pub(crate) fn parse_words(
    alloc: Global,
    before: Option<&Matcher>,
    words: &[&str],
) -> Result<Matchers, Kind>
    ensures spelled { IfOk result (λ ms. WordsSpell (map (λ word. word.now) words.now) ms) }
    ensures at_most { IfOk result (λ ms. length ms ≤ MAX_MATCHERS) }
    ensures valid_patterns { IfOk result (λ ms. IsTrue (have_valid_patterns ms)) }
    ensures refused { IfErr result (λ kind. kind ≢ kinds.Memory
        → WordsRefusedFor (map (λ word. word.now) words.now) kind) }
{
    let list = read_words(alloc, words)?;
    if list.len() > MAX_MATCHERS {
        return Err(Kind::Limit);
    }
    matchers_of(alloc, before, list)
}

/// The matchers that were read, each with its pattern: built, or taken over from the matcher before
/// it.
fn matchers_of(
    alloc: Global,
    before: Option<&Matcher>,
    list: Vec<SpelledMatcher>,
) -> Result<Matchers, Kind>
    requires named { All (λ m. m.name ≢ []) list.items }
    requires at_most { length list.items ≤ MAX_MATCHERS }
    ensures ok { IfOk result (λ ms. ms ≡ list.items) }
    ensures valid_patterns { IfOk result (λ ms. IsTrue (have_valid_patterns ms)) }
    ensures refused { IfErr result (λ kind.
        kind ≢ kinds.Memory → PatternsRefusedFor list.items kind) }
{
    let mut matchers = Matchers::empty(alloc);
    for spelled in list {
        let beside = matchers.last().or(before);
        let matcher = Matcher::new_beside(alloc, beside, spelled.name, spelled.op, spelled.value)?;
        matchers.push(matcher)?;
    }
    Ok(matchers)
}

/// Reads the list of matchers that words spell, however long. Fails with `BadMatcher` if they spell
/// none, and with `Memory` if memory runs out.
fn read_words(alloc: Global, words: &[&str]) -> Result<Vec<SpelledMatcher>, Kind>
    ensures { ReturnsReading (λ list. list.items) result
        (read_words (map (λ word. word.now) words.now)) }
{
    if words.len() == 1 {
        let pieces = pieces_of(alloc, without_closing(without_opening(words[0])))?;
        read_pieces(alloc, pieces.as_slice())
    } else {
        read_pieces(alloc, words)
    }
}

/// The text without a `{` at its very beginning.
#[tactic(auto, using(std::proofs::lemmas::Grind::common_steps, crate::proofs::MatcherTextCuts::cuts))]
fn without_opening(text: &str) -> &str
    ensures { result.now ≡ without_opening text.now }
{
    match text.as_bytes() {
        [b'{', ..] => &text[1..],
        _ => text,
    }
}

/// The text without a `}` at its very end.
fn without_closing(text: &str) -> &str
    ensures { result.now ≡ without_closing text.now }
{
    match text.as_bytes() {
        [.., b'}'] => &text[..text.len() - 1],
        _ => text,
    }
}

/// The pieces of the text, which is cut at each comma outside quoted parts. A blank last piece is
/// ignored.
fn pieces_of(alloc: Global, text: &str) -> Result<Vec<&str>, AllocError>
    ensures { IfOk result (λ pieces.
        map (λ piece. piece.now) pieces.items ≡ matcher_pieces text.now) }
{
    let mut pieces = Vec::new(alloc);
    let mut start = 0;
    let mut state = QuoteState::start();
    for (i, byte) in text.as_bytes().iter().enumerate() {
        if state.is_outside(*byte, b',') {
            pieces.push(&text[start..i])?;
            start = i + 1;
        }
        state = state.next(*byte);
    }
    let last = &text[start..];
    if !is_blank(last.as_bytes()) {
        pieces.push(last)?;
    }
    Ok(pieces)
}

fn is_blank(text: &[u8]) -> bool
    ensures { result ≡ is_blank text.now }
{
    text.iter().all(|byte| byte.is_ascii_whitespace())
}

/// Reads pieces one by one.
fn read_pieces(alloc: Global, pieces: &[&str]) -> Result<Vec<SpelledMatcher>, Kind>
    ensures { ReturnsReading (λ list. list.items) result
        (read_each_piece (map (λ piece. piece.now) pieces.now)) }
{
    let mut list = Vec::new(alloc);
    for piece in pieces {
        list.push(read_piece(alloc, piece)?)?;
    }
    Ok(list)
}

/// Reads one piece: a name, an operator and a value. Each may have whitespace around it.
fn read_piece(alloc: Global, piece: &str) -> Result<SpelledMatcher, Kind>
    ensures { ReturnsReading (λ m. m) result (read_piece piece.now) }
{
    let (name, rest) = read_name(piece.trim_ascii_start())?;
    let (op, rest) = read_operator(rest.trim_ascii_start())?;
    let body = read_body(rest.trim_ascii())?;
    let name = String::from_str(alloc, name)?;
    let value = unescape(alloc, body)?;
    Ok(SpelledMatcher { name, op, value })
}

/// Whether a name may begin with the byte.
fn begins_name(byte: u8) -> bool
    ensures { result ≡ begins_name byte }
{
    begins_label_name(byte) || byte == b':'
}

/// Whether a name may have the byte after its first byte.
fn continues_name(byte: u8) -> bool
    ensures { result ≡ continues_name byte }
{
    continues_label_name(byte) || byte == b':'
}

/// The name that the text begins with, and what follows it.
#[tactic(auto, using(std::proofs::lemmas::Grind::common_steps, crate::proofs::MatcherTextCuts::cuts), unfolding(crate::specs::MatcherReading::read_name))]
fn read_name(text: &str) -> Result<(&str, &str), Kind>
    ensures { ReturnsReading (λ x. (x.0.now, x.1.now)) result (read_name text.now) }
{
    match text.as_bytes() {
        [first, ..] if begins_name(*first) => Ok(text.split_at(name_len(text.as_bytes()))),
        _ => Err(Kind::BadMatcher),
    }
}

/// How many bytes at the beginning may continue a name.
fn name_len(text: &[u8]) -> usize
    ensures at_most { result ≤ length text.now }
    ensures value { result ≡ prefix_len continues_name text.now }
{
    text.iter()
        .take_while(|byte| continues_name(**byte))
        .count()
}

/// The operator that the text begins with, and what follows it.
fn read_operator(text: &str) -> Result<(Op, &str), Kind>
    ensures { ReturnsReading (λ x. (x.0, x.1.now)) result (read_operator text.now) }
{
    for op in &Op::ALL {
        if let Some(rest) = text.strip_prefix(op.text()) {
            return Ok((*op, rest));
        }
    }
    Err(Kind::BadMatcher)
}

/// The body of a raw value: the text between its quotes, or all of it if it begins with no quote.
#[tactic(auto, using(std::proofs::lemmas::Grind::common_steps, crate::proofs::MatcherTextCuts::cuts), unfolding(crate::specs::MatcherReading::read_body))]
fn read_body(raw: &str) -> Result<&str, Kind>
    ensures { ReturnsReading (λ x. x.now) result (read_body raw.now) }
{
    match raw.strip_prefix('"') {
        Some(rest) => {
            let end = first_quote(rest.as_bytes());
            if end + 1 == rest.len() {
                Ok(&rest[..end])
            } else {
                Err(Kind::BadMatcher)
            }
        }
        None => {
            if first_quote(raw.as_bytes()) == raw.len() {
                Ok(raw)
            } else {
                Err(Kind::BadMatcher)
            }
        }
    }
}

/// The index of the first quote that is not escaped, or the length.
#[tactic(auto, using(std::proofs::lemmas::Grind::common_steps, crate::proofs::MatcherTextIndices::first_quote_is, std::proofs::Common::below_more))]
fn first_quote(text: &[u8]) -> usize
    ensures at_most { result ≤ length text.now }
    ensures first { result ≡ first_quote text.now }
{
    let mut state = QuoteState::start();
    for (i, byte) in text.iter().enumerate() {
        if state.is_quote(*byte) {
            return i;
        }
        state = state.next(*byte);
    }
    text.len()
}

/// A body without its escapes.
fn unescape(alloc: Global, body: &str) -> Result<String, AllocError>
    ensures { IfOk result (λ value. string_bytes value ≡ unescaped_text body.now) }
{
    let mut value = String::new(alloc);
    let mut rest = body;
    while let Some((plain, behind)) = rest.split_once('\\') {
        value.push_str(plain)?;
        let (character, more) = read_escape(behind);
        value.push(character)?;
        rest = more;
    }
    value.push_str(rest)?;
    Ok(value)
}

/// What a backslash before the text stands for, and what follows it.
#[tactic(auto, using(std::proofs::lemmas::Grind::common_steps, crate::proofs::MatcherTextCuts::cuts, crate::proofs::MatcherTextCuts::escaped_ascii))]
fn read_escape(text: &str) -> (char, &str)
    ensures ascii { result.0 < 128 }
    ensures within { length result.1.now ≤ length text.now }
    ensures value { unescaped_text (backslash ∷ text.now)
        ≡ result.0 ∷ unescaped_text result.1.now }
{
    match text.as_bytes() {
        [first, ..] if has_escape(*first) => (escape_of(*first), &text[1..]),
        _ => ('\\', text),
    }
}

/// Whether a backslash escapes the byte.
fn has_escape(byte: u8) -> bool
    ensures { result ≡ has_escape byte }
{
    matches!(byte, b'"' | b'\\' | b'n')
}

/// The character that an escaped byte stands for.
fn escape_of(byte: u8) -> char
    ensures { result ≡ byte_of_escape byte }
{
    if byte == b'n' { '\n' } else { char::from(byte) }
}
