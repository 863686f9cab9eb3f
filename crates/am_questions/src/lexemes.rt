//! The lexemes of a question's text.

ghost use Rattle.std.specs.Prelude.{◌≡◌, ◌≢◌, ◌<◌, ◌≤◌, List, length, map, true, false, Some, None};
ghost use Rattle.std.specs.Prelude.{IfOk, IfErr, string_bytes, slice_index};
ghost use Rattle.std.specs.List.{prefix_len};
ghost use Rattle.am_universe.specs.declared.kind.Kind.TheVariants as kinds;
ghost use Rattle.am_labels.specs.MatcherText.{is_space, has_escape, byte_of_escape};
ghost use Rattle.am_questions.specs.Lexemes as spec;
ghost use Rattle.am_questions.specs.Lexemes.{SpellsLexemes, is_word_character};
ghost use Rattle.am_questions.specs.Lexemes.{is_plain, read_quoted, read_lexeme};
ghost use Rattle.am_questions.specs.LexemeView.{lexeme_view};

use am_labels::brace_len;
use am_universe::Kind;
use std::alloc::Global;

/// A lexeme of a question.
#[derive(Debug, Drop)]
pub enum Lexeme<'a> {
    /// `(`
    Open,
    /// `)`
    Close,
    /// A word, as it is written.
    Word(&'a str),
    /// What a text in quotes stands for.
    Quoted(String),
    /// A list of matchers, with its braces.
    Braces(&'a str),
}

/// Reads the lexemes of a text, however many there are.
///
/// Fails with `QuestionSyntax` if the text is not made of lexemes, and with `Memory` if memory runs
/// out.
pub fn read_lexemes(alloc: Global, text: &str) -> Result<Vec<Lexeme<'_>>, Kind>
    ensures read { IfOk result (λ lexemes. SpellsLexemes text.now (map lexeme_view lexemes.items)) }
    ensures refused { IfErr result (λ kind. kind ≢ kinds.Memory → (kind ≡ kinds.QuestionSyntax)
        × ((ts : List spec.Lexeme) → SpellsLexemes text.now ts → ⊥)) }
{
    let mut lexemes = Vec::new(alloc);
    let mut rest = text.trim_ascii_start();
    while !rest.is_empty() {
        let (lexeme, behind) = read_lexeme(alloc, rest)?;
        lexemes.push(lexeme)?;
        rest = behind.trim_ascii_start();
    }
    Ok(lexemes)
}

/// Reads the first lexeme of a text that does not begin with whitespace. Returns it and the text
/// after it.
#[tactic(auto, using(std::proofs::lemmas::Grind::common_steps, crate::proofs::Boundaries::behind_brace, crate::proofs::Boundaries::behind_word), unfolding(crate::specs::Lexemes::read_lexeme))]
fn read_lexeme(alloc: Global, text: &str) -> Result<(Lexeme<'_>, &str), Kind>
    ensures read { IfOk result (λ x. read_lexeme text.now ≡ Some (lexeme_view x.0, x.1.now)) }
    ensures shorter { IfOk result (λ x. 0 < length text.now
        → is_space (slice_index text.now 0) ≡ false → length x.1.now < length text.now) }
    ensures refused { IfErr result (λ kind. kind ≢ kinds.Memory → (kind ≡ kinds.QuestionSyntax)
        × (read_lexeme text.now ≡ None)) }
{
    match text.as_bytes() {
        [b'(', ..] => Ok((Lexeme::Open, &text[1..])),
        [b')', ..] => Ok((Lexeme::Close, &text[1..])),
        [b'"', ..] => {
            let (value, behind) = read_quoted(alloc, &text[1..])?;
            Ok((Lexeme::Quoted(value), behind))
        }
        [b'{', ..] => match brace_len(text) {
            Some(len) => Ok((Lexeme::Braces(&text[..len]), &text[len..])),
            None => Err(Kind::QuestionSyntax),
        },
        _ => {
            let len = word_len(text.as_bytes());
            Ok((Lexeme::Word(&text[..len]), &text[len..]))
        }
    }
}

/// Reads the text after an opening quote. Returns what it stands for, and the text after the
/// closing quote.
#[tactic(auto, using(std::proofs::lemmas::Grind::common_steps, crate::proofs::Boundaries::behind_plain, crate::proofs::QuotedTexts::cuts))]
fn read_quoted(alloc: Global, text: &str) -> Result<(String, &str), Kind>
    ensures read { IfOk result (λ x. read_quoted text.now ≡ Some (string_bytes x.0, x.1.now)) }
    ensures shorter { IfOk result (λ x. length x.1.now < length text.now) }
    ensures refused { IfErr result (λ kind. kind ≢ kinds.Memory → (kind ≡ kinds.QuestionSyntax)
        × (read_quoted text.now ≡ None)) }
{
    let mut value = String::new(alloc);
    let mut rest = text;
    loop {
        let len = plain_len(rest.as_bytes());
        value.push_str(&rest[..len])?;
        match &rest.as_bytes()[len..] {
            [b'"', ..] => return Ok((value, &rest[len + 1..])),
            [b'\\', escaped, ..] => value.push(escape_of(*escaped)?)?,
            _ => return Err(Kind::QuestionSyntax),
        }
        rest = &rest[len + 2..];
    }
}

/// How many bytes at the beginning of a text stand for themselves between quotes.
fn plain_len(text: &[u8]) -> usize
    ensures at_most { result ≤ length text.now }
    ensures value { result ≡ prefix_len is_plain text.now }
{
    text.iter()
        .take_while(|byte| !matches!(**byte, b'"' | b'\\'))
        .count()
}

/// The character that a byte after a backslash stands for.
fn escape_of(byte: u8) -> Result<char, Kind>
    ensures read { IfOk result (λ character. (has_escape byte ≡ true)
        × (character ≡ byte_of_escape byte)) }
    ensures refused { IfErr result (λ kind. (kind ≡ kinds.QuestionSyntax)
        × (has_escape byte ≡ false)) }
{
    match byte {
        b'"' => Ok('"'),
        b'\\' => Ok('\\'),
        b'n' => Ok('\n'),
        _ => Err(Kind::QuestionSyntax),
    }
}

/// The length of the word at the front of a text, in bytes.
fn word_len(text: &[u8]) -> usize
    ensures at_most { result ≤ length text.now }
    ensures value { result ≡ prefix_len is_word_character text.now }
{
    text.iter().take_while(|byte| is_word_byte(**byte)).count()
}

/// Whether a byte is part of a word: whitespace, parentheses, an opening brace and a quote are not.
fn is_word_byte(byte: u8) -> bool
    ensures { result ≡ is_word_character byte }
{
    !(byte.is_ascii_whitespace() || matches!(byte, b'(' | b')' | b'{' | b'"'))
}
