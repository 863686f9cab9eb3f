#![tactic(auto, using(am_universe::proofs::Writing::steps))]

ghost use Rattle.std.specs.Prelude.{◌≡◌, ◌≢◌, ◌<◌, ◌^◌, ◌++◌, ℕ, List, Option, IfOk, IfErr, IfSome};
ghost use Rattle.std.specs.Prelude.{MatchOption, IsTrue, codes};
ghost use Rattle.std.specs.Fmt.{decimal};
ghost use Rattle.hex.specs.Hex.{encode_lower};
ghost use Rattle.am_universe.specs.Sink.{Writes};
ghost use Rattle.am_universe.specs.Universe.{sizes};
ghost use Rattle.am_universe.specs.Choice.{admits, IsWhole};
ghost use Rattle.am_search.specs.declared.start.Start.{Start};
ghost use Rattle.am_search.specs.Start.{IsStart};
ghost use Rattle.am_search.specs.Token.{token_text, IsFingerprint, ReadsToken, IsNoToken};
ghost use Rattle.am_search.specs.Token.{RefusesToken, positions_text};
ghost use Rattle.am_search.specs.TokenParts.{form_text, spelled_text};

use crate::Start;
use crate::digits::{digits_of, parse_digits};
use am_universe::{Choice, Kind, Position, Sink, Universe, put_all, put_str};

/// Reads a token, and returns the start that it stands for.
///
/// A token has four parts: `t2:` for a start after a whole choice, or `s2:` for one at a prefix;
/// the fingerprint of the inputs that it was made from, as 32 digits `0` to `9` and `a` to `f`;
/// `:`; and the positions in decimal, without leading zeros, joined by `.`. A token of the old form
/// is `t1:` or `s1:` and the positions. It has no fingerprint, and is accepted for any inputs.
///
/// Fails with `BadToken` if the text is not a token of the universe, whatever the inputs, and with
/// `OtherInputs` if it is a token that was written under another fingerprint. Takes no memory.
pub fn parse_token(text: &str, universe: &Universe, fingerprint: &[u8; 16]) -> Result<Start, Kind>
    ensures ok { IfOk result (ReadsToken (sizes universe.now) fingerprint.now text.now) }
    ensures refused { IfErr result (RefusesToken (sizes universe.now) fingerprint.now text.now) }
{
    let (start, made_from) = parse_spelled(text, universe).ok_or(Kind::BadToken)?;
    match made_from {
        Some(other) if other != *fingerprint => Err(Kind::OtherInputs),
        _ => Ok(start),
    }
}

/// Reads a token of the universe: its start, and its fingerprint, which the old form does not have.
fn parse_spelled(text: &str, universe: &Universe) -> Option<(Start, Option<[u8; 16]>)>
    ensures { MatchOption result (IsNoToken (sizes universe.now) text.now)
        (λ (start, form). IsStart (sizes universe.now) start × IfSome form IsFingerprint
        × (spelled_text form start ≡ text.now)) }
{
    if let Some(rest) = text.strip_prefix('s') {
        let (form, positions) = parse_form(rest)?;
        let prefix = parse_positions(positions, universe)?;
        return Some((Start::At(prefix), form));
    }
    let (form, positions) = parse_form(text.strip_prefix('t')?)?;
    let choice = parse_whole(positions, universe)?;
    Some((Start::After(choice), form))
}

/// Reads what follows the letter of a token: the fingerprint, which the old form does not have, and
/// the text of the positions.
fn parse_form(text: &str) -> Option<(Option<[u8; 16]>, &str)>
    ensures { MatchOption result
        ((form : Option (List ℕ)) (positions : List ℕ) → IfSome form IsFingerprint
        → form_text form positions ≢ text.now)
        (λ (form, positions). IfSome form IsFingerprint
        × (form_text form positions.now ≡ text.now)) }
{
    if let Some(positions) = text.strip_prefix("1:") {
        return Some((None, positions));
    }
    let (digits, positions) = text.strip_prefix("2:")?.split_once(':')?;
    Some((Some(parse_digits(digits)?), positions))
}

/// Reads the positions of a whole choice that the universe admits.
fn parse_whole(text: &str, universe: &Universe) -> Option<Choice>
    ensures { MatchOption result
        ((c : List ℕ) → IsWhole (sizes universe.now) c → positions_text c ≢ text.now)
        (λ c. IsWhole (sizes universe.now) c × (positions_text c ≡ text.now)) }
{
    let choice = parse_positions(text, universe)?;
    if choice.len() == universe.len() {
        Some(choice)
    } else {
        None
    }
}

/// Reads the positions of a choice that the universe admits.
#[tactic(auto, using(std::proofs::lemmas::Grind::common_steps, crate::proofs::Odometer::admits_at_most))]
fn parse_positions(text: &str, universe: &Universe) -> Option<Choice>
    ensures { MatchOption result
        ((c : List ℕ) → IsTrue (admits (sizes universe.now) c) → positions_text c ≢ text.now)
        (λ c. IsTrue (admits (sizes universe.now) c) × (positions_text c ≡ text.now)) }
{
    let mut prefix = Choice::empty();
    if text.is_empty() {
        return Some(prefix);
    }
    for part in text.split('.') {
        if prefix.len() == universe.len() {
            return None;
        }
        let position = parse_position(part)?;
        if usize::from(position) >= universe.size(prefix.len()) {
            return None;
        }
        prefix.push(position);
    }
    Some(prefix)
}

/// Reads a position in decimal, without leading zeros.
fn parse_position(text: &str) -> Option<Position>
    ensures { MatchOption result ((n : ℕ) → n < 2 ^ 16 → decimal n ≢ text.now)
        (λ position. decimal position ≡ text.now) }
{
    let Ok(position) = text.parse::<Position>() else {
        return None;
    };
    // `parse` reads `+1` and `01` too.
    if itoa::Buffer::new().format(position) == text {
        Some(position)
    } else {
        None
    }
}

/// Writes the token of a start, for inputs with this fingerprint.
///
/// Fails only with `Kind::Write`; what was written is then a proper prefix of the token. Takes no
/// memory.
pub fn write_token<W: Sink>(start: &Start, fingerprint: &[u8; 16], out: &mut W) -> Result<(), Kind>
    ensures written { Writes W.taken W.failures out.old out.new
        (token_text fingerprint.now start.now) result }
{
    let (letter, positions) = match start {
        Start::At(prefix) => ("s2:", prefix),
        Start::After(choice) => ("t2:", choice),
    };
    put_str(out, letter)?;
    put_all(out, digits_of(fingerprint).as_slice())?;
    put_all(out, b":")?;
    write_positions(positions, out)
}

/// Writes positions, joined by `.`.
fn write_positions<W: Sink>(choice: &Choice, out: &mut W) -> Result<(), Kind>
    ensures { Writes W.taken W.failures out.old out.new (positions_text choice.now) result }
{
    let mut separator: &[u8] = b"";
    for i in 0..choice.len() {
        write_position(out, separator, choice.get(i))?;
        separator = b".";
    }
    Ok(())
}

/// Writes the separator between a position and those before it, and then the position.
fn write_position<W: Sink>(out: &mut W, separator: &[u8], position: Position) -> Result<(), Kind>
    ensures { Writes W.taken W.failures out.old out.new
        (separator.now ++ decimal position) result }
{
    put_all(out, separator)?;
    put_str(out, itoa::Buffer::new().format(position))
}
