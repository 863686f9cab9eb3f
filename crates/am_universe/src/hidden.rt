ghost use Rattle.std.specs.Prelude.{◌≡◌, ℕ, ◌<◌, ◌≤◌, true, length, drop};
ghost use Rattle.std.specs.Char.Escape.{hex_digit_at, escape_unicode};
ghost use Rattle.am_universe.specs.Sink.{Writes};
ghost use Rattle.am_universe.specs.Shown.{hidden_len, code_point};

use crate::{Kind, Sink, put_all};

/// How many bytes the hidden character has with which the bytes begin; 0 if they begin with none.
#[tactic(auto, unfolding(crate::specs::Shown::hidden_len))]
pub fn hidden_len(bytes: &[u8]) -> usize
    ensures len { result ≡ hidden_len bytes.now }
    ensures within { result ≤ length bytes.now }
{
    match *bytes {
        [0..=9 | 11..=31 | 127, ..] => 1,
        [0xc2, 0x80..=0x9f, ..] | [0xd8, 0x9c, ..] => 2,
        [0xe2, 0x80, 0x8e..=0x8f | 0xaa..=0xae, ..] | [0xe2, 0x81, 0xa6..=0xa9, ..] => 3,
        _ => 0,
    }
}

/// How many bytes stand before the first hidden character: all of them if none is to be hidden.
pub fn plain_len(hides: bool, bytes: &[u8]) -> usize
    ensures within { result ≤ length bytes.now }
    ensures plain { hides ≡ true → (place : ℕ) → place < result
        → hidden_len (drop place bytes.now) ≡ 0 }
    ensures ends { result < length bytes.now
        → (hides ≡ true) × (0 < hidden_len (drop result bytes.now)) }
{
    if hides {
        for place in 0..bytes.len() {
            if hidden_len(&bytes[place..]) > 0 {
                return place;
            }
        }
    }
    bytes.len()
}

/// Writes the escape of a character of at most three bytes, as `\u{1b}`.
pub fn write_escape<S: Sink>(out: &mut S, bytes: &[u8]) -> Result<(), Kind>
    ensures { Writes S.taken S.failures out.old out.new
        (escape_unicode (code_point bytes.now)) result }
{
    let code = match *bytes {
        [a, b, c, ..] => u16::from(a % 16) * 4096 + u16::from(b % 64) * 64 + u16::from(c % 64),
        [a, b] => u16::from(a % 32) * 64 + u16::from(b % 64),
        [a] => u16::from(a),
        [] => 0,
    };
    let a = hex_digit_at(0x1000, code);
    let b = hex_digit_at(0x100, code);
    let c = hex_digit_at(0x10, code);
    let d = hex_digit_at(1, code);
    match code {
        0..=0xf => put_all(out, &[b'\\', b'u', b'{', d, b'}']),
        0x10..=0xff => put_all(out, &[b'\\', b'u', b'{', c, d, b'}']),
        0x100..=0xfff => put_all(out, &[b'\\', b'u', b'{', b, c, d, b'}']),
        _ => put_all(out, &[b'\\', b'u', b'{', a, b, c, d, b'}']),
    }
}

/// The digit of a number at a place.
fn hex_digit_at(place: u16, number: u16) -> u8
    requires { 0 < place }
    ensures { result ≡ hex_digit_at place number }
{
    let n = (number / place % 16) as u8;
    if n < 10 { b'0' + n } else { b'a' - 10 + n }
}
