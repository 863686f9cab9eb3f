ghost use Rattle.std.specs.Prelude.{◌≡◌, ◌≤◌, ◌<◌, ◌+◌, length, option_map, map, IfSome, ◌==◌};
ghost use Rattle.std.specs.Prelude.{nat_eq};
ghost use Rattle.std.specs.List.{find, starts_with, position};
ghost use Rattle.am_universe.specs.Bytes.{right_brace};
ghost use Rattle.am_labels.specs.PatternProfile.{in_profile, first_piece, escape_piece};
ghost use Rattle.am_labels.specs.PatternProfile.{is_refused_escape, braces_len, up_to_brace};
ghost use Rattle.am_labels.specs.PatternProfile.{outside_piece, has_refused_flag, is_refused_flag};
ghost use Rattle.am_labels.specs.PatternProfile.{begins_count, digits_len, class_start_len};
ghost use Rattle.am_labels.specs.PatternProfile.{inside_piece, named_class_len};

/// Where a piece of a pattern is: outside or inside a class, which is in brackets.
#[derive(Clone, Copy)]
enum ClassContext {
    OutsideClass,
    InsideClass,
}

/// A piece of a pattern: how many bytes it has after its first, the context of what follows, and
/// whether the profile refuses it.
#[derive(Clone, Copy)]
struct Piece {
    more: usize,
    next: ClassContext,
    is_refused: bool,
}

impl Piece {
    fn of(more: usize, next: ClassContext, is_refused: bool) -> Piece
        ensures { result ≡ record { more = more; next = next; is_refused = is_refused } }
    {
        Piece {
            more,
            next,
            is_refused,
        }
    }
}

/// Whether the pattern is in the profile. The profile leaves out forms that Go's engine and the
/// crate `regex` are known to refuse or to read differently, but not all of them.
pub(crate) fn is_in_profile(pattern: &str) -> bool
    ensures { result ≡ in_profile pattern.now }
{
    let mut context = ClassContext::OutsideClass;
    let mut rest = pattern.as_bytes();
    while let [byte, after @ ..] = rest {
        let piece = first_piece(context, *byte, after);
        if piece.is_refused {
            return false;
        }
        context = piece.next;
        rest = &after[piece.more..];
    }
    true
}

/// The first piece of a text, given its first byte and what follows that.
#[tactic(auto, unfolding(crate::specs::PatternProfile::first_piece))]
fn first_piece(context: ClassContext, byte: u8, after: &[u8]) -> Piece
    ensures value { result ≡ first_piece context byte after.now }
    ensures within { result.more ≤ length after.now }
{
    if byte == b'\\' {
        return escape_piece(context, after);
    }
    match context {
        ClassContext::OutsideClass => outside_piece(byte, after),
        ClassContext::InsideClass => inside_piece(byte, after),
    }
}

/// The piece at a backslash.
fn escape_piece(context: ClassContext, after: &[u8]) -> Piece
    ensures value { result ≡ escape_piece context after.now }
    ensures within { result.more ≤ length after.now }
{
    match after {
        [] => Piece::of(0, context, false),
        [byte, rest @ ..] => Piece::of(
            1 + braces_len(*byte, rest),
            context,
            is_refused_escape(*byte),
        ),
    }
}

/// The piece at any other byte outside a class.
#[tactic(auto, unfolding(crate::specs::PatternProfile::outside_piece))]
fn outside_piece(byte: u8, after: &[u8]) -> Piece
    ensures value { result ≡ outside_piece byte after.now }
    ensures within { result.more ≤ length after.now }
{
    if byte == b'(' && after.starts_with(b"?") {
        return Piece::of(1, ClassContext::OutsideClass, has_refused_flag(&after[1..]));
    }
    if byte == b'{' {
        return Piece::of(0, ClassContext::OutsideClass, !begins_count(after));
    }
    if byte == b'[' {
        return Piece::of(class_start_len(after), ClassContext::InsideClass, false);
    }
    Piece::of(0, ClassContext::OutsideClass, false)
}

/// The piece at any other byte inside a class.
#[tactic(auto, unfolding(crate::specs::PatternProfile::inside_piece))]
fn inside_piece(byte: u8, after: &[u8]) -> Piece
    ensures value { result ≡ inside_piece byte after.now }
    ensures within { result.more ≤ length after.now }
{
    if byte == b'[' {
        let named = named_class_len(after);
        return Piece::of(
            named.unwrap_or(0),
            ClassContext::InsideClass,
            named.is_none(),
        );
    }
    if byte == b']' {
        return Piece::of(0, ClassContext::OutsideClass, false);
    }
    let is_pair = matches!(byte, b'&' | b'-' | b'~') && after.starts_with(&[byte]);
    Piece::of(0, ClassContext::InsideClass, is_pair)
}

/// Whether the profile refuses the byte after a backslash.
fn is_refused_escape(byte: u8) -> bool
    ensures { result ≡ is_refused_escape byte }
{
    byte == b'<'
        || byte == b'>'
        || byte.is_ascii_digit()
        || byte.is_ascii_alphabetic() && !b"dDwWsSbBtnrfvaAzxpP".contains(&byte)
}

/// The length of the braces that belong to the escape of a byte, given the text after the byte.
fn braces_len(byte: u8, after: &[u8]) -> usize
    ensures value { result ≡ braces_len byte after.now }
    ensures within { result ≤ length after.now }
{
    if !matches!(byte, b'x' | b'p' | b'P') || !after.starts_with(b"{") {
        return 0;
    }
    up_to_brace(after)
}

/// The length of the text up to and including its first `}`, or of all of it if it has none.
fn up_to_brace(text: &[u8]) -> usize
    ensures value { result ≡ up_to_brace text.now }
    ensures within { result ≤ length text.now }
{
    match brace_at(text) {
        Some(i) => i + 1,
        None => text.len(),
    }
}

fn brace_at(text: &[u8]) -> Option<usize>
    ensures value { result ≡ position (λ c. c == right_brace) text.now }
    ensures within { IfSome result (λ i. i < length text.now) }
{
    text.iter().position(|b| *b == b'}')
}

/// Whether the text begins with a run of flags that has a refused flag.
fn has_refused_flag(text: &[u8]) -> bool
    ensures { result ≡ has_refused_flag text.now }
{
    text.iter()
        .take_while(|b| b.is_ascii_alphabetic() || **b == b'-')
        .any(|b| is_refused_flag(*b))
}

fn is_refused_flag(byte: u8) -> bool
    ensures { result ≡ is_refused_flag byte }
{
    matches!(byte, b'x' | b'u' | b'R')
}

/// Whether a count of repetitions begins after the `{`.
fn begins_count(text: &[u8]) -> bool
    ensures { result ≡ begins_count text.now }
{
    let least = digits_len(text);
    let after = &text[least..];
    if least == 0 {
        return false;
    }
    if after.starts_with(b"}") {
        return true;
    }
    if !after.starts_with(b",") {
        return false;
    }
    let most = &after[1..];
    most[digits_len(most)..].starts_with(b"}")
}

fn digits_len(text: &[u8]) -> usize
    ensures value { result ≡ digits_len text.now }
    ensures within { result ≤ length text.now }
{
    text.iter().take_while(|b| b.is_ascii_digit()).count()
}

/// How many bytes follow the `[` that begins a class: `^` or not, and then `]` or not.
fn class_start_len(text: &[u8]) -> usize
    ensures value { result ≡ class_start_len text.now }
    ensures within { result ≤ length text.now }
{
    if text.starts_with(b"^]") {
        2
    } else if text.starts_with(b"^") || text.starts_with(b"]") {
        1
    } else {
        0
    }
}

/// What may follow the `[` of a named class.
const NAMED_CLASSES: [&str; 28] = [
    ":alnum:]",
    ":^alnum:]",
    ":alpha:]",
    ":^alpha:]",
    ":ascii:]",
    ":^ascii:]",
    ":blank:]",
    ":^blank:]",
    ":cntrl:]",
    ":^cntrl:]",
    ":digit:]",
    ":^digit:]",
    ":graph:]",
    ":^graph:]",
    ":lower:]",
    ":^lower:]",
    ":print:]",
    ":^print:]",
    ":punct:]",
    ":^punct:]",
    ":space:]",
    ":^space:]",
    ":upper:]",
    ":^upper:]",
    ":word:]",
    ":^word:]",
    ":xdigit:]",
    ":^xdigit:]",
];

/// How many bytes follow the `[` of a named class; `None` if none begins there.
fn named_class_len(text: &[u8]) -> Option<usize>
    ensures value { result ≡ named_class_len text.now }
    ensures within { IfSome result (λ n. n ≤ length text.now) }
{
    first_prefix_len(text, &NAMED_CLASSES)
}

/// The length of the first of the words with which the text begins.
fn first_prefix_len(text: &[u8], words: &[&str]) -> Option<usize>
    ensures value { result ≡ option_map (λ word. length word)
        (find (λ word. starts_with nat_eq text.now word) (map (λ w. w.now) words.now)) }
    ensures within { IfSome result (λ n. n ≤ length text.now) }
{
    for word in words {
        if text.starts_with(word.as_bytes()) {
            return Some(word.len());
        }
    }
    None
}
