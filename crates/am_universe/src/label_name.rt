//! Label names.

ghost use Rattle.std.specs.Prelude.{◌≡◌};
ghost use Rattle.std.specs.List.{list_all};
ghost use Rattle.am_universe.specs.Universe.{begins_label_name, continues_label_name};
ghost use Rattle.am_universe.specs.Universe.{is_label_name};

/// Whether the text is a label name, `[a-zA-Z_][a-zA-Z0-9_]*` (Prometheus data model).
pub(crate) fn is_label_name(name: &[u8]) -> bool
    ensures { result ≡ is_label_name name.now }
{
    match name.split_first() {
        Some((first, rest)) => begins_label_name(*first) && all_continue_label_name(rest),
        None => false,
    }
}

fn all_continue_label_name(bytes: &[u8]) -> bool
    ensures { result ≡ list_all continues_label_name bytes.now }
{
    bytes.iter().all(|byte| continues_label_name(*byte))
}

/// Whether a label name may begin with the byte: an ASCII letter or `_` (Prometheus data model).
pub fn begins_label_name(byte: u8) -> bool
    ensures begins { result ≡ begins_label_name byte }
{
    byte.is_ascii_alphabetic() || byte == b'_'
}

/// Whether a label name may have the byte after its first: an ASCII letter, an ASCII digit or `_`
/// (Prometheus data model).
pub fn continues_label_name(byte: u8) -> bool
    ensures continues { result ≡ continues_label_name byte }
{
    begins_label_name(byte) || byte.is_ascii_digit()
}
