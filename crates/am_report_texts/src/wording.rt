//! The separators of lists, and the endings of words.

ghost use Rattle.std.specs.Prelude.{◌≡◌};
ghost use Rattle.am_report_texts.specs.Plural.{plural};
ghost use Rattle.am_report_texts.specs.Separated.{gap_before};

/// Returns the separator before the item at a position: `first` before the first, and `gap` before
/// each other one.
pub fn gap_before(i: usize, first: &'static str, gap: &'static str) -> &'static str
    ensures gap { result.now ≡ gap_before i first.now gap.now }
{
    if i == 0 { first } else { gap }
}

/// Returns the ending of a word for `n` things: empty for one, and else `s`.
pub fn plural(n: u128) -> &'static str
    ensures ending { result.now ≡ plural n }
{
    if n == 1 { "" } else { "s" }
}
