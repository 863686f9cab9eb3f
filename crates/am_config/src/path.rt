//! Paths, which say which route of a configuration is meant.

ghost use Rattle.std.specs.Prelude.{◌≡◌, ◌≢◌, ◌<◌, ◌≤◌, ◌⊎◌, ℕ, List, [], ◌∷◌, ◌++◌, length};
ghost use Rattle.std.specs.Prelude.{slice_index, IfOk, IfErr, MatchOption};
ghost use Rattle.std.specs.Str.Parse.{digits_value};
ghost use Rattle.am_universe.specs.declared.kind.Kind.TheVariants as kinds;
ghost use Rattle.am_universe.specs.Text.{same_text};
ghost use Rattle.am_universe.specs.Sink.{Writes};
ghost use Rattle.am_config.specs.Path.{path_text, step_text, numeral, IsPath, leads_through};

use crate::limits::{MAX_CHILD_POSITION, MAX_PATH_STEPS};
use am_universe::{Kind, Positions, Sink, put_all, put_str};
use std::marker::Model;

/// The way from the top-level route down to a route.
///
/// It consists of at most [`MAX_PATH_STEPS`] positions of children, which count from 0.
#[derive(Clone, Copy, PartialEq, Eq, Debug)]
pub struct Path {
    steps: Positions,
}

impl Model for Path {
    ghost use Rattle.std.specs.Prelude.{◌≤◌, List, ℕ, length};
    ghost use Rattle.am_config.specs.declared.limits.TheConstants.{MAX_PATH_STEPS};

    ghost Value = { List ℕ };

    ghost view = { λ a. a.steps };

    ghost invariant = { λ a. length a.steps ≤ MAX_PATH_STEPS };

    ghost inverse = { λ steps. record { steps = steps } };
}

impl Path {
    /// The path of the top-level route.
    pub fn root() -> Path
        ensures steps { result ≡ [] }
    {
        Path {
            steps: Positions::empty(),
        }
    }

    /// The path of the child at this position. This path must have fewer than [`MAX_PATH_STEPS`]
    /// positions.
    pub fn child(&self, position: u16) -> Path
        requires room { length self.now < MAX_PATH_STEPS }
        ensures steps { result ≡ self.now ++ position ∷ [] }
    {
        let mut child = *self;
        child.steps.push(position);
        child
    }

    /// How many positions there are, at most [`MAX_PATH_STEPS`].
    pub fn len(&self) -> usize
        ensures len { result ≡ length self.now }
        ensures at_most { result ≤ MAX_PATH_STEPS }
    {
        self.steps.len()
    }

    /// The position at `i`, counted from the top.
    pub fn get(&self, i: usize) -> u16
        requires within { i < length self.now }
        ensures position { result ≡ slice_index self.now i }
    {
        self.steps.get(i)
    }

    /// The positions, from the top down.
    pub fn steps(&self) -> &[u16]
        ensures steps { result.now ≡ self.now }
    {
        self.steps.as_slice()
    }

    /// Reads the text of a path, as `/0/2`; that of the top-level route is `/`.
    ///
    /// Each position is written in decimal, without leading zeros. Fails with `QuestionSyntax` if
    /// the text is not that of a path, and with `UnknownRoute` if the path is longer, or has a
    /// larger position, than that of any route of any configuration.
    pub fn parse(text: &str) -> Result<Path, Kind>
        ensures ok { IfOk result (λ path. (path_text path ≡ text.now) × IsPath path) }
        ensures refused { IfErr result (λ kind.
            ((kind ≡ kinds.QuestionSyntax) × ((path : List ℕ) → path_text path ≢ text.now))
            ⊎ ((kind ≡ kinds.UnknownRoute) × (path : List ℕ) × (path_text path ≡ text.now)
            × (IsPath path → ⊥))) }
    {
        if text == "/" {
            return Ok(Path::root());
        }
        let Some(steps) = text.strip_prefix('/') else {
            return Err(Kind::QuestionSyntax);
        };
        if !steps.split('/').all(is_numeral) {
            return Err(Kind::QuestionSyntax);
        }
        parse_steps(steps).ok_or(Kind::UnknownRoute)
    }

    /// Whether the other path is a prefix of this one, or the same.
    pub fn leads_through(&self, other: &Path) -> bool
        ensures leads { result ≡ leads_through other.now self.now }
    {
        self.steps().starts_with(other.steps())
    }

    /// Writes the text of the path.
    ///
    /// Fails only with `Kind::Write`; what was written is then a proper prefix. Takes no memory.
    #[tactic(auto, using(am_universe::proofs::Writing::steps))]
    pub fn write<W: Sink>(&self, out: &mut W) -> Result<(), Kind>
        ensures written { Writes W.taken W.failures out.old out.new (path_text self.now) result }
    {
        if self.len() == 0 {
            return put_all(out, b"/");
        }
        for i in 0..self.len() {
            write_step(self.get(i), out)?;
        }
        Ok(())
    }
}

/// Whether the text is a number in decimal, without leading zeros.
fn is_numeral(text: &str) -> bool
    ensures { result ≡ same_text (numeral (digits_value 10 text.now)) text.now }
{
    let digits = text.as_bytes();
    if digits.is_empty() || (digits[0] == b'0' && digits.len() > 1) {
        return false;
    }
    digits.iter().all(|byte| byte.is_ascii_digit())
}

/// Returns the number that the text is in decimal, or `None` if no child has so large a position.
fn child_position(text: &str) -> Option<u16>
    ensures { (n : ℕ) → numeral n ≡ text.now → MatchOption result (MAX_CHILD_POSITION < n)
        (λ position. (position ≡ n) × (n ≤ MAX_CHILD_POSITION)) }
{
    match text.parse::<u16>() {
        Ok(position) => {
            if usize::from(position) <= MAX_CHILD_POSITION {
                Some(position)
            } else {
                None
            }
        }
        Err(_) => None,
    }
}

/// Reads the positions of a path, separated by `/`. Returns `None` if no path has them.
fn parse_steps(text: &str) -> Option<Path>
    ensures { (path : List ℕ) → 0 < length path → path_text path ≡ 47 ∷ text.now
        → MatchOption result (IsPath path → ⊥) (λ read. (read ≡ path) × IsPath path) }
{
    let mut path = Path::root();
    for part in text.split('/') {
        let position = child_position(part)?;
        if path.len() == MAX_PATH_STEPS {
            return None;
        }
        path = path.child(position);
    }
    Some(path)
}

/// Writes one position, with a `/` before it.
#[tactic(auto, using(am_universe::proofs::Writing::steps, crate::proofs::Numerals::decimal_steps))]
fn write_step<W: Sink>(position: u16, out: &mut W) -> Result<(), Kind>
    ensures written { Writes W.taken W.failures out.old out.new (step_text position) result }
{
    put_all(out, b"/")?;
    put_str(out, itoa::Buffer::new().format(position))
}
