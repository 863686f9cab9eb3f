ghost use Rattle.std.specs.Prelude.{◌≡◌, ◌≢◌, [], false, true, IsTrue, IfOk, IfErr, OnOk};
ghost use Rattle.std.specs.Prelude.{string_bytes};
ghost use Rattle.am_labels.specs.PatternProfile.{in_profile};
ghost use Rattle.am_labels.specs.Matcher.{holds, takes_pattern};
ghost use Rattle.am_labels.specs.MatcherRefusals.{has_valid_pattern, MatcherRefusedFor};
ghost use Rattle.am_labels.specs.declared.op.Op.TheVariants.{Equal};
ghost use Rattle.am_universe.specs.declared.kind.Kind.TheVariants as kinds;

use crate::Op;
use crate::pattern::{Pattern, PatternMatcher};
use am_universe::Kind;
use std::alloc::{AllocError, Global};
use std::marker::Model;

/// A matcher on the value of a label (Alertmanager configuration reference 0.25, `<matcher>`).
///
/// The value of `=~` and `!~` is a pattern, which is compared with the whole value of the label.
#[derive(Drop)]
pub struct Matcher {
    name: String,
    op: Op,
    value: String,
    pattern: Option<Pattern>,
}

impl Model for Matcher {
    ghost use Rattle.std.specs.Prelude.{◌≡◌, ◌≢◌, [], Some, None, if◌then◌else◌, string_bytes};
    ghost use Rattle.am_labels.specs.Matcher.{Matcher, takes_pattern};

    ghost Value = { Matcher };

    ghost view = { λ m.
        record { name = string_bytes m.name; op = m.op; value = string_bytes m.value } };

    // The label has a name. There is a pattern exactly if the operator takes one.
    ghost invariant = { λ m. (string_bytes m.name ≢ [])
        × (m.pattern ≡ (if takes_pattern m.op then Some (string_bytes m.value) else None)) };
}

impl Matcher {
    /// Makes a matcher on the label of this name.
    ///
    /// Fails with `Empty` for the empty name. Then, for `=~` and `!~`, it fails with
    /// `PatternProfile` exactly if the value is outside the profile of patterns, and with `Pattern`
    /// if the engine refuses a pattern of the profile. The engine refuses every pattern that its
    /// grammar does not read between `^(?:` and `)$`. Fails with `Memory` only for a pattern of the
    /// profile.
    pub fn new(alloc: Global, name: String, op: Op, value: String) -> Result<Matcher, Kind>
        ensures ok { IfOk result (λ m.
            m ≡ record { name = string_bytes name; op = op; value = string_bytes value }) }
        ensures named { OnOk result (string_bytes name ≢ []) }
        ensures valid_pattern { OnOk result (IsTrue (has_valid_pattern
            (record { name = string_bytes name; op = op; value = string_bytes value }))) }
        ensures unnamed { string_bytes name ≡ [] → result ≡ Err kinds.Empty }
        ensures outside { string_bytes name ≢ [] → takes_pattern op ≡ true
            → in_profile (string_bytes value) ≡ false → result ≡ Err kinds.PatternProfile }
        ensures refused { IfErr result (λ kind. kind ≢ kinds.Memory
            → MatcherRefusedFor
            (record { name = string_bytes name; op = op; value = string_bytes value }) kind) }
        ensures memory { IfErr result (λ kind. kind ≡ kinds.Memory
            → (takes_pattern op ≡ true) × (in_profile (string_bytes value) ≡ true)) }
    {
        Matcher::new_beside(alloc, None, name, op, value)
    }

    /// Makes a matcher as `new` does. If the other matcher has the same pattern, it is not built
    /// again.
    pub(crate) fn new_beside(
        alloc: Global,
        other: Option<&Matcher>,
        name: String,
        op: Op,
        value: String,
    ) -> Result<Matcher, Kind>
        ensures ok { IfOk result (λ m.
            m ≡ record { name = string_bytes name; op = op; value = string_bytes value }) }
        ensures named { OnOk result (string_bytes name ≢ []) }
        ensures valid_pattern { OnOk result (IsTrue (has_valid_pattern
            (record { name = string_bytes name; op = op; value = string_bytes value }))) }
        ensures unnamed { string_bytes name ≡ [] → result ≡ Err kinds.Empty }
        ensures outside { string_bytes name ≢ [] → takes_pattern op ≡ true
            → in_profile (string_bytes value) ≡ false → result ≡ Err kinds.PatternProfile }
        ensures refused { IfErr result (λ kind. kind ≢ kinds.Memory
            → MatcherRefusedFor
            (record { name = string_bytes name; op = op; value = string_bytes value }) kind) }
        ensures memory { IfErr result (λ kind. kind ≡ kinds.Memory
            → (takes_pattern op ≡ true) × (in_profile (string_bytes value) ≡ true)) }
    {
        if name.is_empty() {
            return Err(Kind::Empty);
        }
        let pattern = if op.takes_pattern() {
            let other = match other {
                Some(other) => other.pattern.as_ref(),
                None => None,
            };
            Some(Pattern::new_beside(alloc, other, value.as_str())?)
        } else {
            None
        };
        Ok(Matcher {
            name,
            op,
            value,
            pattern,
        })
    }

    /// The name of the label, which is not empty.
    pub fn name(&self) -> &str
        ensures name { result.now ≡ self.now.name }
        ensures named { self.now.name ≢ [] }
    {
        self.name.as_str()
    }

    /// The operator.
    pub fn op(&self) -> Op
        ensures op { result ≡ self.now.op }
    {
        self.op
    }

    /// The value that the operator compares with, or the pattern.
    pub fn value(&self) -> &str
        ensures value { result.now ≡ self.now.value }
    {
        self.value.as_str()
    }

    /// Prepares this matcher to test one text after another.
    ///
    /// Fails only if memory runs out.
    pub fn prepare(&self, alloc: Global) -> Result<PreparedMatcher<'_>, AllocError>
        ensures matcher { IfOk result (λ prepared. prepared ≡ self.now) }
    {
        let search = match &self.pattern {
            Some(pattern) => Some(pattern.matcher(alloc)?),
            None => None,
        };
        Ok(PreparedMatcher {
            name: self.name(),
            op: self.op,
            value: self.value(),
            search,
        })
    }
}

/// Tests one text after another against a matcher. The engine keeps its caches from one text to the
/// next, and a test cannot fail.
#[derive(Drop)]
pub struct PreparedMatcher<'m> {
    name: &'m str,
    op: Op,
    value: &'m str,
    search: Option<PatternMatcher<'m>>,
}

impl<'m> Model for PreparedMatcher<'m> {
    ghost use Rattle.std.specs.Prelude.{◌≡◌, Some, None, if◌then◌else◌};
    ghost use Rattle.am_labels.specs.Matcher.{Matcher, takes_pattern};

    ghost Value = { Matcher };

    ghost view = { λ t. record { name = t.name.now; op = t.op; value = t.value.now } };

    ghost invariant = { λ t.
        t.search ≡ (if takes_pattern t.op then Some t.value.now else None) };
}

impl<'m> PreparedMatcher<'m> {
    /// The matcher `name="value"`, for any name and any value. It takes no memory.
    pub(crate) fn of_value(name: &'m str, value: &'m str) -> PreparedMatcher<'m>
        ensures { result ≡ record { name = name.now; op = Equal; value = value.now } }
    {
        PreparedMatcher {
            name,
            op: Op::Equal,
            value,
            search: None,
        }
    }

    /// The name of the label.
    pub(crate) fn name(&self) -> &'m str
        ensures { result.now ≡ self.now.name }
    {
        self.name
    }

    /// Whether the operator and the value are true of a text.
    pub fn holds(&mut self, text: &str) -> bool
        ensures truth { result ≡ holds self.old.op self.old.value text.now }
        ensures same { self.new ≡ self.old }
    {
        let found = match &mut self.search {
            Some(search) => search.is_match(text),
            None => text == self.value,
        };
        found != self.op.negates()
    }
}
