//! Inhibition rules, as they are kept in memory.

// The `impl Model` has imports of its own. None is from a module that uses this type.
ghost use Rattle.std.specs.Prelude.{◌≡◌};
ghost use Rattle.am_config.specs.RouteView.{names_of};

use am_labels::Matchers;
use std::marker::Model;

/// An inhibition rule (Alertmanager configuration reference 0.25, `<inhibit_rule>`).
///
/// While an alert fires that matches the source side, the rule mutes the alerts that match the
/// target side and have the same values for the labels in `equal`. If both alerts match both sides,
/// neither mutes the other.
#[derive(Drop)]
pub struct Rule {
    pub(crate) source: Matchers,
    pub(crate) target: Matchers,
    pub(crate) equal: Vec<String>,
}

impl Model for Rule {
    ghost use Rattle.am_config.specs.ConfigFile as spec;
    ghost use Rattle.am_config.specs.RouteView.{names_of};

    ghost Value = { spec.Rule };

    ghost view = { λ r. record {
      source = r.source;
      target = r.target;
      equal = names_of r.equal.items;
    } };
}

impl Rule {
    /// The matchers of the source side. An alert inhibits by this rule only if it matches all of
    /// them.
    ///
    /// They are those of `source_matchers`, in their order, then those of `source_match` and then
    /// those of `source_match_re`, both in the order of the bytes of their names.
    pub fn source(&self) -> &Matchers
        ensures source { result.now ≡ self.now.source }
    {
        &self.source
    }

    /// The matchers of the target side, in the same order. An alert is inhibited by this rule only
    /// if it matches all of them.
    pub fn target(&self) -> &Matchers
        ensures target { result.now ≡ self.now.target }
    {
        &self.target
    }

    /// The names of the labels that must have the same value in both alerts, in the order of the
    /// file.
    ///
    /// A name may occur twice.
    pub fn equal(&self) -> &[String]
        ensures equal { names_of result.now ≡ self.now.equal }
    {
        &self.equal
    }
}
