use am_files::Files;
use std::marker::Model;

/// The inputs for which a universe is made or checked.
#[derive(Drop)]
pub struct UniverseInputs<'a> {
    /// The bytes of a universe file, whose labels, values and impossible lists the made universe
    /// keeps, or which is checked. Without one there are none of these.
    pub universe: Option<&'a [u8]>,
    /// The configuration, the silences and the firing alerts. The instant is ignored.
    pub files: &'a Files<'a>,
    /// The texts of questions, whose matchers count too.
    pub questions: &'a [&'a str],
}

impl<'a> Model for UniverseInputs<'a> {
    ghost use Rattle.std.specs.Prelude.{map, option_copied};
    ghost use Rattle.am_universe_command.specs.UniverseInputs as spec;

    ghost Value = { spec.UniverseInputs };

    ghost view = { λ inputs. record {
      universe = option_copied inputs.universe;
      files = inputs.files.now;
      questions = map (λ text. text.now) inputs.questions.now;
    } };
}
