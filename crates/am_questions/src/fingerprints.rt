ghost use Rattle.std.specs.Prelude.{◌≡◌};
ghost use Rattle.am_questions.specs.Inputs.{files_fingerprint};

use am_files::Files;
use am_fingerprint::Parts;

/// The fingerprint of the inputs of a question.
///
/// It is made from the bytes of the universe file and of each other file that is given, the text of
/// the instant if it is given, and the text of the question. The token of a page has it, so that
/// the next page is not made from other inputs. Nothing is promised of different inputs that share
/// a fingerprint. Takes no memory.
pub fn fingerprint(universe: &[u8], files: &Files<'_>, question: &str) -> [u8; 16]
    ensures fingerprint { result
        ≡ files_fingerprint universe.now files.now question.now }
{
    am_fingerprint::fingerprint(&Parts {
        universe,
        config: files.config,
        silences: files.silences,
        alerts: files.alerts,
        instant: files.at,
        question,
    })
}
