#![tactic(auto, using(am_universe::proofs::Writing::steps))]

ghost use Rattle.am_universe.specs.Sink.{Writes};
ghost use Rattle.am_search.specs.TrailerText.{trailer_text};

use crate::start::Start;
use crate::token::write_token;
use crate::trailer::Trailer;
use am_universe::{Kind, Sink, put_all};

/// Writes the line of a trailer: `# end`, or `# next` or `# stopped` and a token.
///
/// The token is for inputs with this fingerprint. Fails only with `Kind::Write`; what was written
/// is then a proper prefix of the line.
pub fn write_trailer<W: Sink>(
    trailer: &Trailer,
    fingerprint: &[u8; 16],
    out: &mut W,
) -> Result<(), Kind>
    ensures written { Writes W.taken W.failures out.old out.new
        (trailer_text fingerprint.now trailer.now) result }
{
    match trailer {
        Trailer::End => put_all(out, b"# end\n"),
        Trailer::Next(choice) => {
            put_all(out, b"# next ")?;
            write_token(&Start::After(*choice), fingerprint, out)?;
            put_all(out, b"\n")
        }
        Trailer::Stopped(prefix) => {
            put_all(out, b"# stopped ")?;
            write_token(&Start::At(*prefix), fingerprint, out)?;
            put_all(out, b"\n")
        }
    }
}
