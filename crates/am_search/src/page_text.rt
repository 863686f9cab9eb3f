#![tactic(auto, using(am_universe::proofs::Writing::steps))]

ghost use Rattle.std.specs.Prelude.{◌≡◌, ◌<◌, ℕ, List, Option, IfOk, IfSome};
ghost use Rattle.am_universe.specs.Universe.{sizes};
ghost use Rattle.am_universe.specs.Sink.{Writes};
ghost use Rattle.am_search.specs.AnswersView.{answers_judge, answers_page, state_at};
ghost use Rattle.am_search.specs.PageText.{lines_text, page_text};
ghost use Rattle.am_search.specs.BudgetPage.{trailer_at};

use crate::answers::{Answers, State, one_less};
use crate::judge::Judge;
use crate::trailer::Trailer;
use crate::trailer_text::write_trailer;
use am_universe::{Choice, Kind, LineTable, Sink};

/// Writes a page, and returns its trailer. A page is a line for each answer up to a limit, and then
/// the trailer.
///
/// The table must be that of the universe to which the choices belong. A limit must be at least 1.
/// If there are more answers than the limit, the trailer is `Next`; otherwise it says whether the
/// search ended or stopped. Its token has the given fingerprint, which is that of the inputs. Each
/// line is written before the search for the next answer. Fails only with `Kind::Write`; what was
/// written is then a proper prefix of the page. Takes no memory.
pub fn write_page<J: Judge, W: Sink>(
    table: &mut LineTable,
    answers: &mut Answers<'_, J>,
    limit: Option<u64>,
    fingerprint: &[u8; 16],
    out: &mut W,
) -> Result<Trailer, Kind>
    requires sizes { J.sizes (answers_judge answers.old) ≡ sizes table.old }
    requires limit { IfSome limit (λ n. 0 < n) }
    ensures trailer { IfOk result (λ trailer.
        trailer ≡ (answers_page answers.old limit).trailer) }
    ensures written { Writes W.taken W.failures out.old out.new
        (page_text table.old fingerprint.now (answers_page answers.old limit)) result }
{
    let trailer = write_lines(table, answers, limit, out)?;
    write_trailer(&trailer, fingerprint, out)?;
    Ok(trailer)
}

/// Writes the lines of a page, and returns its trailer, which is not written.
fn write_lines<J: Judge, W: Sink>(
    table: &mut LineTable,
    answers: &mut Answers<'_, J>,
    limit: Option<u64>,
    out: &mut W,
) -> Result<Trailer, Kind>
    requires sizes { J.sizes (answers_judge answers.old) ≡ sizes table.old }
    requires limit { IfSome limit (λ n. 0 < n) }
    ensures trailer { IfOk result (λ trailer.
        trailer ≡ (answers_page answers.old limit).trailer) }
    ensures written { Writes W.taken W.failures out.old out.new
        (lines_text table.old (answers_page answers.old limit).choices) result }
{
    let mut room = limit;
    let mut last = Choice::empty();
    while let Some(choice) = answers.next() {
        if room == Some(0) {
            return Ok(Trailer::Next(last));
        }
        room = one_less(room);
        table.write_line(&choice, out)?;
        last = choice;
    }
    Ok(trailer_of(answers.state()))
}

/// The trailer of a page that has all answers of the search, by how far the search has come.
fn trailer_of(state: State) -> Trailer
    ensures { (stop : Option (List ℕ)) → state ≡ state_at stop → result ≡ trailer_at stop }
{
    match state {
        State::Stopped(prefix) => Trailer::Stopped(prefix),
        State::Running | State::Ended => Trailer::End,
    }
}
