//! Facts about the definitions alone: each is the contract of a function with an empty body.

ghost use Rattle.std.specs.Prelude.{List};
ghost use Rattle.am_report_texts.specs.Line.{Line, Piece, line_text, pieces_line};
ghost use Rattle.am_report_texts.specs.Lines.{IsLine};

/// Each line of a report, and its last one, is one line: nothing that stands in it ends it or
/// begins another one.
#[tactic(auto, using(crate::proofs::LineLemmas::one_line, crate::proofs::LineLemmas::one_pieces_line))]
pub fn a_line_is_one_line()
    ensures line { (line : Line) → IsLine (line_text line) }
    ensures last { (pieces : List Piece) → IsLine (pieces_line pieces) }
{}
