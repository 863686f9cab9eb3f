//! Facts about the definitions alone: each is the contract of a function with an empty body.

ghost use Rattle.std.specs.Prelude.{◌≡◌, ◌↔◌, ℕ, List, Option, Some, map, slice_get, Contains};
ghost use Rattle.std.specs.Prelude.{IsTrue};
ghost use Rattle.std.specs.List.Sorted.{IsStrictlySortedBy};
ghost use Rattle.std.specs.Ordering.{nat_cmp};
ghost use Rattle.am_universe.specs.LabelSet.{LabelMap};
ghost use Rattle.am_report_texts.specs.declared.writing.Form.{Form};
ghost use Rattle.am_eval.specs.World.{World};
ghost use Rattle.am_files.specs.Files.{Files};
ghost use Rattle.am_eval.specs.Question.{Question, satisfies};
ghost use Rattle.am_alerts.specs.AlertLines.{asked_alerts};
ghost use Rattle.am_alerts.specs.Alerts.{ReportsAlerts};

/// The alerts that have a line are exactly those of the file that satisfy the question, in the
/// order of the file and each once.
pub fn asked_alerts_are_those_that_satisfy()
    ensures exactly { (w : World) (q : Question) (i : ℕ) (s : LabelMap)
        → (Contains (asked_alerts w q) (i, s)
        ↔ ((slice_get w.alerts i ≡ Some s) × IsTrue (satisfies w q s))) }
    ensures ascending { (w : World) (q : Question)
        → IsStrictlySortedBy nat_cmp (map (λ alert. alert.0) (asked_alerts w q)) }
{}

/// The same inputs fix what `alerts` writes.
pub fn the_lines_of_alerts_are_one_text()
    ensures one { (files : Files) (asked : Option (List ℕ)) (form : Form) (text other : List ℕ)
        → ReportsAlerts files asked form text → ReportsAlerts files asked form other
        → text ≡ other }
{}
