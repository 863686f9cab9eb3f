//! How much the searches for a report may look at, and why one ended without an answer.

ghost use Rattle.std.specs.Prelude.{◌≡◌, true, false, IfErr, IsTrue};
ghost use Rattle.am_first_sets.specs.declared.budget.Unfinished.TheVariants.{Memory};
ghost use Rattle.am_first_sets.specs.Budget.{MayEnd};

use crate::left::Left;
use crate::limits::{MAX_LOOKS, MAX_REPORT_LOOKS};
use crate::used_up::UsedUp;
use am_universe::History;
use std::alloc::{AllocError, AllocFailed};
use std::marker::Model;

/// How many masks the searches for a report may still look at, if there is a limit.
#[derive(Drop)]
pub struct Budget {
    /// `None` if there is no limit.
    left: Option<Left>,
    /// How many were looked at, time after time, for the present route, rule or silence, and for
    /// the report. Only contracts see this, and it takes no bytes.
    item: History<usize>,
    report: History<usize>,
}

impl Model for Budget {
    ghost use Rattle.std.specs.Prelude.{Bool};
    ghost use Rattle.std.specs.Option.{is_some};
    ghost use Rattle.am_first_sets.specs.Looks.{IsAccounted};

    // Contracts see whether there is a limit.
    ghost Value = { Bool };

    ghost view = { λ b. is_some b.left };

    ghost invariant = { λ b. IsAccounted b.left b.item.items b.report.items };
}

/// Why a search ended without an answer.
#[derive(Drop)]
pub enum Unfinished {
    /// Memory ran out.
    Memory,
    /// The budget was used up.
    UsedUp(UsedUp),
}

impl From<AllocError> for Unfinished {
    ghost from_gives = { λ _ e. e ≡ Memory };

    fn from(_error: AllocError) -> Unfinished {
        Unfinished::Memory
    }
}

impl<T: Drop> From<AllocFailed<T>> for Unfinished {
    ghost from_gives = { λ _ e. e ≡ Memory };

    fn from(_error: AllocFailed<T>) -> Unfinished {
        Unfinished::Memory
    }
}

impl Unfinished {
    /// The failure of a search without a limit, which ends only if memory runs out.
    pub(crate) fn memory(self) -> AllocError
        requires { MayEnd false self }
    {
        match self {
            Unfinished::Memory => AllocError,
            Unfinished::UsedUp(_) => unreachable!(),
        }
    }
}

impl Budget {
    /// Searches may look at any number of masks.
    pub fn unlimited() -> Budget
        ensures { result ≡ false }
    {
        Budget {
            left: None,
            item: History::new(),
            report: History::new(),
        }
    }

    /// The searches for a report may look at [`MAX_REPORT_LOOKS`] masks, and at [`MAX_LOOKS`] for
    /// each route, rule or silence.
    pub fn limited() -> Budget
        ensures { result ≡ true }
    {
        Budget {
            left: Some(Left {
                item: MAX_LOOKS,
                report: MAX_REPORT_LOOKS,
            }),
            item: History::new(),
            report: History::new(),
        }
    }

    /// From here on, it is another route, rule or silence that is searched for.
    pub fn begin_item(&mut self)
        ensures same { self.new ≡ self.old }
    {
        if let Some(left) = self.left {
            self.left = Some(Left {
                item: MAX_LOOKS,
                ..left
            });
        }
        self.item = History::new();
    }

    /// Takes this many looks, or what is left of them. Fails if nothing is left.
    pub(crate) fn take(&mut self, looks: usize) -> Result<(), UsedUp>
        ensures same { self.new ≡ self.old }
        ensures limited { IfErr result (λ _. IsTrue self.old) }
    {
        if let Some(left) = self.left {
            if left.item == 0 {
                return Err(UsedUp {
                    looked: self.item.followed_by(&[]),
                });
            }
            if left.report == 0 {
                return Err(UsedUp {
                    looked: self.report.followed_by(&[]),
                });
            }
            let taken = looks.min(left.item).min(left.report);
            self.left = Some(Left {
                item: left.item - taken,
                report: left.report - taken,
            });
            self.item = self.item.followed_by(&[taken]);
            self.report = self.report.followed_by(&[taken]);
        }
        Ok(())
    }
}
