ghost use Rattle.std.specs.Prelude.{◌≡◌, ℕ, true, IfOk, IfSome, Some, slice_get, vec_len};
ghost use Rattle.regex_nfa.specs.declared.nfa.Nfa.{Nfa};
ghost use Rattle.am_scan.specs.declared.sight.Sight.{Sight};
ghost use Rattle.am_scan.specs.declared.column.Column.{Column};
ghost use Rattle.am_scan.specs.Sight.{is_scanned};
ghost use Rattle.am_scan.specs.Column.{IsColumn};
ghost use Rattle.am_scan.specs.Automaton.{AreClasses, Grows, IsIndexed};

use crate::arrivals::{Arrival, arrivals_of};
use crate::column::Column;
use crate::pattern_scan::PatternScan;
use std::alloc::{AllocError, Global};

/// How a pattern treats each byte.
#[derive(Drop)]
pub(crate) struct Columns {
    /// The columns of the scanned bytes. No two of them are the same.
    pub(crate) columns: Vec<Column>,
    /// For each byte, the position of its column. For a byte that is not scanned, it means nothing.
    pub(crate) classes: Vec<u8>,
    /// For each state of the pattern, the steps to it that are in the columns.
    pub(crate) arrivals: Vec<Vec<Arrival>>,
}

impl Columns {
    /// Finds how a pattern treats each byte. Returns `None` if there are more classes than bytes.
    pub(crate) fn of(alloc: Global, scan: &PatternScan) -> Result<Option<Columns>, AllocError>
        ensures count { IfOk result (λ found. IfSome found
            (λ made. vec_len made.classes ≡ 256)) }
        ensures arrivals { IfOk result (λ found. IfSome found
            (λ made. IsIndexed scan.now.nfa made)) }
        ensures classes { IfOk result (λ found. IfSome found
            (λ made. AreClasses scan.now made.columns.items made.classes.items)) }
    {
        let mut columns: Vec<Column> = Vec::new(alloc);
        let mut classes = Vec::with_capacity(alloc, 256)?;
        let mut last = 0;
        for byte in 0..=u8::MAX {
            let Some(class) = class_of(alloc, scan, byte, last, &mut columns)? else {
                return Ok(None);
            };
            classes.push(class)?;
            last = class;
        }
        let arrivals = arrivals_of(alloc, columns.as_slice(), scan.nfa.states.len())?;
        Ok(Some(Columns {
            columns,
            classes,
            arrivals,
        }))
    }
}

/// Returns the position of the column of a byte, and adds the column if it is not listed yet. A
/// byte that is not scanned has no column, so any position will do. Returns `None` if the position
/// does not fit in a byte.
///
/// Most bytes have the column of the byte before them, whose class is `last`. It is tried first,
/// since making a column takes memory.
fn class_of(
    alloc: Global,
    scan: &PatternScan,
    byte: u8,
    last: u8,
    columns: &mut Vec<Column>,
) -> Result<Option<u8>, AllocError>
    ensures grows { Grows columns.old.items columns.new.items }
    ensures class { IfOk result (λ found. IfSome found (λ class.
        is_scanned scan.now.bytes byte ≡ true → (column : Column)
        × (slice_get columns.new.items class ≡ Some column)
        × IsColumn scan.now.nfa scan.now.sight byte column)) }
{
    if !scan.bytes.has(byte) {
        return Ok(Some(0));
    }
    if let Some(column) = columns.get(usize::from(last)) {
        if column.is_of(&scan.nfa, scan.sight, byte) {
            return Ok(Some(last));
        }
    }
    let column = Column::of(alloc, &scan.nfa, scan.sight, byte)?;
    let place = place_of(columns, column)?;
    let Ok(class) = u8::try_from(place) else {
        return Ok(None);
    };
    Ok(Some(class))
}

/// Returns the position of a column, and adds the column if it is not listed yet.
fn place_of(columns: &mut Vec<Column>, column: Column) -> Result<usize, AllocError>
    ensures grows { Grows columns.old.items columns.new.items }
    ensures place { IfOk result (λ place. (other : Column)
        × (slice_get columns.new.items place ≡ Some other)
        × ((nfa : Nfa) (sight : Sight) (byte : ℕ) → IsColumn nfa sight byte column
        → IsColumn nfa sight byte other)) }
{
    for (place, other) in columns.iter().enumerate() {
        if other.same(&column) {
            return Ok(place);
        }
    }
    let place = columns.len();
    columns.push(column)?;
    Ok(place)
}
