//! How reports are written.

ghost use Rattle.std.specs.Prelude.{◌≡◌, string_bytes, IfOk};
ghost use Rattle.am_report_texts.specs.LineView.{report_view};
ghost use Rattle.am_report_texts.specs.Written.{IsWritten};
ghost use Rattle.am_report_texts.specs.declared.writing.Form.TheVariants as form_is;

use crate::lines::Report;
use crate::lines_json::json_of;
use crate::lines_text::text_of;
use std::alloc::{AllocError, Global};

/// The form of a report.
#[derive(Clone, Copy, PartialEq, Eq, Drop)]
pub enum Form {
    /// Lines for people.
    Lines,
    /// One JSON document, and a line feed.
    Json,
}

/// Returns a report in a form. Fails only if memory runs out.
pub fn written(alloc: Global, form: Form, report: &Report<'_>) -> Result<String, AllocError>
    ensures written { IfOk result (λ text.
        IsWritten form (report_view report.now) (string_bytes text)) }
{
    match form {
        Form::Lines => text_of(alloc, report),
        Form::Json => document(alloc, report),
    }
}

/// Returns a report as a JSON document, with a line feed behind it.
fn document(alloc: Global, report: &Report<'_>) -> Result<String, AllocError>
    ensures { IfOk result (λ text.
        IsWritten form_is.Json (report_view report.now) (string_bytes text)) }
{
    let mut text = json_of(alloc, report)?.to_string(alloc)?;
    text.push_str("\n")?;
    Ok(text)
}
