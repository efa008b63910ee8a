//! The final report of a script, as the last of its answers.

/// Returns the report at the end of these answers, which begins at the first `final`. If the script ends with a fault,
/// there is no report, and the result is empty.
pub(crate) fn report_of<'a>(answers: &'a [u8], fault: &str) -> &'a [u8] {
    let found = answers
        .windows(5)
        .position(|five| five == b"final".as_slice());
    match found {
        Some(start) if fault.is_empty() => answers.get(start..).unwrap_or(b""),
        _ => b"",
    }
}
