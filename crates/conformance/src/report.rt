//! The report of a case that differs, and the line of counts.

use crate::bidi::BidiLine;
use crate::case::Wanted;
use crate::fault::RunFault;
use crate::tally::Tally;
use std::alloc::Global;
use std::fmt::Write;

/// What is wanted of a line of text, and what came.
pub fn report_levels(
    alloc: Global,
    wanted: &Wanted,
    came: &BidiLine,
    places: &[u32],
) -> Result<String, RunFault> {
    let mut text = String::new(alloc);
    let whole = put_line(&mut text, wanted, came, places);
    whole.map(|()| text)
}

fn put_line(
    text: &mut String,
    wanted: &Wanted,
    came: &BidiLine,
    places: &[u32],
) -> Result<(), RunFault> {
    text.push_str("wanted levels")?;
    put_levels(text, &wanted.levels)?;
    text.push_str(" order")?;
    put_numbers(text, &wanted.order)?;
    text.push_str(", came levels")?;
    for level in &came.levels {
        write!(text, " {level}")?;
    }
    text.push_str(" order")?;
    put_numbers(text, places)
}

/// What breaks of a text are wanted, and which came.
pub fn report_breaks(
    alloc: Global,
    text: &str,
    wanted: &[bool],
    came: &[bool],
) -> Result<String, RunFault> {
    let mut report = String::new(alloc);
    let whole = put_breaks(&mut report, text, wanted, came);
    whole.map(|()| report)
}

fn put_breaks(
    report: &mut String,
    text: &str,
    wanted: &[bool],
    came: &[bool],
) -> Result<(), RunFault> {
    report.push_str("wanted ×")?;
    put_marks(report, text, wanted)?;
    report.push_str(", came ×")?;
    put_marks(report, text, came)
}

fn put_levels(text: &mut String, levels: &[Option<u8>]) -> Result<(), RunFault> {
    for level in levels {
        match level {
            Some(level) => write!(text, " {level}")?,
            None => text.push_str(" x")?,
        }
    }
    Ok(())
}

fn put_numbers(text: &mut String, numbers: &[u32]) -> Result<(), RunFault> {
    for number in numbers {
        write!(text, " {number}")?;
    }
    Ok(())
}

/// Writes code points, each followed by its mark.
fn put_marks(report: &mut String, text: &str, breaks: &[bool]) -> Result<(), RunFault> {
    for (i, c) in text.chars().enumerate() {
        let code = u32::from(c);
        let mark = match breaks.get(i) {
            Some(true) => '÷',
            Some(false) => '×',
            None => '?',
        };
        write!(report, " {code:04X} {mark}")?;
    }
    Ok(())
}

/// Writes the line of counts.
pub fn put_summary(text: &mut String, name: &str, tally: &Tally) -> Result<(), RunFault> {
    let cases = tally.cases();
    let agree = tally.agree;
    let differ = tally.differ;
    let pairs = tally.pairs;
    let pictographs = tally.pictographs;
    write!(
        text,
        "{name}: {cases} cases, {agree} agree, {differ} differ"
    )?;
    if pairs > 0 || pictographs > 0 {
        write!(text, ", by choice {pairs} LB25 {pictographs} LB30b")?;
    }
    text.push_str("\n")?;
    Ok(())
}
