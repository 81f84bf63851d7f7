//! The devices are asked who they are before anything else.

use crate::ending::Stop;
use crate::listening::Listening;
use cct_edge::{Failed, Sink};
use cct_live_port::CountedLink;
use cct_live_survey::{Finding, Roll, write_finding};
use cct_model_lines::Setup;
use cct_text::TextLine;

/// How many questions are asked before the first line of the input is read, at most. Each device of
/// a setup is asked one within them.
const FIRST_QUESTIONS: u32 = 64;

/// How many first messages may come back damaged before the port counts as not set up.
const FIRST_TRIES: u32 = 3;

/// Calls the roll up to the first question that isn't answered, and says what was found. The
/// service calls what is left.
///
/// [`Stop::Unset`] comes where the line is said to give the echo, and none of the first three
/// messages comes back whole.
pub(crate) fn call_first<L: CountedLink + Drop, K: Sink>(
    setup: &Setup,
    roll: &mut Roll,
    link: L,
    is_echo_due: bool,
    out: &mut K,
) -> Result<L, Stop> {
    let mut link = link;
    if is_echo_due {
        link = hear_echo(setup, roll, link)?;
    }
    roll.ask(setup, FIRST_QUESTIONS, &mut link);
    tell_findings(roll.findings(), out)?;
    Ok(link)
}

/// Asks the first questions of the roll until one comes back whole. A port that fails is reported
/// by the service.
fn hear_echo<L: CountedLink + Drop>(setup: &Setup, roll: &mut Roll, link: L) -> Result<L, Stop> {
    let mut link = Listening::new(link);
    for _ in 0..FIRST_TRIES {
        if link.has_echoed() || roll.is_done() {
            return Ok(link.into_link());
        }
        roll.ask(setup, 1, &mut link);
    }
    let has_echoed = link.has_echoed();
    let link = link.into_link();
    if has_echoed || link.faults() > 0 {
        Ok(link)
    } else {
        Err(Stop::Unset)
    }
}

/// Writes a line for each finding.
fn tell_findings<K: Sink>(findings: &[Finding], out: &mut K) -> Result<(), Failed> {
    let mut line = TextLine::new();
    for finding in findings {
        write_finding(finding, &mut line, out)?;
    }
    Ok(())
}
