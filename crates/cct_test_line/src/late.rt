//! A reply that comes late is taken for no other one where the port waits for it.
ghost use Rattle.cct_model.specs.Setup.{IsSoundSetup};

use crate::account::{Account, Ends};
use crate::day::{Step, run, setup};
use crate::steps::{DAY, ENDS, EXCHANGES, day};
use crate::wire::Late;
use cct_live_port::Options;
use cct_model::Setup;
use std::alloc::Global;
use std::process::Abort;
use std::test::Fail;

/// How `cct_live` uses a line, where it isn't reported otherwise.
const STANDARD: Options = Options {
    echoes: true,
    gap: 0,
    patience: 4,
    longest: 12,
};

/// A device may answer 21 silent reads late, so 22 are waited for.
const PATIENT: Options = Options {
    longest: 22,
    ..STANDARD
};

/// What a day comes to where one reply wasn't heard.
const MISSED: Account = Account { missed: 1, ..DAY };

/// The mask was set once, and it isn't known whether it was taken.
const START_UNSURE: Account = Account {
    ends: Ends {
        started: 1,
        unsure: 1,
        ..ENDS
    },
    ..MISSED
};

/// A device was polled once, and isn't listed.
const ONE_NOT_LISTED: Account = Account {
    ends: Ends { listed: 3, ..ENDS },
    ..MISSED
};

/// No device answered the address poll, so none was polled by itself.
const NONE_LISTED: Account = Account {
    ends: Ends { listed: 0, ..ENDS },
    ..MISSED
};

/// The exchanges of a day in which a hopper says how many coins are left to pay, and is halted
/// before it is asked again.
const BEFORE_A_HALT: [u64; 2] = [38, 39];

/// What comes of a day in which a reply to a message with this header is late, and whether that
/// message is sent again: a row that is sent once goes on without its reply, and any other one is
/// tried again.
fn wanted(options: Options, header: u8, late: Late) -> (Account, bool) {
    match header {
        253 if is_in_time(options.longest, late.by) => (DAY, false),
        253 => (NONE_LISTED, false),
        _ if is_in_time(options.patience, late.by) => (DAY, false),
        254 => (ONE_NOT_LISTED, false),
        231 => (START_UNSURE, false),
        167 => (MISSED, false),
        _ => (MISSED, !BEFORE_A_HALT.contains(&late.exchange)),
    }
}

/// Whether a reply that is late by so many reads is still heard by a port that gives up after so
/// many silent ones. The reply itself takes one.
fn is_in_time(listens: u16, by: u16) -> bool {
    by.saturating_add(2) <= listens
}

/// A day over a line of which one reply is late comes to what it should.
fn is_right_day(
    rt: &impl Abort,
    alloc: Global,
    setup: &Setup,
    steps: &[Step],
    options: Options,
    late: Late,
) -> Result<(), Fail>
    requires { IsSoundSetup setup.now }
{
    let played = run(alloc, setup, steps, options, Some(late))?;
    let account = played.account;
    let Late { exchange, by } = late;
    match played.late_header {
        None => assert!(rt; account == DAY, "exchange {exchange}, by {by}"),
        Some(header) => {
            let (comes, again) = wanted(options, header, late);
            assert!(rt; account == comes, "exchange {exchange}, by {by}");
            assert!(rt;
                account.missed == 0 || played.is_again == again,
                "exchange {exchange}, by {by}: again"
            );
        }
    }
    Ok(())
}

/// Each day of which one reply is late, of each exchange in turn, by so many reads, comes to what
/// it should.
fn are_right_days(
    rt: &impl Abort,
    alloc: Global,
    options: Options,
    late_by: &[u16],
) -> Result<(), Fail> {
    let setup = setup(alloc)?;
    let steps = day(alloc)?;
    for exchange in 0..EXCHANGES {
        for by in late_by {
            let late = Late { exchange, by: *by };
            is_right_day(rt, alloc, &setup, steps.as_slice(), options, late)?;
        }
    }
    Ok(())
}

/// Late by 1 to 20 silent reads.
const BY_UP_TO_20: &[u16] = &[
    1, 2, 3, 4, 5, 6, 7, 8, 9, 10, 11, 12, 13, 14, 15, 16, 17, 18, 19, 20,
];

#[test]
fn a_day_without_a_late_reply(rt: HostRuntime) -> Result<(), Fail> {
    let setup = setup(rt.alloc())?;
    let steps = day(rt.alloc())?;
    for (echoes, gap) in [(true, 0), (true, 1), (false, 0), (false, 1)] {
        let options = Options {
            echoes,
            gap,
            ..STANDARD
        };
        let played = run(rt.alloc(), &setup, steps.as_slice(), options, None)?;
        assert!(rt; played.account == DAY);
        assert_eq!(rt; played.sent, EXCHANGES);
    }
    Ok(())
}

/// Each reply of a day is late in turn, where the port waits for it after a try that failed.
#[test]
fn a_late_reply_changes_nothing(rt: HostRuntime) -> Result<(), Fail> {
    are_right_days(&rt, rt.alloc(), PATIENT, BY_UP_TO_20)
}

/// The same where one read has to be silent before each message.
#[test]
fn a_late_reply_changes_nothing_after_a_gap(rt: HostRuntime) -> Result<(), Fail> {
    are_right_days(&rt, rt.alloc(), Options { gap: 1, ..PATIENT }, BY_UP_TO_20)
}

/// The same where the line gives no echo, by one read, by more than a try listens, and by the most.
#[test]
fn a_late_reply_changes_nothing_without_an_echo(rt: HostRuntime) -> Result<(), Fail> {
    let options = Options {
        echoes: false,
        ..PATIENT
    };
    are_right_days(&rt, rt.alloc(), options, &[1, 6, 20])
}

/// As the program uses a line, a reply may be late by all that it waits for, but for the last two
/// reads: it gives up after the fourth silent read, and sends after the twelfth, those four
/// counted.
#[test]
fn a_late_reply_within_the_wait_changes_nothing(rt: HostRuntime) -> Result<(), Fail> {
    are_right_days(&rt, rt.alloc(), STANDARD, &[1, 4, 10])
}
