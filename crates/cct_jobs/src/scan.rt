//! The scan: all devices are called under each check, and then each address that was noted is
//! polled (ccTalk Generic Specification 4, part 3, headers 253 and 254).
ghost use Rattle.std.specs.Prelude.{[], ◌≡◌, ◌==◌, ◌&&◌, ◌||◌, nat_le, List, ℕ, ◌∷◌, Some};
ghost use Rattle.std.specs.List.{list_any};
ghost use Rattle.cct_model.specs.terms.wire.CheckKind.TheVariants.{Simple, Crc};
ghost use Rattle.cct_model.specs.DeviceSet.{has};
ghost use Rattle.cct_model.specs.Exchange.{after_echo, ask};
ghost use Rattle.cct_model.specs.Line.{Line};
ghost use Rattle.cct_model.specs.Scan.{is_acknowledged, next_due, poll_after, poll_due, poll_of};
ghost use Rattle.cct_model.specs.Transcript.{scan_line};
ghost use Rattle.cct_jobs.specs.Jobs.{asks_at};
ghost use Rattle.cct_jobs.specs.Scans.{CallsCrc, CallsSimple, Lists, Polls, StandsScan};
ghost use Rattle.cct_jobs.specs.Onward.{KeepsTo};

use crate::job::{Job, Sending};
use crate::target::after_failed;
use cct_model::{BROADCAST, CheckKind, DeviceSet, End, Listed, ReplyForm, Request};
use cct_msg::wanted_reply;
use cct_wire::bare_after_echo;

/// The least address that a device may have.
const FIRST_DEVICE: u8 = 2;

/// A poll of an address under a check.
pub(crate) fn poll(kind: CheckKind, addr: u8) -> Sending
    ensures { result ≡ asks_at kind addr }
{
    Sending {
        to: addr,
        kind,
        request: if addr == BROADCAST {
            Request::AddressPoll
        } else {
            Request::SimplePoll
        },
    }
}

/// The scan after it heard what followed its call under the simple check. What follows a good echo
/// is noted.
pub(crate) fn simple_call_heard(failed: u8, sent: &[u8], heard: &[u8]) -> Job
    ensures scan { (since : List Line) → CallsSimple failed since → sent.now ≡ ask Simple 0 (poll_of 0)
        → StandsScan result (scan_line sent.now heard.now ∷ since) }
    ensures keeps { KeepsTo [] result }
{
    match bare_after_echo(sent, heard) {
        Ok(rest) => {
            let mut due = DeviceSet::new();
            note(&mut due, rest);
            Job::ScanCallsCrc { failed: 0, due }
        }
        Err(_) => match after_failed(failed) {
            Some(failed) => Job::ScanCallsSimple { failed },
            None => Job::Done(End::NoAnswer),
        },
    }
}

/// The scan after it heard what followed its call under the CRC.
pub(crate) fn crc_call_heard(failed: u8, mut due: DeviceSet, sent: &[u8], heard: &[u8]) -> Job
    ensures scan { (since : List Line) → CallsCrc failed due since → sent.now ≡ ask Crc 0 (poll_of 0)
        → StandsScan result (scan_line sent.now heard.now ∷ since) }
    ensures keeps { KeepsTo [] result }
{
    match bare_after_echo(sent, heard) {
        Ok(rest) => {
            note(&mut due, rest);
            let listed = Listed {
                simple: DeviceSet::new(),
                crc: DeviceSet::new(),
            };
            next_poll(due, listed)
        }
        Err(_) => match after_failed(failed) {
            Some(failed) => Job::ScanCallsCrc { failed, due },
            None => Job::Done(End::NoAnswer),
        },
    }
}

/// The scan after it heard what followed a poll under the simple check: a device that didn't
/// acknowledge it is polled under the CRC.
pub(crate) fn simple_poll_heard(
    addr: u8,
    mut due: DeviceSet,
    mut listed: Listed,
    sent: &[u8],
    heard: &[u8],
) -> Job
    ensures scan { (since : List Line) → Polls Simple addr due listed since → sent.now ≡ ask Simple addr (poll_of addr)
        → StandsScan result (scan_line sent.now heard.now ∷ since) }
    ensures keeps { KeepsTo [] result }
{
    due.remove(addr);
    if is_acknowledged(CheckKind::Simple, addr, sent, heard) {
        listed.simple.insert(addr);
        next_poll(due, listed)
    } else {
        Job::ScanPollsCrc { addr, due, listed }
    }
}

/// The scan after it heard what followed a poll under the CRC.
pub(crate) fn crc_poll_heard(
    addr: u8,
    due: DeviceSet,
    mut listed: Listed,
    sent: &[u8],
    heard: &[u8],
) -> Job
    ensures scan { (since : List Line) → Polls Crc addr due listed since → sent.now ≡ ask Crc addr (poll_of addr)
        → StandsScan result (scan_line sent.now heard.now ∷ since) }
    ensures keeps { KeepsTo [] result }
{
    if is_acknowledged(CheckKind::Crc, addr, sent, heard) {
        listed.crc.insert(addr);
    }
    next_poll(due, listed)
}

/// Whether the device at an address acknowledged a poll.
#[tactic(auto, unfolding(cct_model_wire::specs::Exchange::got))]
fn is_acknowledged(kind: CheckKind, addr: u8, sent: &[u8], heard: &[u8]) -> bool
    ensures { result ≡ is_acknowledged kind addr (after_echo sent.now heard.now) }
{
    wanted_reply(kind, addr, ReplyForm::Ack, sent, heard).is_some()
}

/// The scan goes on with the least address that is still to be polled, or ends with its list.
#[tactic(auto, using(crate::proofs::Scans::polls_next, crate::proofs::Scans::scan_ends))]
fn next_poll(due: DeviceSet, listed: Listed) -> Job
    ensures scan { (since : List Line) → Lists due listed since → poll_after since ≡ poll_due (next_due since)
        → StandsScan result since }
    ensures keeps { KeepsTo [] result }
{
    match due.first() {
        Some(addr) => Job::ScanPollsSimple { addr, due, listed },
        None => Job::Done(End::Listed(listed)),
    }
}

/// Notes the bytes that a device may have as its address.
fn note(due: &mut DeviceSet, bytes: &[u8])
    ensures { (addr : ℕ) → has due.new addr
        ≡ ((nat_le 2 addr && list_any (λ byte. byte == addr) bytes.now) || has due.old addr) }
{
    for byte in bytes {
        if *byte >= FIRST_DEVICE {
            due.insert(*byte);
        }
    }
}
