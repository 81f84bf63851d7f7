//! What an exchange shows.
ghost use Rattle.std.specs.Prelude.{◌≡◌, [], MatchOption, Some, None, false, true};
ghost use Rattle.cct_frame.specs.Frame.{message_of};
ghost use Rattle.cct_model_wire.specs.Exchange.{after_echo, is_from};
ghost use Rattle.cct_probe_plan.specs.Judging.{BreaksNone, IsOfEach, IsTried, NamesTried};
ghost use Rattle.cct_probe_plan.specs.Judging.{answer_in, counter_before, counter_unless};
ghost use Rattle.cct_probe_plan.specs.Judging.{first_part, has_none, is_again, is_once, unechoed};
ghost use Rattle.cct_probe_plan.specs.Judging.{is_refused, judged, kept_after};
ghost use Rattle.cct_probe_plan.specs.Judging.{kept_judged, malformed, numbers_of, other_part};
ghost use Rattle.cct_probe_plan.specs.Judging.{refusal_shows, reply_after, reply_keeps};
ghost use Rattle.cct_probe_plan.specs.Judging.{reply_shows, right_if, shown_as, shown_by, single};
ghost use Rattle.cct_probe_plan.specs.Judging.{told_shows, untold};
ghost use Rattle.cct_probe_plan.specs.declared.premise.Premise.{Premise};

use crate::memory::{Memory, cut};
use crate::plan::{Expected, Told, Want};
use crate::premise::{Common, Premise};
use crate::round::{Turn, place_of};
use crate::values::{Fits, counter_in, fit_of, id_at};
use cct_frame::{FrameView, read};
use cct_model_lines::{DeviceSetup, HOST};
use cct_wire::bare_after_echo;

/// What an exchange shows.
#[derive(Clone, Copy)]
pub enum Shown {
    /// What had to come came.
    Right,
    /// No byte came, where an answer is wanted. If none comes late either, this premise is broken.
    Silence(Premise),
    /// No byte came, where none need come. If none comes late either, nothing is shown.
    Untold,
    /// It was refused, so nothing is shown.
    Refused,
    /// A premise is broken.
    Broken(Premise),
}

/// The premise of the form of a reply is broken.
const MALFORMED: Shown = Shown::Broken(Premise::Common(Common::Form));

/// What an exchange shows, by what had to come.
pub fn judge(want: Want, turn: Turn<'_>, memory: &mut Memory, sent: &[u8], heard: &[u8]) -> Shown
    // What is right, what is refused and what shows a premise broken.
    ensures shown { result ≡ judged turn.entry.device.now turn.entry.round turn.entry.premise
        memory.old want heard.now (after_echo sent.now heard.now) }
    // What is kept of the device.
    ensures numbers { numbers_of memory.new ≡ numbers_of (kept_judged turn.entry.device.now
        turn.entry.round turn.entry.premise memory.old want (after_echo sent.now heard.now)) }
    ensures reply { memory.new.reply.items
        ≡ reply_after sent.now (after_echo sent.now heard.now) memory.old.reply.items }
    // Where nothing but the echo is heard no premise is shown broken.
    ensures none { after_echo sent.now heard.now ≡ Some [] → BreaksNone result }
    // What is shown broken is what is tried, or what any exchange may show.
    ensures names { NamesTried turn.entry.premise result }
{
    let rest = match bare_after_echo(sent, heard) {
        Ok(rest) => rest,
        Err(_) => return unechoed(heard),
    };
    let shown = shown_by(want, turn, memory, rest);
    if !sent.is_empty() {
        memory.keep_reply(rest);
    }
    shown
}

/// What it shows that bytes don't begin with what was sent. Where none came at all nobody answered,
/// and the line is dead too, since not even the echo came.
fn unechoed(heard: &[u8]) -> Shown
    ensures shown { result ≡ unechoed heard.now }
    ensures names { (tried : Premise) → NamesTried tried result }
{
    if heard.is_empty() {
        Shown::Silence(Premise::Common(Common::Answers))
    } else {
        MALFORMED
    }
}

/// The event counter that an exchange gave, if so many events more than those kept didn't come yet.
pub fn counter_before(
    more: u16,
    turn: Turn<'_>,
    memory: &Memory,
    sent: &[u8],
    heard: &[u8],
) -> Option<u8>
    ensures { result ≡ counter_before more turn.entry.device.now turn.entry.premise memory.now
        (after_echo sent.now heard.now) }
{
    let rest = match bare_after_echo(sent, heard) {
        Ok(rest) => rest,
        Err(_) => return None,
    };
    match message_in(turn.device, single(turn.premise, rest)) {
        Some(message) if message.header == 0 => {
            counter_unless(memory.awaited(more), counter_in(message.body))
        }
        Some(_) => None,
        None => None,
    }
}

/// A counter, if there is one, unless it is this one.
fn counter_unless(awaited: u8, told: Option<u8>) -> Option<u8>
    ensures { result ≡ counter_unless awaited told }
{
    match told {
        Some(counter) if counter == awaited => None,
        told => told,
    }
}

/// What the bytes after the echo show.
fn shown_by(want: Want, turn: Turn<'_>, memory: &mut Memory, rest: &[u8]) -> Shown
    ensures shown { result ≡ shown_by turn.entry.device.now turn.entry.round turn.entry.premise
        memory.old want rest.now }
    ensures kept { memory.new ≡ kept_after turn.entry.device.now turn.entry.round turn.entry.premise
        memory.old want rest.now }
    ensures reply { memory.new.reply.items ≡ memory.old.reply.items }
    ensures none { rest.now ≡ [] → BreaksNone result }
    ensures names { NamesTried turn.entry.premise result }
{
    match want {
        Want::Silence => right_if(rest.is_empty(), turn.premise),
        Want::Refusal => refusal(turn, rest),
        Want::NotAgain => right_if(!is_again(memory, rest), Premise::Common(Common::Once)),
        Want::NobodyElse => right_if(
            rest.is_empty() || is_again(memory, rest),
            Premise::Common(Common::Alone),
        ),
        Want::Reply(expected) => reply(expected, turn, memory, rest),
        Want::IfTold(told) => reply_told(told, turn, memory, rest),
        Want::Well if rest.is_empty() => Shown::Silence(turn.premise),
        Want::Well => reply(Expected::Ack, turn, memory, rest),
        Want::Taken if is_refused(turn, rest) => Shown::Refused,
        Want::Taken => reply(Expected::Ack, turn, memory, rest),
    }
}

/// A reply has to come that shows this, unless the device need not know the question.
fn reply_told(told: Told, turn: Turn<'_>, memory: &mut Memory, rest: &[u8]) -> Shown
    ensures shown { result ≡ told_shows turn.entry.device.now turn.entry.round turn.entry.premise
        memory.old told rest.now }
    ensures kept { memory.new ≡ memory.old }
    ensures none { rest.now ≡ [] → BreaksNone result }
    ensures names { NamesTried turn.entry.premise result }
{
    if rest.is_empty() {
        untold(told, turn, Shown::Untold)
    } else if is_refused(turn, rest) {
        untold(told, turn, Shown::Refused)
    } else {
        reply(Expected::Said(told), turn, memory, rest)
    }
}

/// What it shows that this isn't reported: right, if the setup has no bill of that place.
fn untold(told: Told, turn: Turn<'_>, shown: Shown) -> Shown
    ensures shown { result ≡ untold turn.entry.device.now turn.entry.round told shown }
    ensures none { BreaksNone shown → BreaksNone result }
    ensures names { (tried : Premise) → NamesTried tried shown → NamesTried tried result }
{
    if has_none(told, turn) {
        Shown::Right
    } else {
        shown
    }
}

/// Whether the setup has no bill of the place of a round, where that is asked.
fn has_none(told: Told, turn: Turn<'_>) -> bool
    ensures { result ≡ has_none turn.entry.device.now turn.entry.round told }
{
    match told {
        Told::Bill => id_at(&turn.device.body, place_of(turn.round)).is_none(),
        Told::Serial => false,
        Told::Category => false,
        Told::Coin => false,
        Told::Bit => false,
    }
}

/// Right, or a premise is broken.
fn right_if(is_right: bool, premise: Premise) -> Shown
    ensures shown { result ≡ right_if is_right premise }
    ensures none { is_right ≡ true → BreaksNone result }
    ensures names { (tried : Premise) → IsTried tried premise → NamesTried tried result }
{
    if is_right {
        Shown::Right
    } else {
        Shown::Broken(premise)
    }
}

/// Whether bytes are those that came last.
fn is_again(memory: &Memory, rest: &[u8]) -> bool
    ensures again { result ≡ is_again memory.now rest.now }
    ensures none { rest.now ≡ [] → result ≡ false }
{
    !rest.is_empty() && rest == memory.reply.as_slice()
}

/// No reply may come; nothing, or a message with another header, may.
fn refusal(turn: Turn<'_>, rest: &[u8]) -> Shown
    ensures shown { result ≡ refusal_shows turn.entry.device.now turn.entry.premise rest.now }
    ensures none { rest.now ≡ [] → BreaksNone result }
    ensures names { NamesTried turn.entry.premise result }
{
    if rest.is_empty() {
        return Shown::Right;
    }
    match message_in(turn.device, single(turn.premise, rest)) {
        Some(message) => right_if(message.header != 0, turn.premise),
        None => Shown::Broken(malformed(turn.device, rest)),
    }
}

/// A reply has to come.
fn reply(expected: Expected, turn: Turn<'_>, memory: &mut Memory, rest: &[u8]) -> Shown
    ensures shown { result ≡ reply_shows turn.entry.device.now turn.entry.round turn.entry.premise
        memory.old expected rest.now }
    ensures kept { memory.new ≡ reply_keeps turn.entry.device.now turn.entry.premise memory.old
        expected rest.now }
    ensures reply { memory.new.reply.items ≡ memory.old.reply.items }
    ensures none { rest.now ≡ [] → BreaksNone result }
    ensures names { NamesTried turn.entry.premise result }
{
    if rest.is_empty() {
        return Shown::Silence(Premise::Common(Common::Answers));
    }
    match message_in(turn.device, single(turn.premise, rest)) {
        Some(message) if message.header == 0 => {
            shown_as(turn.premise, fit_of(expected, turn, memory, message.body))
        }
        Some(_) => MALFORMED,
        None => Shown::Broken(malformed(turn.device, rest)),
    }
}

/// What data show by what they are against what is expected.
fn shown_as(tried: Premise, fits: Fits) -> Shown
    ensures shown { result ≡ shown_as tried fits }
    ensures names { NamesTried tried result }
{
    match fits {
        Fits::Yes => Shown::Right,
        Fits::Others => Shown::Broken(tried),
        Fits::Form => MALFORMED,
    }
}

/// Whether bytes are a message with another header than 0.
fn is_refused(turn: Turn<'_>, rest: &[u8]) -> bool
    ensures { result ≡ is_refused turn.entry.device.now turn.entry.premise rest.now }
{
    match message_in(turn.device, single(turn.premise, rest)) {
        Some(message) => message.header != 0,
        None => false,
    }
}

/// One of two equal messages, which may be a reply that comes twice or those of two devices: one
/// trial finds out which. Else all bytes.
fn single(tried: Premise, rest: &[u8]) -> &[u8]
    ensures { result.now ≡ single tried rest.now }
{
    let (first, second) = halves(rest);
    if first == second && !is_once(tried) {
        first
    } else {
        rest
    }
}

/// Whether a premise is that a reply comes once.
fn is_once(premise: Premise) -> bool
    ensures { result ≡ is_once premise }
{
    match premise {
        Premise::Common(Common::Once) => true,
        Premise::Common(_) => false,
        Premise::Line(_) => false,
        Premise::Taker(_) => false,
        Premise::Hopper(_) => false,
    }
}

/// Which premise is broken where bytes aren't one message. Once more the same message is a reply
/// that comes twice, and another one is that of another device.
fn malformed(device: &DeviceSetup, rest: &[u8]) -> Premise
    ensures is { result ≡ malformed device.now rest.now }
    ensures of_each { IsOfEach result }
{
    let (first, second) = halves(rest);
    if message_in(device, first).is_none() || message_in(device, second).is_none() {
        Premise::Common(Common::Form)
    } else if first == second {
        Premise::Common(Common::Once)
    } else {
        Premise::Common(Common::Alone)
    }
}

/// As many bytes as the first message of these says that it has, and the others.
fn halves(bytes: &[u8]) -> (&[u8], &[u8])
    ensures first { result.0.now ≡ first_part bytes.now }
    ensures other { result.1.now ≡ other_part bytes.now }
{
    match bytes {
        [_, many, ..] => cut(bytes, usize::from(*many) + 5),
        _ => (bytes, &[]),
    }
}

/// The message to the host from the device that bytes are, under its check.
fn message_in<'h>(device: &DeviceSetup, rest: &'h [u8]) -> Option<FrameView<'h>>
    ensures { MatchOption result (answer_in device.now rest.now ≡ None)
        (λ view. answer_in device.now rest.now ≡ Some (message_of view)) }
{
    match read(device.kind, rest) {
        Ok(message) if message.to == HOST && is_from(device.addr, &message) => Some(message),
        _ => None,
    }
}

/// Whether a message comes from an address, or from nobody named.
fn is_from(addr: u8, message: &FrameView<'_>) -> bool
    ensures { result ≡ is_from addr message.now.from }
{
    match message.from {
        Some(source) => source == addr,
        None => true,
    }
}
