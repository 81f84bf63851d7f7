//! A benchmark for people: goes over frames in memory so many times, and prints the sum of the
//! answers.
//!
//! Its three words are what each pass does (`none`, `crc16`, `simple` or `crc`), the number of data
//! bytes of a frame, and the number of passes. With `credits` in the place of the first, a pass is
//! an acceptor that hears the request for its credits and answers it; the number of data bytes is
//! then not used.
//!
//! Nor is it with one of the words on records. With `tallies` a tally goes over a record each pass.
//! With `puts` a new journal on a disk in memory takes it too; `turns` does the same on the least
//! disk, on which each put but the first begins with a turn; `reopened` does as `puts`, and then
//! opens that journal again. What is printed is how many records there are at the end, and how many
//! reads, writes and syncs the disk was given.
//!
//! Other words end it with exit status 2, and want of memory ends it with 3.
#![tactic(auto)]

ghost use Rattle.std.specs.Prelude.{◌≤◌, length};
ghost use Rattle.cct_model_wire.specs.Device.{IsAcceptor, IsSound, IsSoundBody, IsWord};

mod disk;
mod keeping;

use crate::keeping::{Keeping, keep};
use arrayvec::ArrayVec;
use cct_acceptor::Acceptor;
use cct_check::crc16;
use cct_frame::{read, write};
use cct_model_wire::{
    COIN_PLACES, CheckKind, DeviceBody, DeviceSetup, HOST, MOST_SENT, Name, Texts,
};
use std::alloc::{AllocError, Global};
use std::process::ExitCode;
use std::rt::Env;
use std::{env, io};

/// How many passes over frames with so many data bytes, and what each does.
#[derive(Clone, Copy)]
struct Task {
    work: Work,
    data: u8,
    passes: u32,
}

/// What a pass does.
#[derive(Clone, Copy)]
enum Work {
    /// Looks at a frame.
    Frame(Look),
    /// An acceptor hears the request for its credits, and answers.
    Credits,
    /// Keeps a record.
    Record(Keeping),
}

/// What a pass does with its frame.
#[derive(Clone, Copy)]
enum Look {
    /// Takes its length alone.
    Nothing,
    /// Takes the CRC of all its bytes.
    Crc16,
    /// Reads the message that it is under this check.
    Read(CheckKind),
}

/// The data bytes of the longest frame. A shorter one has a front of them.
static DATA: [u8; 255] = [0x55; 255];

fn main(rt: HostRuntime) -> io::Result<ExitCode> {
    let Some(task) = asked(&rt) else {
        return Ok(ExitCode::from(2));
    };
    match task.work {
        Work::Frame(look) => println!(rt; "{}", readings(look, task.data, task.passes))?,
        Work::Credits => {
            let Ok(sum) = exchanges(rt.alloc(), task.passes) else {
                return Ok(ExitCode::from(3));
            };
            println!(rt; "{sum}")?;
        }
        Work::Record(keeping) => {
            let Ok(kept) = keep(rt.alloc(), keeping, task.passes) else {
                return Ok(ExitCode::from(3));
            };
            let calls = kept.calls;
            println!(rt;
                "{} {} {} {}",
                kept.records, calls.reads, calls.writes, calls.syncs
            )?;
        }
    }
    Ok(ExitCode::SUCCESS)
}

/// The task that the words of the command line give.
fn asked(rt: &(impl Env + AllocGlobal)) -> Option<Task> {
    let words: Vec<String> = env::args(rt).ok()?.skip(1).collect(rt.alloc()).ok()?;
    let [work, data, passes] = words.as_slice() else {
        return None;
    };
    let work = match work.as_str() {
        "none" => Work::Frame(Look::Nothing),
        "crc16" => Work::Frame(Look::Crc16),
        "simple" => Work::Frame(Look::Read(CheckKind::Simple)),
        "crc" => Work::Frame(Look::Read(CheckKind::Crc)),
        "credits" => Work::Credits,
        "tallies" => Work::Record(Keeping::Tallies),
        "puts" => Work::Record(Keeping::Puts),
        "turns" => Work::Record(Keeping::Turns),
        "reopened" => Work::Record(Keeping::Reopened),
        _ => return None,
    };
    Some(Task {
        work,
        data: data.parse().ok()?,
        passes: passes.parse().ok()?,
    })
}

/// The lengths of all answers of an acceptor to requests for its credits, added up. The sum so far
/// decides which of two askers is the next.
fn exchanges(alloc: Global, passes: u32) -> Result<u64, AllocError> {
    let setup = acceptor();
    let mut acceptor = Acceptor::new(alloc, &setup)?;
    let first = request(HOST);
    let second = request(3);
    let frames = [first.as_slice(), second.as_slice()];
    let mut answer = ArrayVec::new();
    let mut sum: u64 = 0;
    for _pass in 0..passes {
        acceptor.hear(frames[sum as usize % 2], &mut answer);
        sum = sum.wrapping_add(answer.len() as u64);
    }
    Ok(sum)
}

/// The request of an address for the credits of device 2.
fn request(from: u8) -> ArrayVec<u8, MOST_SENT> {
    let mut out = ArrayVec::new();
    write(CheckKind::Simple, 2, from, 229, &[], &mut out);
    out
}

/// A coin acceptor at address 2.
pub(crate) fn acceptor() -> DeviceSetup
    ensures sound { IsSound result }
    ensures acceptor { IsAcceptor result.body }
{
    DeviceSetup {
        addr: 2,
        kind: CheckKind::Simple,
        serial: 1,
        texts: Texts {
            maker: name(),
            product: name(),
            software: name(),
            build: name(),
        },
        named: true,
        body: body(),
    }
}

/// Sixteen like coins.
fn body() -> DeviceBody
    ensures sound { IsSoundBody result }
    ensures acceptor { IsAcceptor result }
{
    DeviceBody::Acceptor {
        accepts: 0,
        values: [50; COIN_PLACES],
        ids: [[b'5'; 6]; COIN_PLACES],
    }
}

/// A text of one character.
fn name() -> Name
    ensures { IsWord result }
{
    let mut name = Name::new();
    name.push(b'1');
    name
}

/// The sum of the answers of all passes over frames. The sum so far says which of two frames is the
/// next, so no pass can be left out or taken for another.
fn readings(look: Look, data: u8, passes: u32) -> u64 {
    let body = &DATA[..data as usize];
    let first = frame(look, 2, body);
    let second = frame(look, 3, body);
    let frames = [first.as_slice(), second.as_slice()];
    let mut sum: u64 = 0;
    for _ in 0..passes {
        sum = sum.wrapping_add(answer(look, frames[sum as usize % 2]));
    }
    sum
}

/// A message from an address to the host, under the check by which it is read.
fn frame(look: Look, from: u8, body: &[u8]) -> ArrayVec<u8, MOST_SENT>
    requires { length body.now ≤ 255 }
{
    let kind = match look {
        Look::Read(kind) => kind,
        Look::Nothing | Look::Crc16 => CheckKind::Simple,
    };
    let mut out = ArrayVec::new();
    write(kind, HOST, from, 0, body, &mut out);
    out
}

/// The length of a frame, its CRC, or the header and the number of data bytes of the message that
/// it is, added up.
fn answer(look: Look, frame: &[u8]) -> u64 {
    match look {
        Look::Nothing => frame.len() as u64,
        Look::Crc16 => crc16(frame) as u64,
        Look::Read(kind) => match read(kind, frame) {
            Ok(view) => view.header as u64 + view.body.len() as u64,
            Err(_) => 0,
        },
    }
}
