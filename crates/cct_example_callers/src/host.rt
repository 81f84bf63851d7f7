//! A host over a line of its own: it starts an acceptor, a coin falls in, and a round posts it.
ghost use Rattle.std.specs.Prelude.{◌≡◌, false, OnOk, IfOk};
ghost use Rattle.cct_model_wire.specs.Setup.{IsSoundSetup};
ghost use Rattle.cct_journal.specs.Journal as journals;
ghost use Rattle.cct_host.specs.Host.{has_failed};

use crate::acceptor;
use arrayvec::ArrayVec;
use cct_acceptor::{Acceptor, Inserted};
use cct_disk::MemDisk;
use cct_host::Host;
use cct_journal::Journal;
use cct_model_lines::{Coin, Command, Devices, End, Entry, MOST_HEARD, MOST_SENT, Record, Setup};
use cct_wire::Link;
use std::alloc::Global;
use std::test::Fail;

/// A serial line, on which everyone hears the bytes that are sent. This one is played in memory: at
/// its other end is one acceptor. A real one has the same two calls.
#[derive(Drop)]
struct Serial<'s> {
    acceptor: Acceptor<'s>,
    /// The bytes that came in and weren't read yet.
    waiting: ArrayVec<u8, MOST_HEARD>,
}

impl Serial<'_> {
    /// Sends bytes. They come back, and so does what the acceptor answers.
    fn send(&mut self, bytes: &[u8]) {
        let mut answer: ArrayVec<u8, MOST_SENT> = ArrayVec::new();
        for byte in bytes {
            self.acceptor.byte(*byte);
        }
        self.acceptor.gap(&mut answer);
        let _ = self.waiting.try_extend_from_slice(bytes);
        let _ = self.waiting.try_extend_from_slice(answer.as_slice());
    }

    /// The bytes that came in until the line was quiet: a real line waits for so long as the
    /// standard says.
    fn receive(&mut self, heard: &mut ArrayVec<u8, MOST_HEARD>) {
        *heard = self.waiting.take();
    }
}

impl Link for Serial<'_> {
    // Nothing is claimed of the line. What the host promises holds whatever is heard.
    ghost gives = { λ _ _ _ _. Unit {0} };

    fn exchange(&mut self, sent: &[u8], heard: &mut ArrayVec<u8, MOST_HEARD>) {
        self.send(sent);
        self.receive(heard);
    }
}

/// The devices of the machine: one acceptor.
fn setup() -> Setup
    ensures { IsSoundSetup result }
{
    let mut devices = Devices::new();
    devices.push(acceptor::setup());
    Setup { devices }
}

/// One attempt of the job at the acceptor. The last entry says what became of it.
fn next(host: &mut Host<'_, MemDisk>, line: &mut Serial<'_>) -> Result<Option<Entry>, Fail>
    requires { has_failed host.old ≡ false }
    ensures { OnOk result (has_failed host.new ≡ false) }
{
    let mut report: ArrayVec<Entry, 8> = ArrayVec::new();
    host.next(2, line, &mut report)?;
    Ok(report.pop())
}

/// A new journal without a record, on a disk each of whose halves has room for three.
fn journal(alloc: Global) -> Result<Journal<MemDisk>, Fail>
    ensures { IfOk result (λ journal. journals.has_failed journal ≡ false) }
{
    match Journal::create(MemDisk::new(alloc, 2496, Vec::new(alloc))?) {
        Ok(journal) => Ok(journal),
        Err((_, why)) => Err(Fail::from(why)),
    }
}

/// The second record of the journal on a disk, if its current half has it.
fn second_record(disk: MemDisk) -> Result<Option<Record>, Fail> {
    let mut journal = match Journal::reopen(disk) {
        Ok((journal, _)) => journal,
        Err((_, why)) => return Err(Fail::from(why)),
    };
    if journal.base() > 1 || journal.used() < 2 {
        return Ok(None);
    }
    Ok(Some(journal.read_at(1)?))
}

#[test]
fn a_coin_is_posted(rt: HostRuntime) -> Result<(), Fail> {
    let alloc = rt.alloc();
    let device = acceptor::setup();
    let mut line = Serial {
        acceptor: Acceptor::new(alloc, &device)?,
        waiting: ArrayVec::new(),
    };
    let setup = setup();
    let mut host = match Host::start(&setup, journal(alloc)?) {
        Ok(host) => host,
        Err((_, why)) => return Err(Fail::from(why)),
    };

    // A start has five rows: three exchanges, the record of the epoch, and the mask. Each `next`
    // makes one attempt of one.
    host.command(&Command::Start {
        addr: 2,
        mask: 0xffff,
    })?;
    next(&mut host, &mut line)?;
    next(&mut host, &mut line)?;
    next(&mut host, &mut line)?;
    next(&mut host, &mut line)?;
    let Some(
        Entry::Ended {
            end: End::Started,
            ..
        },
    ) = next(&mut host, &mut line)?
    else {
        panic!(rt; "the acceptor is started");
    };

    // A coin falls in while no exchange is made. A round reads the credits and the mask, before and
    // after them the number of coins that were accepted, and puts what it read.
    assert_eq!(rt;
        line.acceptor.insert(5),
        Inserted::Accepted(Coin { place: 5, path: 1 })
    );
    host.command(&Command::Round { addr: 2 })?;
    next(&mut host, &mut line)?;
    next(&mut host, &mut line)?;
    next(&mut host, &mut line)?;
    next(&mut host, &mut line)?;
    next(&mut host, &mut line)?;
    assert_eq!(rt; host.totals().available, 100);

    // The disk comes back, and whoever opens the journal finds both records.
    let Some(Record::Reading { addr: 2, .. }) = second_record(host.into_disk())? else {
        panic!(rt; "the second record is the reading");
    };
    Ok(())
}
