//! What a host does over such a line, and what came of it.
ghost use Rattle.std.specs.Prelude.{◌≡◌, false, IfOk, OnOk};
ghost use Rattle.cct_model.specs.Setup.{IsSoundSetup};
ghost use Rattle.cct_host.specs.Host.{has_failed};

use crate::account::{Account, raise};
use crate::wire::{HostEnd, Late, Wire};
use arrayvec::ArrayVec;
use cct_disk::MemDisk;
use cct_edge::MemSource;
use cct_host::Host;
use cct_journal::Journal;
use cct_live_port::{Options, Port};
use cct_model::{Command, Setup};
use cct_script::read_setup;
use std::alloc::Global;
use std::cell::RefCell;
use std::test::Fail;

/// What is done, step by step.
#[derive(Clone, Copy)]
pub(crate) enum Step {
    /// The operator gives a command.
    Give(Command),
    /// The hopper at an address is to pay an order with this id, of so many coins.
    Pay(u8, u32, u8),
    /// The jobs at two addresses make so many attempts each, by turns.
    Turns(u8, u8, u8),
    /// A coin falls into the acceptor at an address.
    Coin(u8),
    /// So many coins fall out of the hopper at an address, or as many as it was still to pay, for
    /// the order with an id.
    Falls(u8, u32, u8),
    /// The power of the host is cut between two puts, and it starts again.
    Restart,
}

/// Acceptors at 2 and 5, and hoppers at 3 and 4, all under the CRC, each with other texts.
const SETUP: &[u8] = b"\
acceptor 2 crc 1 0
value 2 1 100 EU100A
texts 2 A A A A
hopper 3 crc 1 0 10
texts 3 B B B B
hopper 4 crc 1 0 10
texts 4 C C C C
acceptor 5 crc 1 0
value 5 1 100 EU100A
texts 5 D D D D
begin
";

/// The devices of a day.
pub(crate) fn setup(alloc: Global) -> Result<Setup, Fail>
    ensures { IfOk result IsSoundSetup }
{
    let mut lines = MemSource::new(SETUP.to_vec(alloc)?, 100, Vec::new(alloc));
    match read_setup(&mut lines) {
        Ok(setup) => Ok(setup),
        Err(_) => Err(Fail::from("the setup is refused")),
    }
}

/// What came of a day over a line of which one reply is late.
#[derive(Clone, Copy)]
pub(crate) struct Played {
    pub(crate) account: Account,
    /// How many messages were sent.
    pub(crate) sent: u64,
    /// The header of the message whose reply is late, if it had one.
    pub(crate) late_header: Option<u8>,
    /// Whether the next message to its device was the same.
    pub(crate) is_again: bool,
}

/// What came of these steps. A new journal is on a disk of 4,096 bytes.
pub(crate) fn run(
    alloc: Global,
    setup: &Setup,
    steps: &[Step],
    options: Options,
    late: Option<Late>,
) -> Result<Played, Fail>
    requires { IsSoundSetup setup.now }
{
    let wire = RefCell::new(Wire::new(alloc, setup, late, options.echoes)?);
    let mut port = Port::new(HostEnd { wire: &wire }, options);
    let mut host = started(alloc, setup)?;
    let mut account = Account::NONE;
    for step in steps {
        act(&mut host, &mut port, &wire, &mut account, *step)?;
    }
    account.available = host.totals().available;
    account.reserved = host.totals().reserved;
    let wire = wire.into_inner();
    Ok(Played {
        account,
        sent: wire.sent(),
        late_header: wire.late_header(),
        is_again: wire.is_again(),
    })
}

/// A host over a new journal.
fn started(alloc: Global, setup: &Setup) -> Result<Host<'_, MemDisk>, Fail>
    requires { IsSoundSetup setup.now }
    ensures { IfOk result (λ host. has_failed host ≡ false) }
{
    let journal = match Journal::create(MemDisk::new(alloc, 4096, Vec::new(alloc))?) {
        Ok(journal) => journal,
        Err((_, why)) => return Err(Fail::from(why)),
    };
    match Host::start(setup, journal) {
        Ok(host) => Ok(host),
        Err((_, why)) => Err(Fail::from(why)),
    }
}

/// One step is done.
fn act(
    host: &mut Host<'_, MemDisk>,
    port: &mut Port<HostEnd<'_, '_>>,
    wire: &RefCell<Wire<'_>>,
    account: &mut Account,
    step: Step,
) -> Result<(), Fail>
    requires { has_failed host.old ≡ false }
    ensures { OnOk result (has_failed host.new ≡ false) }
{
    match step {
        Step::Give(command) => {
            give(host, account, &command);
            Ok(())
        }
        Step::Pay(addr, id, count) => {
            give(host, account, &Command::Pay { addr, id, count });
            Ok(())
        }
        Step::Turns(first, second, turns) => {
            take_turns(host, port, wire, account, first, second, turns)
        }
        Step::Coin(addr) => {
            if wire.try_borrow_mut()?.coin(addr) {
                account.accepted.add(addr, 1);
            }
            Ok(())
        }
        Step::Falls(addr, id, count) => fall(wire, account, addr, id, count),
        Step::Restart => {
            host.restart(None, 0)?;
            Ok(())
        }
    }
}

/// The operator gives a command.
fn give(host: &mut Host<'_, MemDisk>, account: &mut Account, command: &Command)
    requires { has_failed host.old ≡ false }
    ensures { has_failed host.new ≡ false }
{
    if host.command(command).is_err() {
        raise(&mut account.refused);
    }
}

/// The jobs at two addresses make so many attempts each, by turns.
fn take_turns(
    host: &mut Host<'_, MemDisk>,
    port: &mut Port<HostEnd<'_, '_>>,
    wire: &RefCell<Wire<'_>>,
    account: &mut Account,
    first: u8,
    second: u8,
    turns: u8,
) -> Result<(), Fail>
    requires { has_failed host.old ≡ false }
    ensures { OnOk result (has_failed host.new ≡ false) }
{
    for _ in 0..turns {
        next(host, first, port, wire, account)?;
        next(host, second, port, wire, account)?;
    }
    Ok(())
}

/// One attempt of the job at an address, whose entries count.
fn next(
    host: &mut Host<'_, MemDisk>,
    addr: u8,
    port: &mut Port<HostEnd<'_, '_>>,
    wire: &RefCell<Wire<'_>>,
    account: &mut Account,
) -> Result<(), Fail>
    requires { has_failed host.old ≡ false }
    ensures { OnOk result (has_failed host.new ≡ false) }
{
    let mut report = ArrayVec::new();
    host.next(addr, port, &mut report)?;
    let wire = wire.try_borrow()?;
    for entry in report.as_slice() {
        account.add(&wire, entry);
    }
    Ok(())
}

/// So many coins fall out of the hopper at an address, if that is paying.
fn fall(
    wire: &RefCell<Wire<'_>>,
    account: &mut Account,
    addr: u8,
    id: u32,
    count: u8,
) -> Result<(), Fail> {
    let mut wire = wire.try_borrow_mut()?;
    let wire = &mut *wire;
    for _ in 0..count {
        if wire.fall(addr) {
            account.fallen.add(id, 1);
        }
    }
    Ok(())
}
