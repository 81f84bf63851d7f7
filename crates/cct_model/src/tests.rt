//! The tests of each command, in their order, and how many records it wants room for.
ghost use Rattle.std.specs.Prelude.{◌≡◌, Option, is_some};
ghost use Rattle.cct_model.specs.terms.device.DeviceSetup.{DeviceSetup};
ghost use Rattle.cct_model.specs.Refusal.{listed, need_for, room_tests, state_tests};

use cct_model_lines::Command;

/// What has to hold that a command isn't refused.
#[derive(Clone, Copy, PartialEq, Eq)]
pub enum Test {
    /// A device is at the address.
    AtADevice,
    /// It takes money.
    AtATaker,
    /// It is a coin acceptor.
    AtAnAcceptor,
    /// It is a bill acceptor.
    AtABillAcceptor,
    /// It is a hopper.
    AtAHopper,
    /// No job is there.
    WithNoJob,
    /// No epoch runs.
    WithNoEpoch,
    /// An epoch runs.
    WithAnEpoch,
    /// Each place of this mask has a value.
    WithValues { mask: u16 },
    /// No order is open.
    WithNoOrder,
    /// An order is open.
    WithAnOrder,
    /// There is a payout that could be stopped.
    WithAPayout,
    /// This id is new.
    WithNewId { id: u32 },
    /// The value of so many coins of this hopper is available.
    WithCoins { addr: u8, count: u8 },
    /// This price is available.
    WithPrice { price: u32 },
    /// There is room for its records.
    WithRoom,
}

/// The tests of a command's state, in their order.
pub fn state_tests(command: &Command) -> [Option<Test>; 5]
    ensures { listed result ≡ state_tests command.now }
{
    let here = Some(Test::AtADevice);
    let taker = Some(Test::AtATaker);
    let acceptor = Some(Test::AtAnAcceptor);
    let bills = Some(Test::AtABillAcceptor);
    let hopper = Some(Test::AtAHopper);
    let free = Some(Test::WithNoJob);
    let idle = Some(Test::WithNoEpoch);
    let runs = Some(Test::WithAnEpoch);
    let none = None;
    match *command {
        Command::Start { mask, .. } => [here, taker, free, idle, Some(Test::WithValues { mask })],
        Command::Round { .. } => [here, taker, free, runs, none],
        Command::Stop { .. } => [here, taker, free, runs, none],
        Command::Pay { id, .. } => [
            here,
            hopper,
            free,
            Some(Test::WithNoOrder),
            Some(Test::WithNewId { id }),
        ],
        Command::Settle { .. } => [here, hopper, free, Some(Test::WithAnOrder), none],
        Command::Halt { .. } => [here, hopper, Some(Test::WithAPayout), none, none],
        Command::Scan => [free, none, none, none, none],
        Command::Ident { .. } => [here, free, none, none, none],
        Command::Path { .. } => [here, acceptor, free, none, none],
        Command::Route { .. } => [here, bills, free, runs, none],
        Command::Vend { id, .. } => [free, Some(Test::WithNewId { id }), none, none, none],
    }
}

/// The tests of a command's money and room, in their order: they come after those of its state.
pub fn room_tests(command: &Command) -> [Option<Test>; 2]
    ensures { listed result ≡ room_tests command.now }
{
    let room = Some(Test::WithRoom);
    match *command {
        Command::Start { .. } => [room, None],
        Command::Round { .. } => [room, None],
        Command::Stop { .. } => [room, None],
        Command::Pay { addr, count, .. } => [Some(Test::WithCoins { addr, count }), room],
        Command::Settle { .. } => [room, None],
        Command::Vend { price, .. } => [Some(Test::WithPrice { price }), room],
        _ => [None, None],
    }
}

/// How many records a command wants room for, given whether a device is at its address.
pub fn need_of(command: &Command, is_there: bool) -> u32
    ensures { (found : Option DeviceSetup) → is_some found ≡ is_there → result
        ≡ need_for found command.now }
{
    match command {
        Command::Start { .. } if is_there => 1,
        Command::Round { .. } if is_there => 1,
        Command::Stop { .. } if is_there => 2,
        Command::Pay { .. } if is_there => 2,
        Command::Vend { .. } => 1,
        _ => 0,
    }
}
