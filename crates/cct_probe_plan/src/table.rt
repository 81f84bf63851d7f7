//! The plan: one table of trials. Each names the premise that it serves; which definition that is
//! is at the premise.

use crate::plan::{
    Act, Ask, Counted, Expected, Need, Newest, Odd, Part, Say, Step, Told, Trial, Want, Who,
};
use crate::premise::{Common, OfHopper, OfLine, OfTaker, Premise};

macro_rules! step {
    ($say:expr, $want:expr) => {
        Step::Asks { say: $say, want: $want }
    };
}

macro_rules! asks {
    ($say:expr, $expected:expr) => {
        Step::Asks { say: $say, want: Want::Reply($expected) }
    };
}

macro_rules! plain {
    ($header:expr) => {
        Say::Ask(Ask::Plain { header: $header })
    };
}

macro_rules! one {
    ($header:expr, $data:expr) => {
        Say::Ask(Ask::One { header: $header, data: $data })
    };
}

macro_rules! two {
    ($header:expr, $first:expr, $second:expr) => {
        Say::Ask(Ask::Two { header: $header, first: $first, second: $second })
    };
}

macro_rules! dispense {
    ($coins:expr, $is_own:expr) => {
        Say::Ask(Ask::Dispense { coins: $coins, is_own: $is_own })
    };
}

macro_rules! count {
    ($header:expr, $counted:expr) => {
        asks!(plain!($header), Expected::Count($counted))
    };
}

macro_rules! events {
    ($more:expr, $newest:expr) => {
        asks!(Say::Ask(Ask::Credits), Expected::Events { more: $more, newest: $newest })
    };
}

macro_rules! trial {
    ($name:expr, $part:expr, $who:expr, $premise:expr, $need:expr, $rounds:expr, $steps:expr) => {
        Trial { name: $name, part: $part, who: $who, premise: $premise, need: $need, rounds: $rounds, steps: $steps }
    };
}

macro_rules! common {
    ($name:expr, $premise:expr, $rounds:expr, $steps:expr) => {
        trial!($name, Part::Device, Who::All, Premise::Common($premise), Need::Nothing, $rounds, $steps)
    };
}

macro_rules! by_hand {
    ($name:expr, $who:expr, $premise:expr, $need:expr, $steps:expr) => {
        trial!($name, Part::Device, $who, Premise::Taker($premise), $need, 1, $steps)
    };
}

macro_rules! taker {
    ($name:expr, $premise:expr, $steps:expr) => {
        by_hand!($name, Who::Takers, $premise, Need::Nothing, $steps)
    };
}

macro_rules! hopper {
    ($name:expr, $premise:expr, $need:expr, $steps:expr) => {
        trial!($name, Part::Device, Who::Hoppers, Premise::Hopper($premise), $need, 1, $steps)
    };
}

macro_rules! closing {
    ($part:expr, $who:expr, $steps:expr) => {
        trial!(b"close", $part, $who, Premise::Common(Common::Answers), Need::Nothing, 1, $steps)
    };
}

macro_rules! line {
    ($name:expr, $premise:expr, $rounds:expr, $steps:expr) => {
        trial!($name, Part::Line, Who::All, Premise::Line($premise), Need::Nothing, $rounds, $steps)
    };
}

const POLL: Step = asks!(Say::Ask(Ask::Plain { header: 254 }), Expected::Ack);

const WELL: Step = step!(Say::Ask(Ask::Plain { header: 254 }), Want::Well);

const RESET: Step = asks!(Say::Ask(Ask::Plain { header: 1 }), Expected::Ack);

const CLOSE_MASK: Step = asks!(two!(231, 0, 0), Expected::Ack);

const ALL_MASK: Step = asks!(two!(231, 255, 255), Expected::Ack);

const PLACE_MASK: Step = asks!(Say::Ask(Ask::Place), Expected::Ack);

const MASTER_OFF: Step = asks!(one!(228, 0), Expected::Ack);

const MASTER_ON: Step = asks!(one!(228, 1), Expected::Ack);

const KEEP_EVENTS: Step = asks!(Say::Ask(Ask::Credits), Expected::Keeps);

const NO_EVENTS: Step = asks!(Say::Ask(Ask::Credits), Expected::Zeros(11));

const KEEP_ACCEPTS: Step = count!(225, Counted::Keeps);

const KEEP_LIFE: Step = count!(168, Counted::Keeps);

const SAME_LIFE: Step = count!(168, Counted::More(0));

const ENABLE: Step = asks!(one!(164, 165), Expected::Ack);

const DISABLE: Step = asks!(one!(164, 0), Expected::Ack);

const PUTS: Step = Step::Person(Act::Puts);

const ONE_MORE: Step = Step::Settles { more: 1 };

const TWO_MORE: Step = Step::Settles { more: 2 };

const LISTEN: Step = step!(Say::Nothing { at_once: false }, Want::Silence);

const SERIAL: Step = asks!(plain!(242), Expected::Said(Told::Serial));

const ANY_SERIAL: Step = asks!(plain!(242), Expected::Any(3));

/// The trials, in their order.
pub(crate) static TRIALS: [Trial; 48] = [
    // Each device.
    common!(b"here", Common::Answers, 3, &[POLL]),
    common!(b"serial", Common::Identity, 1, &[SERIAL]),
    common!(
        b"category",
        Common::Identity,
        1,
        &[asks!(plain!(245), Expected::Said(Told::Category))]
    ),
    common!(
        b"twice",
        Common::Once,
        3,
        &[
            ANY_SERIAL,
            step!(Say::Nothing { at_once: true }, Want::NotAgain)
        ]
    ),
    common!(
        b"alone",
        Common::Alone,
        3,
        &[
            ANY_SERIAL,
            step!(Say::Nothing { at_once: true }, Want::NobodyElse)
        ]
    ),
    Trial {
        name: b"times",
        part: Part::Timed,
        who: Who::All,
        premise: Premise::Common(Common::Answers),
        need: Need::Nothing,
        rounds: 200,
        steps: &[POLL],
    },
    common!(
        b"other",
        Common::Check,
        1,
        &[step!(Say::Odd(Odd::OtherCheck), Want::Silence), WELL]
    ),
    common!(
        b"damaged",
        Common::Check,
        1,
        &[step!(Say::Odd(Odd::Damaged), Want::Silence), WELL]
    ),
    common!(
        b"cut",
        Common::Cut,
        4,
        &[step!(Say::Odd(Odd::Cut), Want::Silence), WELL]
    ),
    common!(
        b"noise",
        Common::Cut,
        1,
        &[step!(Say::Odd(Odd::Noise), Want::Silence), WELL]
    ),
    common!(
        b"header",
        Common::Unknown,
        1,
        &[step!(plain!(55), Want::Refusal), WELL]
    ),
    // Acceptors of coins and of bills, alone.
    taker!(b"begin", OfTaker::Count, &[count!(225, Counted::First)]),
    taker!(
        b"recount",
        OfTaker::Count,
        &[KEEP_ACCEPTS, RESET, count!(225, Counted::More(0))]
    ),
    taker!(b"reset", OfTaker::Empty, &[RESET, NO_EVENTS]),
    taker!(
        b"remask",
        OfTaker::Inhibited,
        &[ALL_MASK, RESET, asks!(plain!(230), Expected::Two(0, 0))]
    ),
    taker!(
        b"remaster",
        OfTaker::Master,
        &[MASTER_OFF, RESET, asks!(plain!(227), Expected::One(1))]
    ),
    taker!(
        b"onoff",
        OfTaker::Master,
        &[
            MASTER_OFF,
            asks!(plain!(227), Expected::One(0)),
            MASTER_ON,
            asks!(plain!(227), Expected::One(1)),
        ]
    ),
    Trial {
        name: b"bits",
        part: Part::Device,
        who: Who::Takers,
        premise: Premise::Taker(OfTaker::Mask),
        need: Need::Nothing,
        rounds: 16,
        steps: &[
            asks!(Say::Ask(Ask::Bit), Expected::Ack),
            asks!(plain!(230), Expected::Said(Told::Bit)),
        ],
    },
    Trial {
        name: b"places",
        part: Part::Device,
        who: Who::Acceptors,
        premise: Premise::Taker(OfTaker::Places),
        need: Need::Nothing,
        rounds: 16,
        steps: &[asks!(Say::Ask(Ask::Coin), Expected::Said(Told::Coin))],
    },
    Trial {
        name: b"places",
        part: Part::Device,
        who: Who::Bills,
        premise: Premise::Taker(OfTaker::Places),
        need: Need::Nothing,
        rounds: 16,
        steps: &[step!(Say::Ask(Ask::Bill), Want::IfTold(Told::Bill))],
    },
    // Acceptors of coins, with a person.
    by_hand!(
        b"taken",
        Who::Acceptors,
        OfTaker::Accepts,
        Need::Hands,
        &[
            MASTER_ON,
            PLACE_MASK,
            KEEP_EVENTS,
            PUTS,
            ONE_MORE,
            events!(1, Newest::Taken),
        ]
    ),
    by_hand!(
        b"six",
        Who::Acceptors,
        OfTaker::Events,
        Need::Hands,
        &[
            MASTER_ON,
            PLACE_MASK,
            KEEP_EVENTS,
            Step::Person(Act::PutsSix),
            LISTEN,
            LISTEN,
            LISTEN,
            events!(6, Newest::FiveTaken),
        ]
    ),
    by_hand!(
        b"counted",
        Who::Acceptors,
        OfTaker::Count,
        Need::Hands,
        &[
            MASTER_ON,
            PLACE_MASK,
            KEEP_EVENTS,
            KEEP_ACCEPTS,
            PUTS,
            ONE_MORE,
            count!(225, Counted::More(1)),
            RESET,
            count!(225, Counted::More(1)),
        ]
    ),
    // Acceptors of coins and of bills, with a person.
    by_hand!(
        b"emptied",
        Who::Takers,
        OfTaker::Empty,
        Need::Hands,
        &[
            MASTER_ON,
            CLOSE_MASK,
            KEEP_EVENTS,
            PUTS,
            ONE_MORE,
            RESET,
            NO_EVENTS,
        ]
    ),
    by_hand!(
        b"refused",
        Who::Takers,
        OfTaker::Accepts,
        Need::Hands,
        &[
            MASTER_ON,
            CLOSE_MASK,
            KEEP_EVENTS,
            PUTS,
            ONE_MORE,
            events!(1, Newest::Error),
        ]
    ),
    by_hand!(
        b"off",
        Who::Takers,
        OfTaker::Accepts,
        Need::Hands,
        &[
            PLACE_MASK,
            MASTER_OFF,
            KEEP_EVENTS,
            PUTS,
            ONE_MORE,
            events!(1, Newest::Error),
            MASTER_ON,
        ]
    ),
    by_hand!(
        b"again",
        Who::Takers,
        OfTaker::Power,
        Need::Hands,
        &[
            ALL_MASK,
            KEEP_ACCEPTS,
            Step::Person(Act::Power),
            LISTEN,
            NO_EVENTS,
            asks!(plain!(230), Expected::Two(0, 0)),
            count!(225, Counted::More(0)),
        ]
    ),
    by_hand!(
        b"wrap",
        Who::Takers,
        OfTaker::Wrap,
        Need::Long,
        &[
            RESET,
            CLOSE_MASK,
            KEEP_EVENTS,
            Step::Person(Act::PutsMany),
            Step::Settles { more: 256 },
            events!(256, Newest::Any),
        ]
    ),
    // Acceptors of bills, with a person.
    by_hand!(
        b"stack",
        Who::Bills,
        OfTaker::Route,
        Need::Hands,
        &[
            MASTER_ON,
            PLACE_MASK,
            KEEP_EVENTS,
            PUTS,
            ONE_MORE,
            events!(1, Newest::Bill(1)),
            asks!(one!(154, 1), Expected::Ack),
            TWO_MORE,
            events!(2, Newest::Bill(0)),
            step!(one!(154, 1), Want::Refusal),
        ]
    ),
    by_hand!(
        b"back",
        Who::Bills,
        OfTaker::Route,
        Need::Hands,
        &[
            MASTER_ON,
            PLACE_MASK,
            KEEP_EVENTS,
            PUTS,
            ONE_MORE,
            events!(1, Newest::Bill(1)),
            asks!(one!(154, 0), Expected::Ack),
            TWO_MORE,
            events!(2, Newest::Error),
            step!(one!(154, 0), Want::Refusal),
        ]
    ),
    by_hand!(
        b"stacked",
        Who::Bills,
        OfTaker::Count,
        Need::Hands,
        &[
            MASTER_ON,
            PLACE_MASK,
            KEEP_EVENTS,
            KEEP_ACCEPTS,
            PUTS,
            ONE_MORE,
            asks!(one!(154, 1), Expected::Ack),
            TWO_MORE,
            count!(225, Counted::More(1)),
            RESET,
            count!(225, Counted::More(1)),
        ]
    ),
    taker!(b"end", OfTaker::Count, &[count!(225, Counted::Last)]),
    // Hoppers.
    hopper!(
        b"begin",
        OfHopper::Rises,
        Need::Nothing,
        &[count!(168, Counted::First)]
    ),
    hopper!(
        b"early",
        OfHopper::Enable,
        Need::Coins(1),
        &[
            RESET,
            KEEP_LIFE,
            step!(dispense!(1, true), Want::Refusal),
            LISTEN,
            LISTEN,
            LISTEN,
            SAME_LIFE,
        ]
    ),
    hopper!(
        b"stranger",
        OfHopper::Serial,
        Need::Coins(1),
        &[
            ENABLE,
            KEEP_LIFE,
            step!(dispense!(1, false), Want::Refusal),
            LISTEN,
            LISTEN,
            LISTEN,
            SAME_LIFE,
        ]
    ),
    hopper!(
        b"pay",
        OfHopper::Rises,
        Need::Coins(1),
        &[
            ENABLE,
            KEEP_LIFE,
            step!(dispense!(1, true), Want::Taken),
            Step::Waits,
            count!(168, Counted::More(1)),
        ]
    ),
    hopper!(
        b"busy",
        OfHopper::Busy,
        Need::Coins(4),
        &[
            ENABLE,
            step!(dispense!(3, true), Want::Taken),
            step!(dispense!(1, true), Want::Refusal),
            Step::Waits,
            asks!(plain!(166), Expected::Halted(3)),
        ]
    ),
    hopper!(
        b"stop",
        OfHopper::Halts,
        Need::Coins(3),
        &[
            ENABLE,
            step!(dispense!(3, true), Want::Taken),
            asks!(plain!(172), Expected::Any(1)),
            asks!(plain!(166), Expected::Halted(3)),
            KEEP_LIFE,
            LISTEN,
            LISTEN,
            LISTEN,
            SAME_LIFE,
        ]
    ),
    hopper!(
        b"relife",
        OfHopper::Life,
        Need::Nothing,
        &[KEEP_LIFE, RESET, SAME_LIFE]
    ),
    hopper!(
        b"restatus",
        OfHopper::Status,
        Need::Nothing,
        &[RESET, asks!(plain!(166), Expected::Zeros(4))]
    ),
    hopper!(
        b"again",
        OfHopper::Lasts,
        Need::Hands,
        &[KEEP_LIFE, Step::Person(Act::Power), LISTEN, SAME_LIFE]
    ),
    hopper!(
        b"end",
        OfHopper::Rises,
        Need::Nothing,
        &[count!(168, Counted::Last)]
    ),
    // After each trial of a device, and on each way out.
    closing!(Part::Closing, Who::Takers, &[CLOSE_MASK]),
    closing!(Part::Closing, Who::Hoppers, &[DISABLE]),
    closing!(Part::Leaving, Who::Takers, &[MASTER_OFF, CLOSE_MASK]),
    closing!(Part::Leaving, Who::Hoppers, &[DISABLE]),
    // The line.
    line!(
        b"nobody",
        OfLine::Others,
        1,
        &[step!(Say::Odd(Odd::Nobody), Want::Silence)]
    ),
    line!(b"unasked", OfLine::Quiet, 25, &[LISTEN]),
];
