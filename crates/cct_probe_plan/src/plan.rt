//! What a plan of trials is made of.
ghost use Rattle.std.specs.Prelude.{◌≡◌};
ghost use Rattle.cct_probe_plan.specs.Closing.{closes, is_for};
ghost use Rattle.cct_probe_plan.specs.declared.plan.Ending.TheVariants as ending;

use crate::premise::Premise;
use cct_model_lines::DeviceBody;

/// One trial: it asks its steps one after the other, in so many rounds. It ends with the first that
/// shows a premise broken, or that isn't answered.
#[derive(Clone, Copy)]
pub struct Trial {
    pub name: &'static [u8],
    pub part: Part,
    pub who: Who,
    pub premise: Premise,
    pub need: Need,
    pub rounds: u16,
    pub steps: &'static [Step],
}

/// When a trial is done.
#[derive(Clone, Copy, PartialEq, Eq)]
pub enum Part {
    /// At each device that it is for.
    Device,
    /// So too, and how long its answers took is reported.
    Timed,
    /// Once, for the line.
    Line,
    /// After each trial of a device: the device is left as it may stay for a while.
    Closing,
    /// On each way out: the device is left as it may stay.
    Leaving,
}

/// What ends.
#[derive(Clone, Copy, PartialEq, Eq)]
pub enum Ending {
    /// A trial of a device.
    Trial,
    /// All trials.
    Run,
}

impl Part {
    /// Whether it is done where this ends.
    pub fn closes(self, ending: Ending) -> bool
        ensures { result ≡ closes ending self }
    {
        match ending {
            Ending::Trial => self.is_closing(),
            Ending::Run => self.is_leaving(),
        }
    }

    /// Whether it is done where a trial ends.
    fn is_closing(self) -> bool
        ensures { result ≡ closes ending.Trial self }
    {
        match self {
            Part::Closing => true,
            Part::Device => false,
            Part::Timed => false,
            Part::Line => false,
            Part::Leaving => false,
        }
    }

    /// Whether it is done where all trials end.
    fn is_leaving(self) -> bool
        ensures { result ≡ closes ending.Run self }
    {
        match self {
            Part::Leaving => true,
            Part::Device => false,
            Part::Timed => false,
            Part::Line => false,
            Part::Closing => false,
        }
    }
}

/// Which devices a trial is for.
#[derive(Clone, Copy)]
pub enum Who {
    All,
    /// Acceptors of coins and of bills.
    Takers,
    /// Acceptors of coins.
    Acceptors,
    /// Acceptors of bills.
    Bills,
    Hoppers,
}

impl Who {
    /// Whether a device is one of them.
    pub fn has(self, body: &DeviceBody) -> bool
        ensures { result ≡ is_for self body.now }
    {
        match self {
            Who::All => true,
            Who::Takers => body.takes_money(),
            Who::Acceptors => body.is_acceptor(),
            Who::Bills => body.is_bill(),
            Who::Hoppers => body.is_hopper(),
        }
    }
}

/// What a trial needs.
#[derive(Clone, Copy)]
pub enum Need {
    Nothing,
    /// A person.
    Hands,
    /// A person, for long.
    Long,
    /// Leave to order so many coins.
    Coins(u8),
}

/// One step of a trial.
#[derive(Clone, Copy)]
pub enum Step {
    /// One exchange, and what has to come.
    Asks { say: Say, want: Want },
    /// The status of a hopper (header 166) is asked until it has no coin left to pay.
    Waits,
    /// A person does something.
    Person(Act),
    /// What reads the events of an acceptor is asked until so many more came than were kept, or none
    /// comes for a while. Nothing is shown by it: what a person put in may still be on its way.
    Settles { more: u16 },
}

/// What is sent in an exchange.
#[derive(Clone, Copy)]
pub enum Say {
    /// A message to the device, under its check.
    Ask(Ask),
    /// A poll of the device (header 254) that nobody may answer.
    Odd(Odd),
    /// Nothing: it is listened. At once, so that nothing goes by, or after a silent read.
    Nothing { at_once: bool },
}

/// A message to the device.
#[derive(Clone, Copy)]
pub enum Ask {
    /// Without data.
    Plain { header: u8 },
    /// With one data byte.
    One { header: u8, data: u8 },
    /// With two.
    Two { header: u8, first: u8, second: u8 },
    /// What reads the last events: header 159 of a bill acceptor, else 229.
    Credits,
    /// The coin of the place of the round (184).
    Coin,
    /// The bill of the place of the round (157).
    Bill,
    /// The mask of the place of the round alone (231).
    Bit,
    /// The mask of the place that is tried alone (231).
    Place,
    /// So many coins (167), under the serial number of the setup or under the one after it.
    Dispense { coins: u8, is_own: bool },
}

/// A poll that nobody may answer.
#[derive(Clone, Copy)]
pub enum Odd {
    /// Under the other check.
    OtherCheck,
    /// Its last byte is one higher.
    Damaged,
    /// Only its first bytes, one more in each round.
    Cut,
    /// After a byte of noise.
    Noise,
    /// To the lowest address from 2 on that the setup doesn't have.
    Nobody,
}

/// What has to come.
#[derive(Clone, Copy)]
pub enum Want {
    /// Nothing.
    Silence,
    /// Not a reply: nothing, or a message with another header than 0.
    Refusal,
    /// Not once more what came last.
    NotAgain,
    /// Nothing else than what came last.
    NobodyElse,
    /// A reply with these data.
    Reply(Expected),
    /// A reply that shows this. Not each device knows the question: where nothing comes, or a
    /// refusal, nothing is shown.
    IfTold(Told),
    /// An acknowledgement, by which the device shows that it hears again.
    Well,
    /// An acknowledgement of a dispense. Where it is refused nothing is shown.
    Taken,
}

/// The data of a reply.
#[derive(Clone, Copy)]
pub enum Expected {
    /// These, of which there is no, one or two bytes.
    Ack,
    One(u8),
    Two(u8, u8),
    /// So many bytes, each 0.
    Zeros(u8),
    /// So many bytes, whatever they are.
    Any(u8),
    /// What the setup or the round says.
    Said(Told),
    /// A number of three bytes: a life count or an accept counter.
    Count(Counted),
    /// The event counter and the last events: so many more than were kept, the newest as this says.
    Events { more: u16, newest: Newest },
    /// The event counter and the last events, which are kept.
    Keeps,
    /// No coin is left to pay, and paid and unpaid are so many together.
    Halted(u8),
}

/// What the setup or the round says.
#[derive(Clone, Copy)]
pub enum Told {
    /// The serial number of the setup.
    Serial,
    /// The category of the device's kind.
    Category,
    /// The identification of the coin of the round's place, where the setup has one.
    Coin,
    /// That of the bill, of whose seven characters the setup has the first six.
    Bill,
    /// The mask of the round.
    Bit,
}

/// What a number is.
#[derive(Clone, Copy)]
pub enum Counted {
    /// Any; it is kept as the first of this device.
    First,
    /// Any; it is kept as the last of this device.
    Last,
    /// Any; it is kept.
    Keeps,
    /// So much more than the one kept.
    More(u8),
}

/// The newest event, by its pair of bytes.
#[derive(Clone, Copy)]
pub enum Newest {
    /// Any.
    Any,
    /// The place that is tried, and any second byte.
    Taken,
    /// All five are so.
    FiveTaken,
    /// The place that is tried, and this second byte.
    Bill(u8),
    /// An error: 0, and any second byte.
    Error,
}

/// What a person does.
#[derive(Clone, Copy, PartialEq, Eq)]
pub enum Act {
    /// Puts one coin or one bill of the place that is tried in.
    Puts,
    /// Puts six in.
    PutsSix,
    /// Puts 256 in, which are given back.
    PutsMany,
    /// Switches the device off and on.
    Power,
}
