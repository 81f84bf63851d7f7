//! What is relied on of devices. Each premise stands as a definition in `cct_model_wire` or
//! `cct_laws_live_devices`; what rests on it is one of the promises.

ghost use Rattle.std.specs.Prelude.{◌≡◌, ◌≤◌, length};
ghost use Rattle.cct_probe_plan.specs.Promises.{carries, carries_coins, carries_orders};
ghost use Rattle.cct_probe_plan.specs.Promises.{is_relied_on};
ghost use Rattle.cct_probe_plan.specs.Words.{common_word, hopper_word, premise_word, taker_word};

/// What is promised of the machine.
#[derive(Clone, Copy)]
pub enum Promise {
    /// No coin is posted twice or lost in silence.
    Coins,
    /// No order is paid twice.
    Orders,
    /// What is reported as put is on the disk. It rests on no device.
    Disk,
}

/// The promises, in the order in which they are reported.
pub static PROMISES: [Promise; 3] = [Promise::Coins, Promise::Orders, Promise::Disk];

/// What is relied on of a device, or of a line.
#[derive(Clone, Copy, PartialEq, Eq)]
pub enum Premise {
    /// Of each device.
    Common(Common),
    /// Of the line.
    Line(OfLine),
    /// Of acceptors of coins or of bills.
    Taker(OfTaker),
    /// Of hoppers.
    Hopper(OfHopper),
}

/// What is relied on of each device.
#[derive(Clone, Copy, PartialEq, Eq)]
pub enum Common {
    /// It answers each question of its kind within the longest time (`answer` of `Exchange`).
    Answers,
    /// No reply comes later (`IsPrompt`, `fast`).
    Prompt,
    /// A reply comes once (`OneReplies`).
    Once,
    /// No second device is at its address (`asked_of` of `Exchange`).
    Alone,
    /// A reply is one message to the host, of the wanted form (`got` of `Exchange`, `reply_in` of
    /// `Reply`).
    Form,
    /// What is no message under its check asks nothing of it (`message` of `Message`).
    Check,
    /// Nor does a message that is cut off, or that is after noise; the next one does (`asks_of` of
    /// `Exchange`).
    Cut,
    /// A header that isn't known asks nothing (`request_of` of `Request`).
    Unknown,
    /// It is who the setup says (`common_reply` of `Device`).
    Identity,
}

/// What is relied on of the line.
#[derive(Clone, Copy, PartialEq, Eq)]
pub enum OfLine {
    /// Only devices of the setup answer (`device_at` of `Exchange`).
    Others,
    /// No byte comes unasked (`heard_after` of `Transcript`).
    Quiet,
}

/// What is relied on of an acceptor.
#[derive(Clone, Copy, PartialEq, Eq)]
pub enum OfTaker {
    /// A reset leaves counter 0 and no event (`events` of `Acceptor`).
    Empty,
    /// A reset leaves mask 0 (`mask_in` of `Setting`).
    Inhibited,
    /// A reset leaves normal operation, and what is set is read back (`is_normal_in` of `Setting`).
    Master,
    /// Each mask is read back as it was set (`mask_in` of `Setting`).
    Mask,
    /// What the inhibits let in is accepted, and nothing else (`accepts`, `coin_event` of
    /// `Acceptor`).
    Accepts,
    /// Each event is counted, and the last five are reported (`counter`, `last_five` of
    /// `Acceptor`).
    Events,
    /// The event counter goes from 255 to 1 (`counter` of `Acceptor`).
    Wrap,
    /// The accept counter rises with each accepted coin, and outlives a reset (`accept_count` of
    /// `Acceptor`).
    Count,
    /// A power cut is a reset (`Met.reset` of `History`).
    Power,
    /// The coins or bills of its places are the setup's (`id_at` of `Acceptor`; `ids` of
    /// `DeviceBody`).
    Places,
    /// A held bill goes where it is routed, once (`bill_held`, `stacked_by` of `Bill`).
    Route,
}

/// What is relied on of a hopper.
#[derive(Clone, Copy, PartialEq, Eq)]
pub enum OfHopper {
    /// The life count rises with each coin that falls (`dropped`, `life_count` of `Hopper`).
    Rises,
    /// It outlives a reset (`life_count` of `Hopper`).
    Life,
    /// It outlives a power cut (`life_count` of `Hopper`).
    Lasts,
    /// A dispense under another serial number pays nothing (`taken_count` of `Hopper`).
    Serial,
    /// Nor does one before the hopper is enabled (`enabled` of `Hopper`).
    Enable,
    /// Nor does one while it pays (`taken_count` of `Hopper`).
    Busy,
    /// A stop ends a payout (`stops`, `paid_of`, `unpaid_of` of `Hopper`).
    Halts,
    /// A reset clears the status (`status_of` of `Hopper`).
    Status,
}

impl Premise {
    /// The word by which it is reported.
    pub fn word(self) -> &'static [u8]
        ensures word { result.now ≡ premise_word self }
        ensures short { length result.now ≤ 10 }
    {
        match self {
            Premise::Common(premise) => premise.word(),
            Premise::Line(OfLine::Others) => b"others",
            Premise::Line(OfLine::Quiet) => b"quiet",
            Premise::Taker(premise) => premise.word(),
            Premise::Hopper(premise) => premise.word(),
        }
    }

    /// Whether a promise rests on it.
    pub fn carries(self, promise: Promise) -> bool
        ensures { result ≡ carries promise self }
    {
        match promise {
            Promise::Coins => self.carries_coins(),
            Promise::Orders => self.carries_orders(),
            Promise::Disk => false,
        }
    }

    /// Whether it takes this for coins to be posted once and not lost.
    fn carries_coins(self) -> bool
        ensures { result ≡ carries_coins self }
    {
        match self {
            Premise::Common(Common::Cut) => false,
            Premise::Common(premise) => premise.is_relied_on(),
            Premise::Line(_) => true,
            Premise::Taker(OfTaker::Master) => false,
            Premise::Taker(_) => true,
            Premise::Hopper(_) => false,
        }
    }

    /// Whether it takes this for orders to be paid once.
    fn carries_orders(self) -> bool
        ensures { result ≡ carries_orders self }
    {
        match self {
            Premise::Common(premise) => premise.is_relied_on(),
            Premise::Line(_) => true,
            Premise::Taker(_) => false,
            Premise::Hopper(_) => true,
        }
    }
}

impl Common {
    fn word(self) -> &'static [u8]
        ensures word { result.now ≡ common_word self }
        ensures short { length result.now ≤ 10 }
    {
        match self {
            Common::Answers => b"answers",
            Common::Prompt => b"prompt",
            Common::Once => b"once",
            Common::Alone => b"alone",
            Common::Form => b"form",
            Common::Check => b"check",
            Common::Cut => b"cut",
            Common::Unknown => b"unknown",
            Common::Identity => b"identity",
        }
    }

    /// Whether promises rest on it. Where a device doesn't answer, or in another form, its job ends
    /// without an answer.
    fn is_relied_on(self) -> bool
        ensures { result ≡ is_relied_on self }
    {
        match self {
            Common::Answers => false,
            Common::Form => false,
            Common::Unknown => false,
            _ => true,
        }
    }
}

impl OfTaker {
    fn word(self) -> &'static [u8]
        ensures word { result.now ≡ taker_word self }
        ensures short { length result.now ≤ 10 }
    {
        match self {
            OfTaker::Empty => b"empty",
            OfTaker::Inhibited => b"inhibited",
            OfTaker::Master => b"master",
            OfTaker::Mask => b"mask",
            OfTaker::Accepts => b"accepts",
            OfTaker::Events => b"events",
            OfTaker::Wrap => b"wrap",
            OfTaker::Count => b"count",
            OfTaker::Power => b"power",
            OfTaker::Places => b"places",
            OfTaker::Route => b"route",
        }
    }
}

impl OfHopper {
    fn word(self) -> &'static [u8]
        ensures word { result.now ≡ hopper_word self }
        ensures short { length result.now ≤ 10 }
    {
        match self {
            OfHopper::Rises => b"rises",
            OfHopper::Life => b"life",
            OfHopper::Lasts => b"lasts",
            OfHopper::Serial => b"serial",
            OfHopper::Enable => b"enable",
            OfHopper::Busy => b"busy",
            OfHopper::Halts => b"stop",
            OfHopper::Status => b"status",
        }
    }
}

impl Default for Premise {
    fn default() -> Self {
        Premise::Common(Common::Answers)
    }
}
