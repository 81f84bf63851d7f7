//! What an exchange, as a logger of the wire saw it, shows of a device, whoever its host is; and
//! what a monitor says of devices.
#![tactic(auto)]

mod asking;
mod deeds;
mod hoppers;
mod money;
mod said;
mod shown;
mod signs;

pub use asking::is_message;
pub use deeds::{Deed, deed_at};
pub use hoppers::{
    KnownCounter, KnownHopper, KnownLife, KnownSerial, fallen_between, hopper_on, no_hopper,
    tell_hopper,
};
pub use money::Money;
pub use said::{Premise, Said};
pub use shown::{Shown, life_at, quiet_shown_at, shown_at};
pub use signs::{KnownMask, Sign, known_on, sign_at, tell_broken};
