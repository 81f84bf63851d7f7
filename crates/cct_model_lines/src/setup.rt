//! The setup lines of a script.

use crate::{DeviceSetup, Texts};

/// What a setup line of a script says.
#[derive(Drop)]
pub enum SetupLine {
    /// There is this coin acceptor.
    Acceptor(DeviceSetup),
    /// There is this hopper.
    Hopper(DeviceSetup),
    /// There is this bill acceptor.
    Bills(DeviceSetup),
    /// The coin or the bill of a place, 1 to 16, of acceptor `addr` has this value, 1 to 1,000,000,
    /// and this identification.
    Value {
        addr: u8,
        place: u8,
        value: u32,
        id: [u8; 6],
    },
    /// Device `addr` has these texts.
    Named {
        addr: u8,
        texts: Texts,
    },
    /// The setup is done.
    Begin,
}
