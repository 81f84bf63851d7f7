//! The setup that a load is played on.
ghost use Rattle.std.specs.Prelude.{◌≡◌, ◌≤◌, [], length};
ghost use Rattle.cct_model_lines.specs.terms.wire.CheckKind.TheVariants.{Simple};
ghost use Rattle.cct_model_lines.specs.Setup.{IsSoundSetup};
ghost use Rattle.cct_model_lines.specs.Grammar.{plain_device};
ghost use Rattle.cct_gen.specs.Load.{load_setup};

use cct_model_lines::{
    COIN_PLACES, CheckKind, DeviceBody, DeviceSetup, MOST_NAME, Name, Setup, Texts,
};

/// Puts into an empty setup the devices that a load is played on: a coin acceptor at address 2
/// whose 16 coins are worth 10 each, and a hopper at address 3 whose coins are worth 10.
pub fn load_setup(setup: &mut Setup)
    requires { setup.old.devices ≡ [] }
    ensures value { setup.new ≡ load_setup }
    ensures sound { IsSoundSetup setup.new }
{
    let acceptor = DeviceBody::Acceptor {
        accepts: 0,
        values: [10; COIN_PLACES],
        ids: [*b"XX010A"; COIN_PLACES],
    };
    let hopper = DeviceBody::Hopper { life: 0, value: 10 };
    setup.devices.push(simple_device(2, 1, acceptor));
    setup.devices.push(simple_device(3, 2, hopper));
}

/// A device under the simple check with the texts of a device of which a script says none.
fn simple_device(addr: u8, serial: u32, body: DeviceBody) -> DeviceSetup
    ensures { result ≡ plain_device addr Simple serial body }
{
    DeviceSetup {
        addr,
        kind: CheckKind::Simple,
        serial,
        texts: Texts {
            maker: name_of(b"BENCH"),
            product: name_of(b"CCT"),
            software: name_of(b"1"),
            build: name_of(b"1"),
        },
        named: false,
        body,
    }
}

/// A name of these bytes.
fn name_of(bytes: &[u8]) -> Name
    requires { length bytes.now ≤ MOST_NAME }
    ensures { result ≡ bytes.now }
{
    let mut name = Name::new();
    name.extend_from_slice(bytes);
    name
}
