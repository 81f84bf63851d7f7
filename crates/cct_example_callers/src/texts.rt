//! What the devices of the examples say of themselves.
ghost use Rattle.cct_model_wire.specs.Device.{IsWord};

use cct_model_wire::{Name, Texts};

/// Maker, product code, software revision and build code: 1 to 24 printing characters each.
pub(crate) fn texts() -> Texts
    ensures maker { IsWord result.maker }
    ensures product { IsWord result.product }
    ensures software { IsWord result.software }
    ensures build { IsWord result.build }
{
    Texts {
        maker: word(b"ACME"),
        product: word(b"DEMO"),
        software: word(b"1.04"),
        build: word(b"JUNE"),
    }
}

/// A text of a device.
fn word(text: &[u8]) -> Name
    requires { IsWord text.now }
    ensures { IsWord result }
{
    let mut name = Name::new();
    name.extend_from_slice(text);
    name
}
