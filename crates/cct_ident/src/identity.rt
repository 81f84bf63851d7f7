//! What a device says of itself (ccTalk Generic Specification 4, part 2): headers 246, 245, 244,
//! 241 and 192 read its texts, and 242 its serial number.
ghost use Rattle.std.specs.Prelude.{◌≡◌, ◌≤◌, codes, length};
ghost use Rattle.cct_model_wire.specs.Device.{category_of};
ghost use Rattle.cct_ident.specs.Identity.{setup_of, text_of};

use cct_model_wire::{DeviceBody, DeviceSetup, MOST_NAME};

/// The texts by which a device names itself.
#[derive(Clone, Copy, PartialEq, Eq)]
pub enum IdentText {
    /// Header 246: who made it.
    Maker,
    /// Header 245: the equipment category, which is the standard's word for the kind of device.
    Category,
    /// Header 244: the product code.
    Product,
    /// Header 241: the revision of its software.
    Software,
    /// Header 192: the build code.
    Build,
}

/// The identity of a device of a setup. It borrows the setup and copies nothing of it.
#[derive(Clone, Copy, PartialEq, Eq)]
pub struct Identity<'s> {
    setup: &'s DeviceSetup,
}

impl<'s> Identity<'s> {
    /// The identity of a device with this setup.
    pub fn new(setup: &'s DeviceSetup) -> Identity<'s>
        ensures { setup_of result ≡ setup.now }
    {
        Identity { setup }
    }

    /// One of its texts, as bytes of ASCII. It lives as long as the setup.
    pub fn text(&self, which: IdentText) -> &'s [u8]
        ensures text { result.now ≡ text_of (setup_of self.now) which }
        ensures fits { length result.now ≤ MOST_NAME }
    {
        let texts = &self.setup.texts;
        match which {
            IdentText::Maker => texts.maker.as_slice(),
            IdentText::Category => category(&self.setup.body),
            IdentText::Product => texts.product.as_slice(),
            IdentText::Software => texts.software.as_slice(),
            IdentText::Build => texts.build.as_slice(),
        }
    }

    /// The serial number that header 242 reads, below 2^24 where the setup is sound.
    pub fn serial(&self) -> u32
        ensures { result ≡ (setup_of self.now).serial }
    {
        self.setup.serial
    }
}

/// The equipment category of a kind of device.
fn category(body: &DeviceBody) -> &'static [u8]
    ensures category { result.now ≡ category_of body.now }
    ensures fits { length result.now ≤ MOST_NAME }
{
    match body {
        DeviceBody::Acceptor { .. } => b"Coin Acceptor",
        DeviceBody::Hopper { .. } => b"Payout",
        DeviceBody::Bill { .. } => b"Bill Validator",
    }
}
