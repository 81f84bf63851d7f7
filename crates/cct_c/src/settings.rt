//! What a device is, as a program in another language says it.
ghost use Rattle.std.specs.Prelude.{◌≡◌, All, IfOk, IsTrue};
ghost use Rattle.cct_model_wire.specs.Device.{AreSoundPlaces, IsId, IsPrinting, IsSound};
ghost use Rattle.cct_model_wire.specs.Device.{IsSoundBody, IsWord};
ghost use Rattle.cct_model_wire.specs.declared.device.DeviceBody.TheVariants.{Hopper};

use crate::codes::{
    BAD_ADDRESS, BAD_CHECK, BAD_COUNT, BAD_FAMILY, BAD_ID, BAD_SERIAL, BAD_TEXT, OK, kind_of,
};
use cct_model_wire::{COIN_PLACES, DeviceBody, DeviceSetup, MOST_NAME, Name, Texts};

/// The first number that three bytes can't hold.
const OVER: u32 = 1 << 24;

/// The greatest value of a coin or a bill.
const MOST_VALUE: u32 = 1_000_000;

const ACCEPTOR: u8 = 0;

const HOPPER: u8 = 1;

const BILL: u8 = 2;

/// What a device is.
#[repr(C)]
#[derive(Drop)]
pub struct LhSettings {
    /// 0 a coin acceptor, 1 a hopper, 2 a bill acceptor.
    pub family: u8,
    /// The code of its check.
    pub check: u8,
    /// 2 to 255.
    pub address: u8,
    /// Below 2^24.
    pub serial: u32,
    /// Where its accept counter starts, or a hopper's life count, below 2^24.
    pub count: u32,
    /// Its texts, each ended by a byte 0 where it has fewer than 24.
    pub maker: [u8; MOST_NAME],
    pub product: [u8; MOST_NAME],
    pub software: [u8; MOST_NAME],
    pub build: [u8; MOST_NAME],
    /// The identifications of its coins or bills, that of place 1 first. A hopper has none.
    pub ids: [[u8; 6]; COIN_PLACES],
}

/// The setup that settings say, or what a call answers where a code in them is none. It may be out
/// of its ranges.
pub(crate) fn setup_of(settings: &LhSettings) -> Result<DeviceSetup, u32>
    ensures { IfOk result (λ d. (d.addr ≡ settings.now.address) × (d.serial ≡ settings.now.serial)) }
{
    let Some(kind) = kind_of(settings.check) else {
        return Err(BAD_CHECK);
    };
    let Some(body) = body_of(settings) else {
        return Err(BAD_FAMILY);
    };
    Ok(DeviceSetup {
        addr: settings.address,
        kind,
        serial: settings.serial,
        texts: Texts {
            maker: name_of(&settings.maker),
            product: name_of(&settings.product),
            software: name_of(&settings.software),
            build: name_of(&settings.build),
        },
        named: true,
        body,
    })
}

/// What kind of device settings say. No device shows the values of its coins or bills.
fn body_of(settings: &LhSettings) -> Option<DeviceBody> {
    let count = settings.count;
    let values = [0; COIN_PLACES];
    let ids = settings.ids;
    match settings.family {
        ACCEPTOR => Some(DeviceBody::Acceptor {
            accepts: count,
            values,
            ids,
        }),
        HOPPER => Some(DeviceBody::Hopper {
            life: count,
            value: 1,
        }),
        BILL => Some(DeviceBody::Bill {
            accepts: count,
            values,
            ids,
        }),
        _ => None,
    }
}

/// The bytes of a text up to a byte 0.
fn name_of(text: &[u8; MOST_NAME]) -> Name {
    let count = text.iter().position(|byte| *byte == 0).unwrap_or(MOST_NAME);
    let mut name = Name::new();
    name.extend_from_slice(&text[..count]);
    name
}

/// What is wrong first with a setup, as a call answers it, or `OK`.
pub(crate) fn fault_of(setup: &DeviceSetup) -> u32
    ensures { result ≡ OK → IsSound setup.now }
{
    if setup.addr < 2 {
        return BAD_ADDRESS;
    }
    if setup.serial >= OVER {
        return BAD_SERIAL;
    }
    if !are_words(&setup.texts) {
        return BAD_TEXT;
    }
    match &setup.body {
        DeviceBody::Acceptor {
            accepts,
            values,
            ids,
        } => places_fault(*accepts, values, ids),
        DeviceBody::Hopper { life, value } => hopper_fault(*life, *value),
        DeviceBody::Bill {
            accepts,
            values,
            ids,
        } => places_fault(*accepts, values, ids),
    }
}

/// What is wrong first with the numbers and the identifications of an acceptor, or `OK`.
fn places_fault(accepts: u32, values: &[u32; COIN_PLACES], ids: &[[u8; 6]; COIN_PLACES]) -> u32
    ensures { result ≡ OK → AreSoundPlaces accepts values.now ids.now }
{
    let (values, ids) = (*values, *ids);
    if accepts >= OVER || !values.iter().all(|value| *value <= MOST_VALUE) {
        BAD_COUNT
    } else if !ids.iter().all(|id| is_id(id)) {
        BAD_ID
    } else {
        OK
    }
}

/// What is wrong with the numbers of a hopper, or `OK`.
fn hopper_fault(life: u32, value: u32) -> u32
    ensures { result ≡ OK → IsSoundBody (Hopper life value) }
{
    if life >= OVER || value < 1 || value > MOST_VALUE {
        BAD_COUNT
    } else {
        OK
    }
}

/// Whether an identification is six printing characters.
fn is_id(id: &[u8; 6]) -> bool
    ensures { IsTrue result → IsId id.now }
{
    let characters = *id;
    are_printing(&characters)
}

/// Whether the texts by which a device names itself are words.
fn are_words(texts: &Texts) -> bool
    ensures maker { IsTrue result → IsWord texts.now.maker }
    ensures product { IsTrue result → IsWord texts.now.product }
    ensures software { IsTrue result → IsWord texts.now.software }
    ensures build { IsTrue result → IsWord texts.now.build }
{
    is_word(&texts.maker)
        && is_word(&texts.product)
        && is_word(&texts.software)
        && is_word(&texts.build)
}

/// Whether a text is 1 to 24 printing characters.
fn is_word(text: &Name) -> bool
    ensures { IsTrue result → IsWord text.now }
{
    let bytes = text.as_slice();
    !bytes.is_empty() && are_printing(bytes)
}

/// Whether each byte is a printing character.
fn are_printing(bytes: &[u8]) -> bool
    ensures { IsTrue result → All IsPrinting bytes.now }
{
    bytes.iter().all(|byte| 0x21 <= *byte && *byte <= 0x7e)
}
