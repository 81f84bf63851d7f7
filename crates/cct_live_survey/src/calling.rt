//! One question to a device of the setup, asked once, and what its answer says.
ghost use Rattle.std.specs.Prelude.{◌≡◌};
ghost use Rattle.cct_live_survey.specs.Roll.{CallsOnce, category_call, coin_call, is_family_of};
ghost use Rattle.cct_live_survey.specs.Roll.{other_coin, serial_call};

use crate::category::Category;
use crate::coins::coin_at;
use crate::finding::Finding;
use crate::question::{category_of, coin_id_of, serial_of};
use crate::room::Room;
use cct_model_lines::DeviceSetup;
use cct_wire::Link;

/// What a device is asked about.
#[derive(Clone, Copy, Default)]
pub(crate) enum About {
    /// Its serial number (header 242).
    #[default]
    Serial,
    /// Its equipment category (header 245).
    Category,
    /// The identification of the coin of a place (header 184).
    Coin { place: u8 },
}

/// What came of a question that was asked once.
#[derive(Drop)]
pub(crate) enum Called {
    /// It wasn't answered.
    Silent,
    /// It was answered, and this was found; none where the answer is as the setup says.
    Told(Option<Finding>),
}

/// Asks a device of the setup one question once.
pub(crate) fn call<L: Link>(
    about: About,
    device: &DeviceSetup,
    link: &mut L,
    room: &mut Room,
) -> Called
    ensures { CallsOnce L.gives device.now about link.old result link.new }
{
    match about {
        About::Serial => serial_call(device, serial_of(link, device.kind, device.addr, 1, room)),
        About::Category => {
            category_call(device, category_of(link, device.kind, device.addr, 1, room))
        }
        About::Coin { place } => coin_call(
            device,
            place,
            coin_id_of(link, device.kind, device.addr, place, 1, room),
        ),
    }
}

/// What is made of a serial number.
fn serial_call(device: &DeviceSetup, told: Option<u32>) -> Called
    ensures { result ≡ serial_call device.now told }
{
    match told {
        None => Called::Silent,
        Some(number) if number == device.serial => Called::Told(None),
        Some(number) => Called::Told(Some(Finding::Serial {
            addr: device.addr,
            number,
        })),
    }
}

/// What is made of a category.
fn category_call(device: &DeviceSetup, told: Option<Category>) -> Called
    ensures { result ≡ category_call device.now told }
{
    match told {
        None => Called::Silent,
        Some(category) if is_family_of(device, &category) => Called::Told(None),
        Some(category) => Called::Told(Some(Finding::Kind {
            addr: device.addr,
            category: Some(category),
        })),
    }
}

/// Whether a category is that of a device's kind.
fn is_family_of(device: &DeviceSetup, category: &Category) -> bool
    ensures { result ≡ is_family_of device.now category.now }
{
    match category.family() {
        Some(family) => family == device.body.family(),
        None => false,
    }
}

/// What is made of the identification of a coin.
fn coin_call(device: &DeviceSetup, place: u8, told: Option<[u8; 6]>) -> Called
    ensures { result ≡ coin_call device.now place told }
{
    match told {
        None => Called::Silent,
        Some(id) => Called::Told(other_coin(device, place, id)),
    }
}

/// What is found where a device shows this identification of the coin of a place.
fn other_coin(device: &DeviceSetup, place: u8, id: [u8; 6]) -> Option<Finding>
    ensures { result ≡ other_coin device.now place id }
{
    match coin_at(&device.body, place) {
        Some(wanted) if wanted == id => None,
        _ => Some(Finding::Coin {
            addr: device.addr,
            place,
            id,
        }),
    }
}
