//! A coin acceptor at address 2 under the simple checksum takes one coin.
ghost use Rattle.cct_model_wire.specs.Device.{IsAcceptor, IsSound};

use crate::texts::texts;
use arrayvec::ArrayVec;
use cct_acceptor::{Acceptor, Inserted};
use cct_model_wire::{COIN_PLACES, CheckKind, Coin, DeviceBody, DeviceSetup, MOST_SENT};
use std::test::Fail;

/// What the acceptor is, and what a coin of each of its places is worth and is called.
pub(crate) fn setup() -> DeviceSetup
    ensures sound { IsSound result }
    ensures acceptor { IsAcceptor result.body }
{
    DeviceSetup {
        addr: 2,
        kind: CheckKind::Simple,
        serial: 1,
        texts: texts(),
        named: true,
        body: DeviceBody::Acceptor {
            accepts: 0,
            values: [100; COIN_PLACES],
            ids: [*b"EU100A"; COIN_PLACES],
        },
    }
}

/// What the acceptor answers to bytes that come one by one, and a gap after them: nothing if it is
/// silent.
fn answer(acceptor: &mut Acceptor<'_>, bytes: &[u8]) -> ArrayVec<u8, MOST_SENT> {
    let mut answer = ArrayVec::new();
    for byte in bytes {
        acceptor.byte(*byte);
    }
    acceptor.gap(&mut answer);
    answer
}

#[test]
fn a_coin_is_taken_and_told(rt: HostRuntime) -> Result<(), Fail> {
    let setup = setup();
    let mut acceptor = Acceptor::new(rt.alloc(), &setup)?;

    // After a reset every coin is inhibited: it comes back, and is an event too.
    assert_eq!(rt; acceptor.insert(5), Inserted::Inhibited);

    // Header 231 sets the inhibit mask, low byte first: bit 4 is coin place 5. The reply has header
    // 0 and no data.
    let heard = answer(&mut acceptor, b"\x02\x02\x01\xe7\x10\x00\x04");
    assert_eq!(rt; heard.as_slice(), b"\x01\x00\x02\x00\xfd".as_slice());
    assert_eq!(rt;
        acceptor.insert(5),
        Inserted::Accepted(Coin { place: 5, path: 1 })
    );

    // Header 229 reads the event counter, 2, and the last five events, newest first: place 5 by
    // path 1, and error 2.
    let heard = answer(&mut acceptor, b"\x02\x00\x01\xe5\x18");
    assert_eq!(rt;
        heard.as_slice(),
        b"\x01\x0b\x02\x00\x02\x05\x01\x00\x02\x00\x00\x00\x00\x00\x00\xe8".as_slice()
    );

    // Bytes that fail their check are no message. Nobody answers them.
    assert!(rt; answer(&mut acceptor, b"\x02\x00\x01\xe5\x19").is_empty());
    Ok(())
}
