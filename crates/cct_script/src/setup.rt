//! The setup lines of a script (`docs/SCRIPT.md`).
ghost use Rattle.std.specs.Prelude.{◌≡◌, ◌≤◌, ◌<◌, ◌^◌, ℕ, Some, None, IfOk, IfSome, MatchOption};
ghost use Rattle.cct_model_lines.specs.Device.{IsSound, IsSoundBody};
ghost use Rattle.cct_model_lines.specs.SetupLine.{IsSetupLine};
ghost use Rattle.cct_model_lines.specs.declared.setup.SetupLine.{SetupLine};
ghost use Rattle.cct_model_lines.specs.terms.device.DeviceBody.{DeviceBody};
ghost use Rattle.cct_model_lines.specs.terms.device.DeviceSetup.{DeviceSetup};
ghost use Rattle.cct_model_lines.specs.Grammar.{ranged, three_byte_in, plain_texts, plain_acceptor};
ghost use Rattle.cct_model_lines.specs.Grammar.{plain_bills, plain_device};
ghost use Rattle.cct_model_lines.specs.Grammar.{counting_line, acceptor_line, bills_line};
ghost use Rattle.cct_model_lines.specs.Grammar.{hopper_line, value_line, texts_line, setup_line};
ghost use Rattle.cct_script.specs.Fields.{Reads, fields_after};

use crate::fields::{alone, first_field, five, four};
use crate::numbers::{ranged_u8, ranged_u32};
use crate::words::{check_in, id_in, name_of, word_in};
use cct_model_lines::{
    COIN_PLACES, CheckKind, DeviceBody, DeviceSetup, LineKind, SetupLine, Texts,
};

const ACCEPTOR: &[u8] = b"acceptor";

const HOPPER: &[u8] = b"hopper";

const BILLS: &[u8] = b"bills";

const VALUE: &[u8] = b"value";

const TEXTS: &[u8] = b"texts";

const BEGIN: &[u8] = b"begin";

/// The address of a device that a field of a setup line spells, 2 to 255.
fn address_in(field: &[u8]) -> Option<u8>
    ensures { Reads result (ranged 2 255 field.now) (λ addr. 2 ≤ addr) }
{
    ranged_u8(2, 255, field)
}

/// The number of three bytes that a field spells.
fn three_byte_in(field: &[u8]) -> Option<u32>
    ensures { Reads result (three_byte_in field.now) (λ number. number < 2 ^ 24) }
{
    ranged_u32(0, 16_777_215, field)
}

/// The value of a coin or a bill that a field spells, 1 to 1,000,000.
fn worth_in(field: &[u8]) -> Option<u32>
    ensures { Reads result (ranged 1 1000000 field.now) (λ value. (1 ≤ value) × (value ≤ 1000000)) }
{
    ranged_u32(1, 1_000_000, field)
}

/// The texts of a device of which a script says none.
fn plain_texts() -> Texts
    ensures { result ≡ plain_texts }
{
    Texts {
        maker: name_of(b"BENCH"),
        product: name_of(b"CCT"),
        software: name_of(b"1"),
        build: name_of(b"1"),
    }
}

/// A coin acceptor of which a script says no more: its places have no values.
#[tactic(auto, using(cct_model_lines::proofs::Sound::plain_acceptor_sound))]
fn plain_acceptor(accepts: u32) -> DeviceBody
    ensures says { result ≡ plain_acceptor accepts }
    ensures sound { accepts < 2 ^ 24 → IsSoundBody result }
{
    DeviceBody::Acceptor {
        accepts,
        values: [0; COIN_PLACES],
        ids: [*b"......"; COIN_PLACES],
    }
}

/// A bill acceptor of which a script says no more: its places have no values.
#[tactic(auto, using(cct_model_lines::proofs::Sound::plain_bills_sound))]
fn plain_bills(accepts: u32) -> DeviceBody
    ensures says { result ≡ plain_bills accepts }
    ensures sound { accepts < 2 ^ 24 → IsSoundBody result }
{
    DeviceBody::Bill {
        accepts,
        values: [0; COIN_PLACES],
        ids: [*b"......"; COIN_PLACES],
    }
}

/// A device of which a script says no more.
#[tactic(auto, using(cct_model_lines::proofs::Sound::plain_device_sound))]
fn plain_device(addr: u8, kind: CheckKind, serial: u32, body: DeviceBody) -> DeviceSetup
    ensures says { result ≡ plain_device addr kind serial body }
    ensures sound { 2 ≤ addr → serial < 2 ^ 24 → IsSoundBody body → IsSound result }
{
    DeviceSetup {
        addr,
        kind,
        serial,
        texts: plain_texts(),
        named: false,
        body,
    }
}

/// What the line of a device with an accept counter says, whichever device it is.
struct Counting {
    addr: u8,
    check: CheckKind,
    serial: u32,
    accepts: u32,
}

/// `WORD A CHECK SERIAL ACCEPTS`
#[tactic(auto, using(crate::proofs::Forms::no_counting))]
fn counting_line(rest: Option<&[u8]>) -> Option<Counting>
    ensures says { MatchOption result
        ((make : DeviceSetup → SetupLine) → (plain : ℕ → DeviceBody) → counting_line make plain (fields_after rest.entry) ≡ None)
        (λ said. (make : DeviceSetup → SetupLine) → (plain : ℕ → DeviceBody) →
        counting_line make plain (fields_after rest.entry)
        ≡ Some (make (plain_device said.addr said.check said.serial (plain said.accepts)))) }
    ensures ranged { IfSome result (λ said. (2 ≤ said.addr) × (said.serial < 2 ^ 24)
        × (said.accepts < 2 ^ 24)) }
{
    let (addr, check, serial, accepts) = four(rest)?;
    Some(Counting {
        addr: address_in(addr)?,
        check: check_in(check)?,
        serial: three_byte_in(serial)?,
        accepts: three_byte_in(accepts)?,
    })
}

/// `acceptor A CHECK SERIAL ACCEPTS`
fn acceptor_line(rest: Option<&[u8]>) -> Option<SetupLine>
    ensures { Reads result (acceptor_line (fields_after rest.entry)) IsSetupLine }
{
    let Counting {
        addr,
        check,
        serial,
        accepts,
    } = counting_line(rest)?;
    let body = plain_acceptor(accepts);
    Some(SetupLine::Acceptor(plain_device(addr, check, serial, body)))
}

/// `bills A CHECK SERIAL ACCEPTS`
fn bills_line(rest: Option<&[u8]>) -> Option<SetupLine>
    ensures { Reads result (bills_line (fields_after rest.entry)) IsSetupLine }
{
    let Counting {
        addr,
        check,
        serial,
        accepts,
    } = counting_line(rest)?;
    let body = plain_bills(accepts);
    Some(SetupLine::Bills(plain_device(addr, check, serial, body)))
}

/// `hopper A CHECK SERIAL LIFE VALUE`
#[tactic(auto, using(crate::proofs::Forms::no_hopper))]
fn hopper_line(rest: Option<&[u8]>) -> Option<SetupLine>
    ensures { Reads result (hopper_line (fields_after rest.entry)) IsSetupLine }
{
    let (addr, check, serial, life, value) = five(rest)?;
    let addr = address_in(addr)?;
    let check = check_in(check)?;
    let serial = three_byte_in(serial)?;
    let life = three_byte_in(life)?;
    let value = worth_in(value)?;
    let body = DeviceBody::Hopper { life, value };
    Some(SetupLine::Hopper(plain_device(addr, check, serial, body)))
}

/// `value A PLACE VALUE ID`
#[tactic(auto, using(crate::proofs::Forms::no_value))]
fn value_line(rest: Option<&[u8]>) -> Option<SetupLine>
    ensures { Reads result (value_line (fields_after rest.entry)) IsSetupLine }
{
    let (addr, place, value, id) = four(rest)?;
    let addr = address_in(addr)?;
    let place = ranged_u8(1, COIN_PLACES as u8, place)?;
    let value = worth_in(value)?;
    let id = id_in(id)?;
    Some(SetupLine::Value {
        addr,
        place,
        value,
        id,
    })
}

/// `texts A MAKER PRODUCT SOFTWARE BUILD`
#[tactic(auto, using(crate::proofs::Forms::no_texts))]
fn texts_line(rest: Option<&[u8]>) -> Option<SetupLine>
    ensures { Reads result (texts_line (fields_after rest.entry)) IsSetupLine }
{
    let (addr, maker, product, software, build) = five(rest)?;
    let addr = address_in(addr)?;
    let maker = word_in(maker)?;
    let product = word_in(product)?;
    let software = word_in(software)?;
    let build = word_in(build)?;
    let texts = Texts {
        maker,
        product,
        software,
        build,
    };
    Some(SetupLine::Named { addr, texts })
}

/// What a setup line says, without its line feed. `Word` where the first field is no word of a
/// setup line, else `Form` where the line isn't in a form of its word.
#[tactic(auto, unfolding(cct_model_lines::specs::Grammar::setup_line))]
pub fn read_setup_line(line: &[u8]) -> Result<SetupLine, LineKind>
    ensures value { result ≡ setup_line line.now }
    // What it says is in its ranges: each address is 2 to 255, and a hopper's line has a hopper's
    // body.
    ensures said { IfOk result IsSetupLine }
{
    let (word, rest) = first_field(line);
    match word {
        _ if word == ACCEPTOR => acceptor_line(rest).ok_or(LineKind::Form),
        _ if word == HOPPER => hopper_line(rest).ok_or(LineKind::Form),
        _ if word == BILLS => bills_line(rest).ok_or(LineKind::Form),
        _ if word == VALUE => value_line(rest).ok_or(LineKind::Form),
        _ if word == TEXTS => texts_line(rest).ok_or(LineKind::Form),
        _ if word == BEGIN => alone(SetupLine::Begin, rest).ok_or(LineKind::Form),
        _ => Err(LineKind::Word),
    }
}
