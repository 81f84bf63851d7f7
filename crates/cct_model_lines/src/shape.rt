//! The table of the commands: the address of each, its word, and what is after it.
ghost use Rattle.std.specs.Prelude.{◌≡◌, ◌≤◌, length};
ghost use Rattle.cct_model_lines.specs.Shape.{fields_of, shape_of};

use crate::command::Command;
use cct_model_wire::{BROADCAST, COIN_PLACES, HOST, PATHS, RETURN_CODE, STACK_CODE};

/// What a field of a command's line spells.
#[derive(Clone, Copy, PartialEq, Eq)]
pub enum Field {
    /// There is no field.
    Nothing,
    /// A number in decimal, from `least` to `most`.
    Number { number: u32, least: u32, most: u32 },
    /// An inhibit mask that isn't 0, in four hexadecimal digits.
    Mask { mask: u16 },
}

/// An address.
fn at(addr: u8) -> Field
    ensures { result ≡ Field.Number addr 0 255 }
{
    Field::Number {
        number: u32::from(addr),
        least: 0,
        most: 255,
    }
}

/// A number within a range.
fn number(number: u32, least: u32, most: u32) -> Field
    ensures { result ≡ Field.Number number least most }
{
    Field::Number {
        number,
        least,
        most,
    }
}

impl Command {
    /// The address at which the command's job works: a scan is at 0, and a sale at 1.
    pub fn address(&self) -> u8
        ensures { result ≡ (shape_of self.now).address }
    {
        match *self {
            Command::Start { addr, .. } => addr,
            Command::Round { addr } => addr,
            Command::Stop { addr } => addr,
            Command::Pay { addr, .. } => addr,
            Command::Settle { addr } => addr,
            Command::Halt { addr } => addr,
            Command::Scan => BROADCAST,
            Command::Ident { addr } => addr,
            Command::Path { addr, .. } => addr,
            Command::Route { addr, .. } => addr,
            Command::Vend { .. } => HOST,
        }
    }

    /// The word of the command.
    pub fn word(&self) -> &'static [u8]
        ensures word { result.now ≡ (shape_of self.now).word }
        ensures short { length result.now ≤ 6 }
    {
        match self {
            Command::Start { .. } => b"start",
            Command::Round { .. } => b"round",
            Command::Stop { .. } => b"stop",
            Command::Pay { .. } => b"pay",
            Command::Settle { .. } => b"settle",
            Command::Halt { .. } => b"halt",
            Command::Scan => b"scan",
            Command::Ident { .. } => b"ident",
            Command::Path { .. } => b"path",
            Command::Route { .. } => b"route",
            Command::Vend { .. } => b"vend",
        }
    }

    /// What the fields after the word spell.
    pub fn fields(&self) -> (Field, Field, Field)
        ensures { result ≡ fields_of self.now }
    {
        let none = Field::Nothing;
        match *self {
            Command::Start { addr, mask } => (at(addr), Field::Mask { mask }, none),
            Command::Round { addr } => (at(addr), none, none),
            Command::Stop { addr } => (at(addr), none, none),
            Command::Pay { addr, id, count } => (
                at(addr),
                number(id, 1, u32::MAX),
                number(u32::from(count), 1, 255),
            ),
            Command::Settle { addr } => (at(addr), none, none),
            Command::Halt { addr } => (at(addr), none, none),
            Command::Scan => (none, none, none),
            Command::Ident { addr } => (at(addr), none, none),
            Command::Path { addr, place, path } => (
                at(addr),
                number(u32::from(place), 0, COIN_PLACES as u32),
                number(u32::from(path), 1, u32::from(PATHS)),
            ),
            Command::Route { addr, way } => (
                at(addr),
                number(
                    u32::from(way),
                    u32::from(RETURN_CODE),
                    u32::from(STACK_CODE),
                ),
                none,
            ),
            Command::Vend { id, price } => (
                number(id, 1, u32::MAX),
                number(price, 1, 1_000_000_000),
                none,
            ),
        }
    }
}
