//! The test registers of a hopper.

use std::fmt;

/// The names of the bits of a hopper's test registers 1 to 3, from bit 0 on (ccTalk Generic
/// Specification 4, part 2, header 163). Makers use bits 2 to 6 of register 2 in two ways, a
/// universal hopper's and a compact one's, so these names aren't sure. Bits 5 to 7 of register 3
/// have none.
static BITS: [[&str; 8]; 3] = [
    [
        "absolute maximum current exceeded",
        "payout timeout",
        "motor reversed to clear a jam",
        "opto fraud attempt, path blocked during idle",
        "opto fraud attempt, short-circuit during idle",
        "opto blocked permanently during payout",
        "power-up detected",
        "payout disabled",
    ],
    [
        "opto fraud attempt, short-circuit during payout",
        "single coin payout mode",
        "use other hopper for change (not sure)",
        "opto fraud attempt, finger mismatch (not sure)",
        "motor reverse limit reached (not sure)",
        "inductive coil fault (not sure)",
        "memory checksum error (not sure)",
        "PIN number mechanism enabled",
    ],
    [
        "power-down during payout",
        "unknown coin type paid",
        "PIN number incorrect",
        "incorrect cipher key",
        "encryption enabled",
        "bit 5",
        "bit 6",
        "bit 7",
    ],
];

/// A hopper's test registers, from register 1 on, each by the names of its set bits.
#[derive(Drop)]
pub(crate) struct Registers<'r>(pub &'r [u8]);

impl fmt::Display for Registers<'_> {
    fn fmt<W: fmt::Write>(&self, f: &mut fmt::Formatter<W>) -> fmt::Result {
        let mut before = "test ";
        for (index, bits) in self.0.iter().enumerate() {
            let register = Register { index, bits: *bits };
            write!(f, "{before}{register}")?;
            before = "; ";
        }
        Ok(())
    }
}

/// A test register by its place, counted from 0.
#[derive(Drop)]
struct Register {
    index: usize,
    bits: u8,
}

impl fmt::Display for Register {
    fn fmt<W: fmt::Write>(&self, f: &mut fmt::Formatter<W>) -> fmt::Result {
        let bits = self.bits;
        match self.index {
            0 => write!(f, "register {bits:02x}")?,
            1 => write!(f, "register 2 {bits:02x}")?,
            _ => write!(f, "register 3 {bits:02x}")?,
        }
        match BITS.get(self.index) {
            Some(names) => write_names(bits, names, f),
            None => Ok(()),
        }
    }
}

/// Writes the names of the set bits of a register.
fn write_names<W: fmt::Write>(
    bits: u8,
    names: &[&'static str; 8],
    f: &mut fmt::Formatter<W>,
) -> fmt::Result {
    let mut before = ": ";
    let mut left = bits;
    for name in names {
        if left & 1 == 1 {
            write!(f, "{before}{name}")?;
            before = ", ";
        }
        left >>= 1;
    }
    Ok(())
}
