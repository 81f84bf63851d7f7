//! Why bytes are no message, and the names of both checks.

use cct_frame::{FrameFault, read};
use cct_model_lines::CheckKind;
use std::fmt;

/// The name of a check.
pub(crate) fn check_name(kind: CheckKind) -> &'static str {
    match kind {
        CheckKind::Simple => "simple check",
        CheckKind::Crc => "CRC",
    }
}

/// Why bytes are no message under one check.
#[derive(Drop)]
pub(crate) struct Fault(pub FrameFault);

impl fmt::Display for Fault {
    fn fmt<W: fmt::Write>(&self, f: &mut fmt::Formatter<W>) -> fmt::Result {
        match self.0 {
            FrameFault::Short { have } => { write!(f, "too short, {have} of at least 5 bytes") }
            FrameFault::Length { said, have } => {
                let needs = u16::from(said) + 5;
                write!(
                    f,
                    "wrong length, {said} data bytes make {needs} bytes, and it has {have}"
                )
            }
            _ => write_bad_check(self.0, f),
        }
    }
}

/// Writes which check is bad, and how.
fn write_bad_check<W: fmt::Write>(fault: FrameFault, f: &mut fmt::Formatter<W>) -> fmt::Result {
    match fault {
        FrameFault::Check { want, got } => {
            write!(f, "simple check bad, {want:02x} wanted, {got:02x} got")
        }
        FrameFault::CrcCheck { want, got } => {
            write!(f, "CRC bad, {want:04x} wanted, {got:04x} got")
        }
        _ => Ok(()),
    }
}

/// Why bytes are no message under either check.
#[derive(Drop)]
pub(crate) struct NoMessage<'p>(pub &'p [u8]);

impl fmt::Display for NoMessage<'_> {
    fn fmt<W: fmt::Write>(&self, f: &mut fmt::Formatter<W>) -> fmt::Result {
        let mut before = "";
        if let Err(fault) = read(CheckKind::Simple, self.0) {
            let simple = Fault(fault);
            write!(f, "{simple}")?;
            before = "; ";
        }
        // The first two faults are the same under both checks.
        if let Err(fault @ FrameFault::CrcCheck { .. }) = read(CheckKind::Crc, self.0) {
            let crc = Fault(fault);
            write!(f, "{before}{crc}")?;
        }
        Ok(())
    }
}
