//! Commands that aren't to be given to the host, by what was found.
ghost use Rattle.std.specs.Prelude.{◌≡◌};
ghost use Rattle.std.specs.List.{list_any};
ghost use Rattle.cct_live_survey.specs.Finding.{tells_other_coin, tells_other_serial, withheld_by};

use crate::coins::is_place;
use crate::finding::Finding;
use cct_model_lines::{Command, has_place};

/// Why a command isn't to be given to the host.
#[derive(Clone, Copy, PartialEq, Eq)]
pub enum Withheld {
    /// A payment, and the device gave another serial number than the setup's. It would take no
    /// dispense that is meant for the hopper of the setup.
    OtherSerial,
    /// A start, and the acceptor gave another coin than the setup's at a place of the mask. Such a
    /// coin would be posted with the value of the setup's.
    OtherCoin,
}

/// Why a command isn't to be given to the host, by what was found, or none where it is to be given.
pub fn withheld_by(findings: &[Finding], command: &Command) -> Option<Withheld>
    ensures { result ≡ withheld_by findings.now command.now }
{
    match *command {
        Command::Pay { addr, .. } => {
            if has_other_serial(findings, addr) {
                Some(Withheld::OtherSerial)
            } else {
                None
            }
        }
        Command::Start { addr, mask } => {
            if has_other_coin(findings, addr, mask) {
                Some(Withheld::OtherCoin)
            } else {
                None
            }
        }
        _ => None,
    }
}

/// Whether the device at an address gave another serial number.
fn has_other_serial(findings: &[Finding], addr: u8) -> bool
    ensures { result ≡ list_any (tells_other_serial addr) findings.now }
{
    findings
        .iter()
        .any(|finding| tells_other_serial(addr, finding))
}

/// Whether this shows another serial number of the device at an address.
fn tells_other_serial(addr: u8, finding: &Finding) -> bool
    ensures { result ≡ tells_other_serial addr finding.now }
{
    match finding {
        Finding::Serial { addr: there, .. } => *there == addr,
        _ => false,
    }
}

/// Whether the acceptor at an address gave another coin at a place of a mask.
fn has_other_coin(findings: &[Finding], addr: u8, mask: u16) -> bool
    ensures { result ≡ list_any (tells_other_coin addr mask) findings.now }
{
    findings
        .iter()
        .any(|finding| tells_other_coin(addr, mask, finding))
}

/// Whether this shows another coin of the acceptor at an address, at a place of a mask.
fn tells_other_coin(addr: u8, mask: u16, finding: &Finding) -> bool
    ensures { result ≡ tells_other_coin addr mask finding.now }
{
    match finding {
        Finding::Coin {
            addr: there,
            place,
            ..
        } => *there == addr && is_place(*place) && has_place(mask, *place),
        _ => false,
    }
}
