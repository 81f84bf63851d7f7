//! The echo is taken off what the host heard.
ghost use Rattle.std.specs.Prelude.{◌≡◌, ◌↔◌, ◌+◌, Some, None, Err, IfOk, IfErr, IsErr, length};
ghost use Rattle.cct_model_wire.specs.Exchange.{after_echo};
ghost use Rattle.cct_wire.specs.Echo.{echo_place};

use thiserror::Error;

/// The echo of what was sent is damaged: what was heard differs from it at the place `at`, or ends
/// there.
#[derive(Clone, Copy, Debug, Error, PartialEq, Eq)]
#[error("the echo is damaged at place {at}")]
pub struct EchoBad {
    /// The first such place, counted from 0.
    pub at: usize,
}

/// The bytes that follow the echo of what was sent, where they are heard without a check, as the
/// answers to an address poll are. They stay where they are in `heard`.
#[tactic(auto, using(crate::proofs::Echoes::place_heard, crate::proofs::Echoes::none_is, crate::proofs::Echoes::place_within))]
pub fn bare_after_echo<'a>(sent: &[u8], heard: &'a [u8]) -> Result<&'a [u8], EchoBad>
    ensures rest { IfOk result (λ rest. after_echo sent.now heard.now ≡ Some rest.now) }
    ensures in_place { IfOk result (λ rest. rest.ref_ptr
        ≡ (heard.entry.ref_ptr.0, heard.entry.ref_ptr.1 + length sent.now)) }
    // The first place at which the echo differs from what was sent, or ends.
    ensures place { IfErr result (λ bad. bad.at ≡ echo_place sent.now heard.now) }
    ensures damaged { IsErr result ↔ (after_echo sent.now heard.now ≡ None) }
{
    let at = echo_place(sent, heard);
    if at < sent.len() {
        return Err(EchoBad { at });
    }
    Ok(&heard[sent.len()..])
}

/// How many bytes of what was sent are heard back before the first that isn't.
#[tactic(auto, using(crate::proofs::Echoes::no_further))]
fn echo_place(sent: &[u8], heard: &[u8]) -> usize
    ensures { result ≡ echo_place sent.now heard.now }
{
    let mut at = 0;
    while at < sent.len() && at < heard.len() && sent[at] == heard[at] {
        at += 1;
    }
    at
}
