//! What is reported of a device at its end, and of the promises at last.
ghost use Rattle.std.specs.Prelude.{◌≡◌, IfOk, List};
ghost use Rattle.cct_model_wire.specs.declared.device.Setup.{Setup};
ghost use Rattle.cct_probe_plan.specs.declared.plan.Trial.{Trial};
ghost use Rattle.cct_probe_run.specs.Plays.{PlaysOn};
ghost use Rattle.cct_probe_run.specs.declared.bench.Bench.{Bench};

use crate::bench::{Bench, Stop};
use crate::findings::{Finding, Findings, Standing};
use crate::telling::{line_of, numbers_of, promise_of};
use cct_edge::Sink;
use cct_live_port::Line;
use cct_model_lines::DeviceSetup;
use cct_probe_plan::{Memory, PROMISES, Promise};

/// Says what was found of each premise at a device that no trial showed broken; that of those was
/// reported at once.
pub(crate) fn tell_device<L: Line, K: Sink>(
    bench: &mut Bench<L, K>,
    findings: &Findings,
    addr: u8,
) -> Result<(), Stop>
    ensures plays { (setup : Setup) (trials : List Trial) →
        PlaysOn L.reads L.writes K.puts setup trials bench.old bench.new }
{
    for found in findings.as_slice() {
        if found.addr == addr {
            tell_finding(bench, *found)?;
        }
    }
    Ok(())
}

/// Says what was found of a premise.
fn tell_finding<L: Line, K: Sink>(bench: &mut Bench<L, K>, found: Finding) -> Result<(), Stop>
    ensures plays { (setup : Setup) (trials : List Trial) →
        PlaysOn L.reads L.writes K.puts setup trials bench.old bench.new }
{
    let word = found.premise.word();
    match found.standing {
        Standing::Kept => bench.tell(&line_of(b"kept", found.addr, &[word])),
        Standing::Untried(why) => {
            bench.tell(&line_of(b"untried", found.addr, &[word, why.word()]))
        }
        Standing::Broken => Ok(()),
    }
}

/// Says how many coins fell into a device, or out of it.
pub(crate) fn tell_coins<L: Line, K: Sink>(
    bench: &mut Bench<L, K>,
    device: &DeviceSetup,
    memory: &Memory,
) -> Result<(), Stop>
    ensures plays { (setup : Setup) (trials : List Trial) →
        PlaysOn L.reads L.writes K.puts setup trials bench.old bench.new }
{
    let (first, last) = match (memory.first, memory.last) {
        (Some(first), Some(last)) => (first, last),
        _ => return Ok(()),
    };
    let word: &[u8] = if device.body.is_hopper() {
        b"fell"
    } else {
        b"took"
    };
    let many = last.wrapping_sub(first) % 16_777_216;
    bench.tell(&numbers_of(word, device.addr, &[u64::from(many)]))
}

/// Says which promises hold with these devices, and which don't and why.
pub(crate) fn tell_promises<L: Line, K: Sink>(
    bench: &mut Bench<L, K>,
    findings: &Findings,
) -> Result<(), Stop>
    ensures plays { (setup : Setup) (trials : List Trial) →
        PlaysOn L.reads L.writes K.puts setup trials bench.old bench.new }
{
    for promise in PROMISES {
        tell_each(bench, findings, promise, true)?;
        if !bench.broken.fails(promise) && !tell_each(bench, findings, promise, false)? {
            bench.tell_holds(promise)?;
        }
    }
    Ok(())
}

/// Reports each premise of a promise that is broken, or each that wasn't tried, and answers whether
/// there is one.
fn tell_each<L: Line, K: Sink>(
    bench: &mut Bench<L, K>,
    findings: &Findings,
    promise: Promise,
    is_broken: bool,
) -> Result<bool, Stop>
    ensures plays { (setup : Setup) (trials : List Trial) →
        PlaysOn L.reads L.writes K.puts setup trials bench.old bench.new }
    ensures still { IfOk result (λ _. bench.new.broken ≡ bench.old.broken) }
{
    let word: &[u8] = if is_broken { b"fails" } else { b"open" };
    let mut is_any = false;
    for found in findings.as_slice() {
        if found.premise.carries(promise) && is_so(found.standing, is_broken) {
            bench.tell(&promise_of(word, promise, found.addr, found.premise))?;
            is_any = true;
        }
    }
    Ok(is_any)
}

/// Whether a premise is broken, or wasn't tried.
fn is_so(standing: Standing, is_broken: bool) -> bool {
    match standing {
        Standing::Kept => false,
        Standing::Untried(_) => !is_broken,
        Standing::Broken => is_broken,
    }
}
