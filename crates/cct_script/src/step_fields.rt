//! What is after the words of step lines (`docs/SCRIPT.md`), read into the room for a step.
ghost use Rattle.std.specs.Prelude.{◌≡◌, ◌≤◌, ℕ, Some, None, IfSome, MatchOption, MatchResult};
ghost use Rattle.cct_model_lines.specs.declared.command.Step.{Step};
ghost use Rattle.cct_model_lines.specs.declared.command.Step.TheVariants as steps;
ghost use Rattle.cct_model_lines.specs.Grammar.{address_in, alone, choice_in, place_step, step_at};
ghost use Rattle.cct_model_lines.specs.Grammar.{fault_step, start_step};
ghost use Rattle.cct_model_lines.specs.Grammar.{pay_step, path_step, route_step, vend_step};
ghost use Rattle.cct_model_lines.specs.Grammar.{stock_step, change_step, crash_step};
ghost use Rattle.cct_model_lines.specs.Script.{IsInRange};
ghost use Rattle.cct_script.specs.Fields.{Sets, fields_after};
ghost use Rattle.cct_script.specs.Steps.{with_bytes};

use crate::fields::{one, three, two};
use crate::numbers::{ranged, ranged_u8, ranged_u32};
use crate::words::{mask_in, piece_into};
use cct_model_lines::{
    COIN_PLACES, Command, CrashAt, GREATEST_AMOUNT, GREATEST_FIRST, LineKind, MOST_HEARD,
    MOST_SENT, PATHS, Piece, RETURN_CODE, STACK_CODE, Step, WireFault,
};

const BY_DEVICES: &[u8] = b"devices";

const BY_HOST: &[u8] = b"host";

const WHOLE: &[u8] = b"whole";

/// The address that a field of a step line spells, 0 to 255.
fn address_in(field: &[u8]) -> Option<u8>
    ensures { result ≡ address_in field.now }
{
    ranged_u8(0, 255, field)
}

/// The choice of a power cut that a field spells.
fn choice_in(field: &[u8]) -> Option<u64>
    ensures { result ≡ choice_in field.now }
{
    ranged(0, u64::MAX, field)
}

/// Makes a step a command. A step is wide: where a command stands already, only that is set.
pub(crate) fn set_command(command: Command, step: &mut Step)
    ensures { step.new ≡ steps.Command command }
{
    match step {
        Step::Command(given) => *given = command,
        _ => *step = Step::Command(command),
    }
}

/// The address alone after a word.
#[tactic(auto, using(crate::proofs::Forms::no_step_at))]
#[inline(always)]
pub(crate) fn addr(rest: Option<&[u8]>) -> Result<u8, LineKind>
    ensures { MatchResult result
        (λ addr. (make : ℕ → Step) → step_at make (fields_after rest.entry) ≡ Some (make addr))
        (λ why. (why ≡ LineKind.Form) × ((make : ℕ → Step) → step_at make (fields_after rest.entry) ≡ None)) }
{
    match one(rest) {
        Some(addr) => address_in(addr).ok_or(LineKind::Form),
        None => Err(LineKind::Form),
    }
}

/// Nothing after a word.
#[tactic(auto, using(crate::proofs::Forms::not_alone))]
pub(crate) fn nothing(rest: Option<&[u8]>) -> Result<(), LineKind>
    ensures { MatchResult result
        (λ _. (s : Step) → alone s (fields_after rest.entry) ≡ Some s)
        (λ why. (why ≡ LineKind.Form) × ((s : Step) → alone s (fields_after rest.entry) ≡ None)) }
{
    match rest {
        None => Ok(()),
        Some(_) => Err(LineKind::Form),
    }
}

/// `WORD A PLACE`: an address and a place there.
#[tactic(auto, using(crate::proofs::Forms::no_place))]
fn place(rest: Option<&[u8]>) -> Option<(u8, u8)>
    ensures says { MatchOption result
        ((make : ℕ → ℕ → Step) → place_step make (fields_after rest.entry) ≡ None)
        (λ at. (make : ℕ → ℕ → Step) → place_step make (fields_after rest.entry) ≡ Some (make at.0 at.1)) }
    ensures ranged { IfSome result (λ at. (1 ≤ at.1) × (at.1 ≤ COIN_PLACES)) }
{
    let (addr, place) = two(rest)?;
    let addr = address_in(addr)?;
    let place = ranged_u8(1, COIN_PLACES as u8, place)?;
    Some((addr, place))
}

/// `coin A PLACE`
pub(crate) fn coin_into(rest: Option<&[u8]>, step: &mut Step) -> Option<()>
    ensures { Sets result step.new (place_step steps.Coin (fields_after rest.entry)) IsInRange }
{
    let (addr, place) = place(rest)?;
    set_coin(addr, place, step);
    Some(())
}

/// Makes a step a coin that falls in. A step is wide: where a coin stands already, only what it
/// holds is set.
fn set_coin(addr: u8, place: u8, step: &mut Step)
    ensures { step.new ≡ steps.Coin addr place }
{
    match step {
        Step::Coin {
            addr: at,
            place: old,
        } => {
            *at = addr;
            *old = place;
        }
        _ => *step = Step::Coin { addr, place },
    }
}

/// `bill A PLACE`
pub(crate) fn bill_into(rest: Option<&[u8]>, step: &mut Step) -> Option<()>
    ensures { Sets result step.new (place_step steps.Bill (fields_after rest.entry)) IsInRange }
{
    let (addr, place) = place(rest)?;
    *step = Step::Bill { addr, place };
    Some(())
}

/// `fault devices PIECE`, `fault host PIECE`, `fault whole PIECE`
#[tactic(auto, using(crate::proofs::Forms::no_fault))]
pub(crate) fn fault_into(rest: Option<&[u8]>, step: &mut Step) -> Option<()>
    ensures { Sets result step.new (fault_step (fields_after rest.entry)) IsInRange }
{
    let (whom, piece) = two(rest)?;
    if whom == BY_DEVICES {
        *step = Step::Fault(WireFault::DevicesHear(Piece::new()));
    } else if whom == BY_HOST {
        *step = Step::Fault(WireFault::HostHears(Piece::new()));
    } else if whom == WHOLE {
        *step = Step::Fault(WireFault::WholeHeard(Piece::new()));
    } else {
        return None;
    }
    bytes_into(piece, step)
}

/// Reads the bytes that a field spells into their place in a wire fault. Any other step has no
/// place for them.
fn bytes_into(field: &[u8], step: &mut Step) -> Option<()>
    ensures { Sets result step.new (with_bytes step.old field.now) IsInRange }
{
    match step {
        Step::Fault(WireFault::DevicesHear(bytes)) => piece_into(MOST_SENT, field, bytes),
        Step::Fault(WireFault::HostHears(bytes)) => piece_into(MOST_SENT, field, bytes),
        Step::Fault(WireFault::WholeHeard(bytes)) => piece_into(MOST_HEARD, field, bytes),
        _ => None,
    }
}

/// `start A MASK`
#[tactic(auto, using(crate::proofs::Forms::no_start))]
pub(crate) fn start_into(rest: Option<&[u8]>, step: &mut Step) -> Option<()>
    ensures { Sets result step.new (start_step (fields_after rest.entry)) IsInRange }
{
    let (addr, mask) = two(rest)?;
    let addr = address_in(addr)?;
    let mask = mask_in(mask)?;
    set_command(Command::Start { addr, mask }, step);
    Some(())
}

/// `pay A ID COUNT`
#[tactic(auto, using(crate::proofs::Forms::no_pay))]
#[inline(always)]
pub(crate) fn pay_into(rest: Option<&[u8]>, step: &mut Step) -> Option<()>
    ensures { Sets result step.new (pay_step (fields_after rest.entry)) IsInRange }
{
    let (addr, id, count) = three(rest)?;
    let addr = address_in(addr)?;
    let id = ranged_u32(1, u32::MAX, id)?;
    let count = ranged_u8(1, 255, count)?;
    set_command(Command::Pay { addr, id, count }, step);
    Some(())
}

/// `path A PLACE PATH`
#[tactic(auto, using(crate::proofs::Forms::no_path))]
pub(crate) fn path_into(rest: Option<&[u8]>, step: &mut Step) -> Option<()>
    ensures { Sets result step.new (path_step (fields_after rest.entry)) IsInRange }
{
    let (addr, place, path) = three(rest)?;
    let addr = address_in(addr)?;
    let place = ranged_u8(0, COIN_PLACES as u8, place)?;
    let path = ranged_u8(1, PATHS, path)?;
    set_command(Command::Path { addr, place, path }, step);
    Some(())
}

/// `route A WAY`
#[tactic(auto, using(crate::proofs::Forms::no_route))]
pub(crate) fn route_into(rest: Option<&[u8]>, step: &mut Step) -> Option<()>
    ensures { Sets result step.new (route_step (fields_after rest.entry)) IsInRange }
{
    let (addr, way) = two(rest)?;
    let addr = address_in(addr)?;
    let way = ranged_u8(RETURN_CODE, STACK_CODE, way)?;
    set_command(Command::Route { addr, way }, step);
    Some(())
}

/// `vend ID PRICE`
#[tactic(auto, using(crate::proofs::Forms::no_vend))]
pub(crate) fn vend_into(rest: Option<&[u8]>, step: &mut Step) -> Option<()>
    ensures { Sets result step.new (vend_step (fields_after rest.entry)) IsInRange }
{
    let (id, price) = two(rest)?;
    let id = ranged_u32(1, u32::MAX, id)?;
    let price = ranged_u32(1, 1_000_000_000, price)?;
    set_command(Command::Vend { id, price }, step);
    Some(())
}

/// `stock A COUNT`
#[tactic(auto, using(crate::proofs::Forms::no_stock))]
pub(crate) fn stock_into(rest: Option<&[u8]>, step: &mut Step) -> Option<()>
    ensures { Sets result step.new (stock_step (fields_after rest.entry)) IsInRange }
{
    let (addr, count) = two(rest)?;
    let addr = address_in(addr)?;
    let count = ranged_u32(0, u32::MAX, count)?;
    *step = Step::Stock { addr, count };
    Some(())
}

/// `change FIRST AMOUNT`
#[tactic(auto, using(crate::proofs::Forms::no_change))]
pub(crate) fn change_into(rest: Option<&[u8]>, step: &mut Step) -> Option<()>
    ensures { Sets result step.new (change_step (fields_after rest.entry)) IsInRange }
{
    let (first, amount) = two(rest)?;
    let first = ranged_u32(1, GREATEST_FIRST, first)?;
    let amount = ranged_u32(1, GREATEST_AMOUNT, amount)?;
    *step = Step::Change { first, amount };
    Some(())
}

/// `crash CHOICE`, `crash A CALLS CHOICE`
#[tactic(auto, using(crate::proofs::Forms::no_crash))]
pub(crate) fn crash_into(rest: Option<&[u8]>, step: &mut Step) -> Option<()>
    ensures { Sets result step.new (crash_step (fields_after rest.entry)) IsInRange }
{
    if let Some(choice) = one(rest) {
        let choice = choice_in(choice)?;
        *step = Step::Crash { at: None, choice };
        return Some(());
    }
    let (addr, calls, choice) = three(rest)?;
    let addr = address_in(addr)?;
    let calls = ranged_u8(0, 4, calls)?;
    let choice = choice_in(choice)?;
    let at = Some(CrashAt { addr, calls });
    *step = Step::Crash { at, choice };
    Some(())
}
