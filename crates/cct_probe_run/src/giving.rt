//! What a bench does: one exchange of a plan, or one line.
ghost use Rattle.std.specs.Prelude.{◌≡◌, ◌≤◌, ◌∷◌, [], List, Result, false, true};
ghost use Rattle.std.specs.List.{Contains};
ghost use Rattle.cct_edge.specs.declared.fault.Failed.{Failed};
ghost use Rattle.cct_model_wire.specs.declared.device.Setup.{Setup};
ghost use Rattle.cct_probe_plan.specs.declared.plan.Trial.{Trial};
ghost use Rattle.cct_probe_plan.specs.Saying.{IsSaid};
ghost use Rattle.cct_probe_run.specs.declared.bench.Exchanged.TheVariants.{Heard, NoCoins};
ghost use Rattle.cct_probe_run.specs.Doing.{IsTooMuch, TellsThat};
ghost use Rattle.cct_probe_run.specs.Broken.{fails};
ghost use Rattle.cct_probe_run.specs.Leaving.{Sent};
ghost use Rattle.cct_probe_run.specs.Plays.{Begun, Given, IsNoEmptyOrder, IsNoOrder, IsOfPlan};
ghost use Rattle.cct_probe_run.specs.Plays.{Plays, PlaysOn, Shows, coins_of};
ghost use Rattle.cct_probe_run.specs.declared.bench.Bench.{Bench};

use crate::bench::{Bench, Exchanged, Plan, Stop};
use crate::telling::{begin_broken, holds_line, push_wire};
use cct_edge::Sink;
use cct_live_port::Line;
use cct_probe_plan::{Ask, Premise, Promise, Say, Trial, Turn, write_say};
use cct_text::TextLine;
use cct_wire::Link;

impl<L: Line, K: Sink> Bench<L, K> {
    /// Makes one exchange with a device, if it orders no more coins than may be.
    pub(crate) fn exchange(&mut self, plan: Plan<'_>, say: Say, turn: Turn<'_>) -> Exchanged
        requires of_plan { IsOfPlan plan.trials.now say }
        requires there { Contains plan.setup.now.devices turn.device.now }
        ensures plays { PlaysOn L.reads L.writes K.puts plan.entry.setup.now plan.entry.trials.now
            self.old self.new }
        ensures bytes { result ≡ Heard → IsSaid say plan.entry.setup.now turn.entry.device.now
            turn.entry.round self.new.sent.items }
        ensures sent { IsNoOrder say → Sent L.reads L.writes K.puts plan.entry.setup.now
            turn.entry.device.now turn.entry.round say self.old self.new }
        ensures heard { result ≡ Heard → Sent L.reads L.writes K.puts plan.entry.setup.now
            turn.entry.device.now turn.entry.round say self.old self.new }
        ensures no_coins { result ≡ NoCoins → IsTooMuch say self.old }
        ensures no_order { result ≡ NoCoins → IsNoOrder say → ⊥ }
    {
        let coins = coins_of(say);
        if !is_order(say) {
            return Exchanged::NoCoins;
        }
        if coins > self.leave.coins - self.asked {
            return Exchanged::NoCoins;
        }
        self.asked += coins;
        self.give(plan, say, turn)
    }

    /// Makes one exchange with a device.
    fn give(&mut self, plan: Plan<'_>, say: Say, turn: Turn<'_>) -> Exchanged
        ensures gives { Given L.reads L.writes plan.entry.setup.now turn.entry.device.now
            turn.entry.round say self.old self.new }
        ensures given { result ≡ NoCoins → ⊥ }
    {
        write_say(say, plan.setup, turn, &mut self.sent);
        self.port.set_gap(gap_before(say, turn));
        let faults = self.port.faults();
        self.port
            .exchange_under(turn.device.kind, self.sent.as_slice(), &mut self.heard);
        if self.port.faults() > faults {
            Exchanged::Fault
        } else {
            Exchanged::Heard
        }
    }

    /// Writes a line that shows no premise broken, by one put.
    pub(crate) fn tell(&mut self, line: &TextLine) -> Result<(), Stop>
        requires other { Begun line.now }
        ensures plays { (setup : Setup) (trials : List Trial) →
            PlaysOn L.reads L.writes K.puts setup trials self.old self.new }
        ensures still { self.new.broken ≡ self.old.broken }
    {
        put(&mut self.out, line.as_slice())
    }

    /// Says that a promise holds, where no premise that it rests on was reported as broken.
    pub(crate) fn tell_holds(&mut self, promise: Promise) -> Result<(), Stop>
        requires kept { fails promise self.old.broken ≡ false }
        ensures plays { (setup : Setup) (trials : List Trial) →
            PlaysOn L.reads L.writes K.puts setup trials self.old self.new }
    {
        put(&mut self.out, holds_line(promise))
    }

    /// Writes the last exchange.
    pub(crate) fn tell_wire(&mut self, addr: u8) -> Result<(), Stop>
        ensures plays { (setup : Setup) (trials : List Trial) →
            PlaysOn L.reads L.writes K.puts setup trials self.old self.new }
    {
        if self.leave.is_quiet {
            return Ok(());
        }
        let line = self.wire_line(addr);
        self.tell(&line)
    }

    /// The line of the last exchange.
    fn wire_line(&self, addr: u8) -> TextLine
        ensures begun { Begun result }
    {
        let mut line = TextLine::new();
        push_wire(&mut line, addr, self.sent.as_slice(), self.heard.as_slice());
        line
    }

    /// Says that the last exchange shows a premise broken, by one put.
    pub(crate) fn tell_broken(
        &mut self,
        addr: u8,
        premise: Premise,
        trial: &Trial,
    ) -> Result<(), Stop>
        ensures plays { (setup : Setup) (trials : List Trial) (first : Bench L K) →
            Contains trials trial.now → Shows setup (trial.now ∷ []) trial.now.premise premise
            self.old.sent.items → Plays L.reads L.writes K.puts setup trials first self.old →
            Plays L.reads L.writes K.puts setup trials first self.new }
        ensures tells { (setup : Setup) (trials : List Trial) → Contains trials trial.now →
            Shows setup (trial.now ∷ []) trial.now.premise premise self.old.sent.items →
            TellsThat L.reads L.writes K.puts setup trials premise self.old self.new }
    {
        let mut line = TextLine::new();
        begin_broken(&mut line, addr, premise, trial.name);
        self.broken = self.broken.and(premise);
        let (sent, heard) = (self.sent.as_slice(), self.heard.as_slice());
        push_wire(&mut line, addr, sent, heard);
        put(&mut self.out, line.as_slice())
    }
}

/// Writes a line, by one put.
fn put<K: Sink>(out: &mut K, line: &[u8]) -> Result<(), Stop>
    ensures { (answer : Result (Unit {0}) Failed) × K.puts out.old line.now answer out.new }
{
    out.put(line)?;
    Ok(())
}

/// How many coins are ordered by what is said.
fn coins_of(say: Say) -> u16
    ensures value { result ≡ coins_of say }
    ensures none { IsNoOrder say → result ≡ 0 }
{
    match say {
        Say::Ask(Ask::Dispense { coins, .. }) => u16::from(coins),
        Say::Ask(_) | Say::Odd(_) | Say::Nothing { .. } => 0,
    }
}

/// Whether what is said is no order of no coin.
fn is_order(say: Say) -> bool
    ensures some { result ≡ true → IsNoEmptyOrder say }
    ensures other { IsNoOrder say → result ≡ true }
    ensures none { result ≡ false → IsNoEmptyOrder say → ⊥ }
{
    match say {
        Say::Ask(Ask::Dispense { coins, .. }) => coins > 0,
        Say::Ask(_) | Say::Odd(_) | Say::Nothing { .. } => true,
    }
}

/// How many silent reads stand before an exchange.
fn gap_before(say: Say, turn: Turn<'_>) -> u16 {
    match say {
        Say::Nothing { at_once } => { if at_once { 0 } else { 1 } }
        Say::Ask(_) | Say::Odd(_) => turn.gap,
    }
}
