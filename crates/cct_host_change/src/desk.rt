//! The desk of the operator.
ghost use Rattle.std.specs.Prelude.{◌≡◌, ◌≤◌, ◌∷◌, [], IfOk, List, Some, None, IsTrue, false};
ghost use Rattle.std.specs.Prelude.{is_none, is_some, reverse};
ghost use Rattle.std.specs.Option.{option_map};
ghost use Rattle.cct_model.specs.lines.command.Command.TheVariants as command;
ghost use Rattle.cct_model.specs.lines.command.Step.TheVariants as step;
ghost use Rattle.cct_model.specs.lines.command.TheConstants.{GREATEST_AMOUNT};
ghost use Rattle.cct_model.specs.lines.entry.Entry.{Entry};
ghost use Rattle.cct_model.specs.lines.entry.Entry.TheVariants as entry;
ghost use Rattle.cct_model.specs.declared.change.Session.{Session};
ghost use Rattle.cct_model.specs.Change.{change_entry, clear_desk, desk_after, gone_on};
ghost use Rattle.cct_model.specs.Change.{session_after, settled, settled_trays, short_entry};
ghost use Rattle.cct_host_change.specs.Serving.{GoesOnBy, IsInBounds, ServesBy, change_told};

use crate::paying::{next_payment, settle};
use crate::seeing::phase_after;
use crate::trays::{NewStock, add_trays, restock};
use arrayvec::ArrayVec;
use cct_model::{Due, Entry, Payment, Phase, Session, Setup, Tray};
use cct_plan::{TRAYS, Table};
use std::alloc::{AllocError, Global};
use std::marker::Model;

/// How a session of change ended with a rest, in units of the setup's values.
#[derive(Clone, Copy, PartialEq, Eq)]
pub struct Shortfall {
    /// So much of its amount was paid.
    pub paid: u32,
    /// So much wasn't, 1 to 10,000.
    pub rest: u32,
}

/// What a `serve` comes to (`docs/SCRIPT.md`).
#[derive(Clone, Copy, PartialEq, Eq)]
pub enum Serving {
    /// No session runs.
    Idle,
    /// The session waits for its payment at this hopper.
    Wait { addr: u8 },
    /// The session ended, since the life counts of this order don't fit it.
    Odd { id: u32 },
    /// The session ended: this is its amount, and all of it was paid.
    Served { amount: u32 },
    /// The session ended, as no payment of the rest is possible.
    Short(Shortfall),
    /// The host is to be given this payment. Whether it takes it is reported by [`Desk::taken`] or
    /// [`Desk::refused`].
    Pay(Payment),
}

/// The desk of the operator: the session of change that runs, if one does, and the coins in each
/// hopper as the operator counted them. It outlives a power cut of the host. All stocks are 0 at
/// first.
///
/// A contract sees the session and the trays.
#[derive(Drop)]
pub struct Desk {
    session: Option<Session>,
    trays: ArrayVec<Tray, TRAYS>,
    table: Table,
}

impl Model for Desk {
    ghost use Rattle.std.specs.Prelude.{◌≤◌, length};
    ghost use Rattle.std.specs.Option.{IfSome};
    ghost use Rattle.cct_plan.specs.declared.tray.TheConstants.{TRAYS};
    ghost use Rattle.cct_model.specs.Change as change;
    ghost use Rattle.cct_host_change.specs.Serving.{IsInBounds};

    ghost Value = { change.Desk };

    ghost view = { λ s. record { session = s.session; trays = s.trays.items } };

    ghost invariant = { λ s. IfSome s.session IsInBounds × (length s.trays.items ≤ TRAYS) };
}

impl Desk {
    /// A desk at which nothing was done, with a tray for each hopper of a setup. This takes all
    /// memory that it ever has.
    ///
    /// Fails only where there is no memory for its table of plans.
    pub fn new(alloc: Global, setup: &Setup) -> Result<Desk, AllocError>
        ensures { IfOk result (λ desk. desk ≡ clear_desk setup.now) }
    {
        let mut trays = ArrayVec::new();
        add_trays(setup.devices.as_slice(), &mut trays);
        Ok(Desk {
            session: None,
            trays,
            table: Table::new(alloc)?,
        })
    }

    /// The operator counted the coins of a hopper.
    pub fn stock(&mut self, addr: u8, count: u32)
        ensures { (news : List Entry) → self.new
            ≡ desk_after (step.Stock addr count) news self.old }
    {
        restock(self.trays.as_mut_slice(), addr, NewStock::Counted(count));
    }

    /// The operator wants an amount, 1 to 10,000, to be paid out; the first payment has the id
    /// `first`. None begins where a session runs, nor where `first` is 0, which is no payment's id;
    /// the answer is then `false`.
    pub fn change(&mut self, first: u32, amount: u32) -> bool
        requires amount { amount ≤ GREATEST_AMOUNT }
        ensures told { 1 ≤ first → change_entry first amount self.old.session
            ≡ change_told first amount result }
        ensures desk { 1 ≤ first → (news : List Entry) → self.new
            ≡ desk_after (step.Change first amount) news self.old }
        ensures none { first ≡ 0 → (result ≡ false) × (self.new ≡ self.old) }
    {
        if first == 0 {
            return false;
        }
        match self.session {
            Some(_) => false,
            None => {
                self.session = Some(Session {
                    amount,
                    rest: amount,
                    next: first as u64,
                    due: None,
                });
                true
            }
        }
    }

    /// The session goes on, as far as it can. Where it is to pay, the host is asked next, and its
    /// answer is reported by [`Desk::taken`] or [`Desk::refused`].
    pub fn serve(&mut self) -> Serving
        ensures { ServesBy result self.old self.new }
    {
        match self.session {
            None => Serving::Idle,
            Some(session) => match session.due {
                None => self.go_on(session),
                Some(due) => self.serve_due(session, due),
            },
        }
    }

    /// The same of a session with a payment that isn't settled.
    fn serve_due(&mut self, session: Session, due: Due) -> Serving
        requires runs { self.old.session ≡ Some session }
        requires due { session.due ≡ Some due }
        requires bounds { IsInBounds session }
        ensures { ServesBy result self.old self.new }
    {
        match due.phase {
            Phase::Begun => Serving::Wait {
                addr: due.payment.addr,
            },
            Phase::Opened => Serving::Wait {
                addr: due.payment.addr,
            },
            Phase::Odd => {
                self.session = None;
                Serving::Odd { id: due.payment.id }
            }
            Phase::Closed { .. } => self.settle_and_go_on(session, due),
            Phase::Lost => self.settle_and_go_on(session, due),
        }
    }

    /// The session settles its payment, and goes on.
    fn settle_and_go_on(&mut self, session: Session, due: Due) -> Serving
        requires bounds { IsInBounds session }
        ensures { GoesOnBy result (settled_trays due self.old.trays)
            (settled self.old.trays due session) self.new }
    {
        let session = settle(self.trays.as_mut_slice(), &session, due);
        self.go_on(session)
    }

    /// A session whose payments are settled is over where nothing is left, and else it pays on, if
    /// it can.
    fn go_on(&mut self, session: Session) -> Serving
        requires bounds { IsInBounds session }
        ensures { GoesOnBy result self.old.trays session self.new }
    {
        if session.rest == 0 {
            self.session = None;
            return Serving::Served {
                amount: session.amount,
            };
        }
        match next_payment(&mut self.table, self.trays.as_slice(), &session) {
            Some(payment) => {
                self.session = Some(session);
                Serving::Pay(payment)
            }
            None => {
                self.session = None;
                Serving::Short(shortfall_of(&session))
            }
        }
    }

    /// The host took the payment that [`Desk::serve`] asked for.
    pub fn taken(&mut self, payment: Payment)
        requires { option_map (λ s. s.next) self.old.session ≡ Some payment.id }
        ensures { (s : Session) → self.old.session ≡ Some s → self.new
            ≡ gone_on (entry.Taken (command.Pay payment.addr payment.id payment.count) ∷ []) self.old.trays s }
    {
        match self.session {
            Some(session) => {
                self.session = Some(Session {
                    amount: session.amount,
                    rest: session.rest,
                    next: session.next + 1,
                    due: Some(Due {
                        payment,
                        phase: Phase::Begun,
                    }),
                });
            }
            None => unreachable!(),
        }
    }

    /// The host refused the payment that [`Desk::serve`] asked for, so the session is over.
    pub fn refused(&mut self) -> Shortfall
        requires { IsTrue (is_some self.old.session) }
        ensures told { (s : Session) → self.old.session ≡ Some s →
            entry.Short result.paid result.rest ≡ short_entry s }
        ensures desk { self.new ≡ record { session = None; trays = self.old.trays } }
    {
        match self.session {
            Some(session) => {
                self.session = None;
                shortfall_of(&session)
            }
            None => unreachable!(),
        }
    }

    /// A step that is none of the desk's had these entries, oldest first.
    #[inline(always)]
    pub fn see(&mut self, report: &[Entry])
        ensures { self.new ≡ record {
          session = option_map (session_after (reverse report.now)) self.old.session;
          trays = self.old.trays;
        } }
    {
        if let Some(session) = self.session {
            if let Some(due) = session.due {
                self.session = Some(Session {
                    amount: session.amount,
                    rest: session.rest,
                    next: session.next,
                    due: Some(Due {
                        payment: due.payment,
                        phase: phase_after(due.payment, report, due.phase),
                    }),
                });
            }
        }
    }
}

/// What of a session's amount was paid and what not.
fn shortfall_of(session: &Session) -> Shortfall
    requires { IsInBounds session.now }
    ensures { entry.Short result.paid result.rest ≡ short_entry session.now }
{
    Shortfall {
        paid: session.amount - session.rest,
        rest: session.rest,
    }
}
