//! Laws of bills in an escrow: what the end of a `route` says of the bill that was held, and what
//! becomes of each bill that is ever held. Each is a clause of a function without parameters, whose
//! body is empty, as in `cct_laws`. What a bill acceptor holds is read off all that it met, so
//! whatever the wire does the laws on the escrow itself hold.
#![tactic(auto)]

ghost use Rattle.std.specs.Prelude.{ℕ, ◌≡◌, ◌+◌, List, [], ◌∷◌, ◌++◌, length, map};
ghost use Rattle.std.specs.List.{All, filter};
ghost use Rattle.cct_model.specs.terms.device.DeviceSetup.{DeviceSetup};
ghost use Rattle.cct_model.specs.terms.device.Setup.{Setup};
ghost use Rattle.cct_model.specs.terms.request.Request.TheVariants.{RouteBill};
ghost use Rattle.cct_model.specs.lines.command.Command.TheVariants.{Route};
ghost use Rattle.cct_model.specs.lines.command.Step.{Step};
ghost use Rattle.cct_model.specs.lines.command.Step.TheVariants.{Next};
ghost use Rattle.cct_model.specs.lines.command.WireFault.TheVariants.{Clear};
ghost use Rattle.cct_model.specs.lines.entry.Entry.{Entry};
ghost use Rattle.cct_model.specs.lines.entry.Entry.TheVariants.{Ended, Wire};
ghost use Rattle.cct_model.specs.Bill.{bill_events, bill_held, stacked_bills};
ghost use Rattle.cct_model.specs.Device.{IsBill};
ghost use Rattle.cct_model.specs.Exchange.{ask};
ghost use Rattle.cct_model.specs.History.{Met};
ghost use Rattle.cct_model.specs.Job.{job, settled, works};
ghost use Rattle.cct_model.specs.Legal.{Entries, Legal};
ghost use Rattle.cct_model.specs.Reading.{coins_among};
ghost use Rattle.cct_model.specs.Script.{IsInRange};
ghost use Rattle.cct_model.specs.Setup.{IsSoundSetup};
ghost use Rattle.cct_model.specs.Transcript.{heard_after, lines_of, met, onto, pending};
ghost use Rattle.cct_laws.specs.Law.{EachEntry, IsOf};
ghost use Rattle.cct_laws.specs.Scope.{IsCommandFor};
ghost use Rattle.cct_laws_route.specs.Escrow.{held_bills, in_escrow, is_dropped, is_returned};
ghost use Rattle.cct_laws_route.specs.Escrow.{is_stacked, left_bills, place_of, stacked_since};
ghost use Rattle.cct_laws_route.specs.Held.{held_told};
ghost use Rattle.cct_laws_route.specs.Places.{ArePlaced};
ghost use Rattle.cct_laws_route.specs.Routes.{RouteEndsAt, end_of_route};

/// A `route` says what was held, in every legal transcript. Where it ended `routed`, the exchange
/// just before is its own, by the way that was given; and if that was honest, a bill was held. By
/// way 1 that bill was stacked, and so accepted; by way 0 it was given back, and nothing was
/// accepted. Where it ended `routeunsure` though no fault was set for its exchange, none was held.
/// Nothing is asked of the rest of the wire. It doesn't say what became of the bill of a `route`
/// that ended unsure by a fault, nor that a bill is ever posted.
pub fn a_route_tells_what_was_held()
    ensures { (capacity : ℕ) (setup : Setup) (steps : List Step) (transcript : List Entry) (d : DeviceSetup)
        → IsSoundSetup setup → IsOf setup d → All IsInRange steps → Legal capacity setup steps transcript
        → EachEntry (RouteEndsAt d) (onto [] transcript) }
{}

/// A `route` that was just taken ends by its first `next`, where no fault is set for its exchange:
/// `routed` exactly if a bill is held then, and else `routeunsure`. Any entries may come before, of
/// any wire.
pub fn a_route_without_a_fault_ends_by_what_is_held()
    ensures { (capacity : ℕ) (setup : Setup) (past news : List Entry) (d : DeviceSetup) (way : ℕ)
        → IsCommandFor setup d (Route d.addr way) → job (lines_of d past) ≡ works (Route d.addr way) []
        → pending past ≡ Clear → Entries capacity setup past (Next d.addr) news
        → news ≡ Ended d.addr (end_of_route (bill_held (met d past)))
        ∷ Wire d.addr (ask d.kind d.addr (RouteBill way)) (heard_after setup past (ask d.kind d.addr (RouteBill way)))
        ∷ [] }
{}

/// Each bill that was ever held left the escrow once, or is held still, whatever a bill acceptor
/// met. All that were held, in their order, are the one that is held and those that were stacked,
/// given back by a request, or given back by a reset; so they are as many. Those that were stacked
/// are just as many as the accept counter counts. The coins among the events, as they are judged,
/// are just the bills that were stacked since the last reset: so no bill is both given back and
/// credited, nor one that is held. That needs places from 1 on, which all bills of a legal
/// transcript have. The lines `held` of a legal transcript show just the bills that were held,
/// whatever its wire does.
pub fn each_held_bill_leaves_once()
    ensures in_order { (past : List Met) → held_bills past ≡ in_escrow past
        ++ map place_of (left_bills past) }
    ensures counted { (past : List Met)
        → length (held_bills past) ≡ stacked_bills past + length (filter is_returned (left_bills past))
        + length (filter is_dropped (left_bills past)) + length (in_escrow past) }
    ensures stacked { (past : List Met) → length (filter is_stacked (left_bills past))
        ≡ stacked_bills past }
    ensures credited { (past : List Met) → ArePlaced past
        → coins_among (map settled (bill_events past)) ≡ stacked_since past }
    ensures told { (capacity : ℕ) (setup : Setup) (steps : List Step) (transcript : List Entry) (d : DeviceSetup)
        → IsOf setup d → IsBill d.body → Legal capacity setup steps transcript
        → held_told d (onto [] transcript) ≡ held_bills (met d (onto [] transcript)) }
    ensures placed { (capacity : ℕ) (setup : Setup) (steps : List Step) (transcript : List Entry) (d : DeviceSetup)
        → All IsInRange steps → Legal capacity setup steps transcript → ArePlaced (met d (onto [] transcript)) }
{}
