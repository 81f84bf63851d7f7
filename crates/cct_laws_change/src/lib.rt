//! Laws of sessions of change, which pay an amount out of several hoppers (`docs/SCRIPT.md`): each
//! is a clause of a function without parameters, whose body is empty, as in `cct_laws`. They hold
//! of every run at the operator's desk of a sound setup, with power cuts at every step, at any
//! pace, whatever else the operator asks the host for. What is paid is said over an honest wire;
//! how many payments a session makes, that it ends, and where it is served, over any.
//!
//! An order is known by its id. The orders of a session are those of its payments that were opened,
//! each by a record that was put or kept in a step before which the payment's own job was running
//! (`specs/Orders.antt`). So an order that the operator's own payment opens later with the same id
//! is none of the session's.
#![tactic(auto)]

ghost use Rattle.std.specs.Prelude.{ℕ, ◌≡◌, ◌+◌, ◌<◌, ◌≤◌, true, sum, ◌++◌, List, [], ◌∷◌, length};
ghost use Rattle.std.specs.Prelude.{false, suc};
ghost use Rattle.std.specs.List.{All, list_any};
ghost use Rattle.cct_model.specs.terms.device.Setup.{Setup};
ghost use Rattle.cct_model.specs.lines.command.Step.{Step};
ghost use Rattle.cct_model.specs.lines.command.Step.TheVariants.{Serve};
ghost use Rattle.cct_model.specs.lines.entry.Entry.{Entry};
ghost use Rattle.cct_model.specs.lines.entry.Entry.TheVariants.{Served, ServeOdd, Short};
ghost use Rattle.cct_model.specs.declared.change.Payment.{Payment};
ghost use Rattle.cct_model.specs.AtDesk.{AtDeskFrom, EntriesAtDesk, LeavesDesk, LegalAtDesk};
ghost use Rattle.cct_model.specs.Change.{Desk};
ghost use Rattle.cct_model.specs.Honest.{Honest};
ghost use Rattle.cct_model.specs.Line.{Line};
ghost use Rattle.cct_model.specs.Paid.{Paid};
ghost use Rattle.cct_model.specs.Plan.{HasNoPlan, IsPlan};
ghost use Rattle.cct_model.specs.Script.{IsInRange};
ghost use Rattle.cct_model.specs.Setup.{IsSoundSetup};
ghost use Rattle.cct_model.specs.Transcript.{onto};
ghost use Rattle.cct_laws.specs.Law.{lines_in};
ghost use Rattle.cct_laws.specs.Scope.{EachHopper};
ghost use Rattle.cct_laws_change.specs.Change.{ChangeIsPaid, EachMoment, IsPaid, IsStillPaid};
ghost use Rattle.cct_laws_change.specs.Change.{IsToldRight, IsWithin};
ghost use Rattle.cct_laws_change.specs.Counted.{AreFreshLines, Counted};
ghost use Rattle.cct_laws_change.specs.Orders.{ComesTo};
ghost use Rattle.cct_laws_change.specs.Course.{AreLeftAlone, Course, CoursesTo, EachCourse};
ghost use Rattle.cct_laws_change.specs.Course.{course_after};
ghost use Rattle.cct_laws_change.specs.Tally.{EachTally, HasPlan, IsSmooth, MakesFew, TalliesTo};
ghost use Rattle.cct_laws_change.specs.Tally.{Tally, most_made, tally_after};
ghost use Rattle.cct_laws_change.specs.Blocks.{AnyBlock, InBlocks, IsReady, IsSmoothBlock};
ghost use Rattle.cct_laws_change.specs.Blocks.{TellsEnd, TellsService, is_refusal};

/// Each order of a hopper is counted right, by its id, over all lines of the hopper. The coins that
/// fell while it was open are never more than its count; where it was closed, they are those that
/// its record says were paid; where it wasn't opened, there are none. It needs no more than that
/// each order is paid once and that each has an id of its own; so it is in every legal transcript
/// over an honest wire. It doesn't say that an order is ever closed.
pub fn each_order_is_counted()
    ensures lines { (lines : List Line) → Paid lines → AreFreshLines lines → Counted lines }
    ensures legal { EachHopper (λ d transcript. Counted (lines_in d transcript)) }
{}

/// Change is paid. The coins that fell at their hoppers for the orders of a session, while these
/// were open, are worth the session's amount where a `serve` says that it was served; where it says
/// that the session fell short, they are worth what it shows as paid, and that and the rest are the
/// amount. At every moment they are worth at most the amount. That the life counts don't fit an
/// order is never reported. From the end of a session until the next one begins, what fell for its
/// orders stays worth what its end reported. `told` is of all entries of a step, whatever it is;
/// `whole` says all this of one run, after each front of its steps; and by `moments` there is such
/// a moment in every run, over any wire. It doesn't say that a session ever ends, nor that it is
/// served where there are coins enough.
pub fn change_is_paid()
    ensures within { EachMoment (λ capacity setup past desk orders. IsWithin setup past orders
        desk.session) }
    ensures stays { EachMoment (λ capacity setup past desk orders. IsStillPaid setup past orders) }
    ensures told { EachMoment (λ capacity setup past desk orders. (s : Step) (news : List Entry)
        → EntriesAtDesk capacity setup past desk s news → All (IsToldRight setup past orders desk.session) news) }
    ensures served { EachMoment (λ capacity setup past desk orders. (amount : ℕ)
        → EntriesAtDesk capacity setup past desk Serve (Served amount ∷ [])
        → IsPaid setup past orders desk.session amount 0) }
    ensures short { EachMoment (λ capacity setup past desk orders. (paid rest : ℕ) (earlier : List Entry)
        → EntriesAtDesk capacity setup past desk Serve (Short paid rest ∷ earlier)
        → IsPaid setup past orders desk.session paid rest) }
    ensures never_odd { EachMoment (λ capacity setup past desk orders. (id : ℕ)
        → EntriesAtDesk capacity setup past desk Serve (ServeOdd id ∷ []) → ⊥) }
    ensures whole { (capacity : ℕ) (setup : Setup) (steps : List Step) (transcript : List Entry)
        → IsSoundSetup setup → All IsInRange steps → LegalAtDesk capacity setup steps transcript → Honest transcript
        → ChangeIsPaid capacity setup steps transcript }
    ensures moments { (capacity : ℕ) (setup : Setup) (played rest : List Step) (transcript : List Entry) (last : Desk)
        → LeavesDesk capacity setup (played ++ rest) transcript last
        → (past : List Entry) × (desk : Desk) × (orders : List Payment)
        × ComesTo capacity setup played past desk orders
        × AtDeskFrom capacity setup past desk rest (onto [] transcript) last }
{}

/// A session makes few payments, over any wire, whatever else the operator asks for: no more than
/// its amount has units, and one for each tray that wasn't empty as it began, and for each later
/// `stock` above 0. For each that is settled lowers what is left of the amount, or empties a tray.
/// So while it runs, its payments, what is left, and the trays that aren't empty are together at
/// most as many, with one more while a payment isn't settled. By `tallied` each run has its tally.
/// It doesn't say that a session ends: a payment may wait for ever to be settled.
pub fn a_session_makes_few_payments()
    ensures few { EachTally (λ capacity setup past desk tally. MakesFew desk tally) }
    ensures tallied { (capacity : ℕ) (setup : Setup) (played rest : List Step) (transcript : List Entry) (last : Desk)
        → LeavesDesk capacity setup (played ++ rest) transcript last
        → (past : List Entry) × (desk : Desk) × (tally : Tally)
        × TalliesTo capacity setup played past desk tally
        × AtDeskFrom capacity setup past desk rest (onto [] transcript) last }
{}

/// A session ends where no fault hinders its payments, over any wire: after as many blocks as it
/// may make payments, and one. A block is a `serve` and then steps up to the next one, in which the
/// job of its payment can end: they have a `next` at its hopper for each of the job's rows, 7, and
/// for each halt; no fault is set for its exchanges, the power isn't cut while it runs, and no coin
/// is left to pay whenever the hopper is asked. The end that is reported among these entries is
/// that the session was served, that it fell short, or that life counts don't fit, which is never
/// reported over an honest wire. Whatever else the operator asks for in between doesn't hinder it.
/// It doesn't say that the session is served; and where the power is cut after the record that
/// opens an order, or three answers to one question are lost, a `serve` waits until the operator
/// settles the order.
pub fn a_session_without_a_fault_ends()
    ensures { (capacity : ℕ) (setup : Setup) (steps : List Step) (past : List Entry) (desk : Desk) (tally : Tally)
        (blocks : List (List Step)) (end : List Entry) (last : Desk) (found : Tally)
        → IsSoundSetup setup → All IsInRange steps → TalliesTo capacity setup steps past desk tally
        → IsReady desk.session → InBlocks tally_after AnyBlock capacity setup past desk tally blocks end last found
        → most_made found < tally.made + length blocks → TellsEnd past end }
{}

/// A session is served exactly where its amount has a plan as it begins, if it goes smoothly and is
/// left alone, over any wire. It goes smoothly as long as no `stock` comes, and each payment that
/// is settled was closed with all its coins paid. It is left alone (`AreLeftAlone`) if it could
/// begin: its amount was available, its first id was above the last one, and no hopper had a job or
/// an open order; if since then no other payment, no sale and no identification of a hopper was
/// taken; and if the journal had room for two records of each of its payments and for those of the
/// commands that were taken since. By `taken` no payment is refused then. Where it is served, its
/// amount had a plan: the trays with their stocks, no more than 255 coins of one. Where it falls
/// short, it had none: a first id and an amount in range are below 2^32 together, so there are ids
/// for all its payments. It makes at most as many payments as any plan of its amount has coins. So
/// in blocks that let the jobs of its payments end, go smoothly and leave it alone, it is served
/// after as many of them as the plan has coins, and one. Settlements, halts, power cuts and
/// whatever is asked of other devices hinder none of this, but for their records.
pub fn a_session_is_served_where_a_plan_is()
    ensures taken { EachCourse (λ capacity setup past desk course. (news : List Entry) → IsSmooth desk course.tally
        → AreLeftAlone capacity setup course (suc course.tally.made)
        → EntriesAtDesk capacity setup past desk Serve news → list_any is_refusal news ≡ false) }
    ensures served { EachTally (λ capacity setup past desk tally. (amount : ℕ) → IsSmooth desk tally
        → EntriesAtDesk capacity setup past desk Serve (Served amount ∷ []) → HasPlan tally.trays tally.amount) }
    ensures short { EachCourse (λ capacity setup past desk course. (paid rest : ℕ) (earlier : List Entry)
        → IsSmooth desk course.tally → AreLeftAlone capacity setup course (suc course.tally.made)
        → EntriesAtDesk capacity setup past desk Serve (Short paid rest ∷ earlier)
        → HasNoPlan course.tally.trays course.tally.amount) }
    ensures ends { (capacity : ℕ) (setup : Setup) (steps : List Step) (past : List Entry) (desk : Desk) (course : Course)
        (blocks : List (List Step)) (end : List Entry) (last : Desk) (found : Course) (counts : List ℕ)
        → IsSoundSetup setup → All IsInRange steps → CoursesTo capacity setup steps past desk course
        → IsReady desk.session → IsSmooth desk course.tally
        → IsPlan course.tally.trays course.tally.amount counts → AreLeftAlone capacity setup course (sum counts)
        → InBlocks course_after (IsSmoothBlock capacity setup (sum counts)) capacity setup past desk course blocks end last found
        → sum counts < course.tally.made + length blocks → TellsService past end }
    ensures payments { EachTally (λ capacity setup past desk tally. (counts : List ℕ) → tally.smooth ≡ true
        → IsPlan tally.trays tally.amount counts → tally.made ≤ sum counts) }
{}
