//! One exchange of a job over a link, and what becomes of the job.
ghost use Rattle.std.specs.Prelude.{◌≡◌, ◌<◌, ◌≤◌, ◌++◌, ◌∷◌, [], Some, None, IfSome, is_some};
ghost use Rattle.std.specs.Prelude.{true};
ghost use Rattle.arrayvec.specs.ArrayVec.{array_vec_len};
ghost use Rattle.cct_model.specs.lines.entry.Entry.TheVariants as told;
ghost use Rattle.cct_jobs.specs.Ahead.{ahead};
ghost use Rattle.cct_jobs.specs.Jobs.{end_of_job, need_of, sending_of};
ghost use Rattle.cct_jobs.specs.Onward.{KeepsTo};
ghost use Rattle.cct_jobs.specs.declared.job.Need.TheVariants as need;
ghost use Rattle.cct_host.specs.Exchange.{Converses, Ends, Exchanges, Fills, Puts, Talks, TellsEnd};
ghost use Rattle.cct_host.specs.Held.{FitsIn, due_by, piece_of};
ghost use Rattle.cct_host.specs.Report.{is_exchange, kept};
ghost use Rattle.cct_host.specs.Running.{is_running};

use arrayvec::ArrayVec;
use cct_jobs::Job;
use cct_model::{Entry, Piece, Record, Sent};
use cct_msg::encode_request;
use cct_wire::Link;

/// A job sends its request over a link, and hears what follows. The exchange replaces the last
/// entry of the report.
fn converse<L: Link>(job: &mut Job, addr: u8, link: &mut L, report: &mut ArrayVec<Entry, 8>)
    requires asks { need_of job.old ≡ need.Exchange }
    requires last { 1 ≤ array_vec_len report.old }
    ensures converses { Converses L.gives link.old link.new addr job.old job.new
        (kept report.old.items) report.new.items }
    ensures len { array_vec_len report.new ≡ array_vec_len report.old }
    ensures keeps { KeepsTo (ahead job.old) job.new }
{
    let index = report.len() - 1;
    match report.get_mut(index) {
        Some(said) => fill(job, link, addr, said),
        None => unreachable!(),
    }
}

/// A job sends its request over a link, and hears what follows. The pieces of an entry are filled
/// where they stand.
fn fill<L: Link>(job: &mut Job, link: &mut L, addr: u8, said: &mut Entry)
    requires asks { need_of job.old ≡ need.Exchange }
    ensures fills { Fills L.gives link.old link.new addr job.old job.new said.new }
    ensures keeps { KeepsTo (ahead job.old) job.new }
{
    make_exchange(said);
    match said {
        Entry::Wire {
            addr: at,
            sent,
            heard,
        } => {
            *at = addr;
            talk(job, link, sent, heard);
        }
        _ => unreachable!(),
    }
}

/// Makes an entry one of an exchange. One that is of another exchange stays, so that no byte of it
/// is written.
fn make_exchange(said: &mut Entry)
    ensures { is_exchange said.new ≡ true }
{
    match said {
        Entry::Wire { .. } => {}
        _ => make_new_exchange(said),
    }
}

/// Makes an entry one of an exchange without a byte.
#[inline(never)]
fn make_new_exchange(said: &mut Entry)
    ensures { is_exchange said.new ≡ true }
{
    *said = Entry::Wire {
        addr: 0,
        sent: Sent::new(),
        heard: Piece::new(),
    };
}

/// A job sends its request over a link, and hears what follows. The two pieces are put in the place
/// of what they hold.
fn talk<L: Link>(job: &mut Job, link: &mut L, sent: &mut Sent, heard: &mut Piece)
    requires asks { need_of job.old ≡ need.Exchange }
    ensures asks { piece_of (sending_of job.old) ≡ Some sent.new }
    ensures goes { L.gives link.old sent.new heard.new link.new }
    ensures talks { Talks job.old sent.new heard.new job.new }
    ensures keeps { KeepsTo (ahead job.old) job.new }
{
    let sending = job.request();
    encode_request(
        sending.kind,
        sending.to,
        &sending.request,
        sent.as_array_mut(),
    );
    link.exchange_under(sending.kind, sent.as_slice(), heard.as_array_mut());
    job.hear(sent.as_slice(), heard.as_slice());
}

/// The job at a desk makes one exchange over a link, which replaces the last entry of the report. A
/// job that is then done leaves the desk, and the report has its end.
pub(crate) fn exchange<L: Link>(
    at_desk: &mut Option<Job>,
    addr: u8,
    link: &mut L,
    report: &mut ArrayVec<Entry, 8>,
)
    requires there { is_some at_desk.old ≡ true }
    requires running { is_running at_desk.old ≡ true }
    requires asks { due_by at_desk.old ≡ None }
    requires last { 1 ≤ array_vec_len report.old }
    requires room { array_vec_len report.old ≤ 7 }
    ensures running { is_running at_desk.new ≡ true }
    ensures fits { FitsIn at_desk.new }
    ensures exchanges { IfSome at_desk.old (λ job. Exchanges L.gives link.old link.new addr job at_desk.new
        (kept report.old.items) report.new.items) }
{
    let is_done = match at_desk {
        Some(job) => {
            converse(job, addr, link, report);
            tell_end(job, addr, report)
        }
        None => unreachable!(),
    };
    if is_done {
        leave(at_desk);
    }
}

/// The record of the job at a desk was put: the put replaces the last entry of the report, and the
/// job goes on. A job that is then done leaves the desk, and the report has its end.
pub(crate) fn put(
    at_desk: &mut Option<Job>,
    entry: &Record,
    addr: u8,
    report: &mut ArrayVec<Entry, 8>,
)
    requires there { is_some at_desk.old ≡ true }
    requires due { due_by at_desk.old ≡ Some entry.now }
    requires last { 1 ≤ array_vec_len report.old }
    requires room { array_vec_len report.old ≤ 7 }
    ensures running { is_running at_desk.new ≡ true }
    ensures fits { FitsIn at_desk.new }
    ensures puts { IfSome at_desk.old (λ job. Puts addr job entry.now at_desk.new
        (kept report.old.items) report.new.items) }
{
    tell_put(report, entry.copied());
    let is_done = match at_desk {
        Some(job) => {
            job.go_on_after_put();
            tell_end(job, addr, report)
        }
        None => unreachable!(),
    };
    if is_done {
        leave(at_desk);
    }
}

/// The put of a record replaces the last entry of a report.
fn tell_put(report: &mut ArrayVec<Entry, 8>, entry: Record)
    requires last { 1 ≤ array_vec_len report.old }
    ensures told { report.new.items ≡ kept report.old.items ++ told.Put entry ∷ [] }
    ensures len { array_vec_len report.new ≡ array_vec_len report.old }
{
    let index = report.len() - 1;
    match report.get_mut(index) {
        Some(last) => make_put(last, entry),
        None => unreachable!(),
    }
}

/// Makes an entry that of the put of a record. In that of another put only the record is written.
fn make_put(said: &mut Entry, entry: Record)
    ensures { said.new ≡ told.Put entry }
{
    match said {
        Entry::Put(record) => *record = entry,
        _ => *said = Entry::Put(entry),
    }
}

/// An entry replaces the last one of a report.
#[inline(always)]
pub(crate) fn tell_over(report: &mut ArrayVec<Entry, 8>, entry: Entry)
    requires last { 1 ≤ array_vec_len report.old }
    ensures told { report.new.items ≡ kept report.old.items ++ entry ∷ [] }
    ensures len { array_vec_len report.new ≡ array_vec_len report.old }
{
    let index = report.len() - 1;
    match report.get_mut(index) {
        Some(last) => *last = entry,
        None => unreachable!(),
    }
}

/// A job leaves its desk.
#[inline(never)]
fn leave(at_desk: &mut Option<Job>)
    ensures { at_desk.new ≡ None }
{
    *at_desk = None;
}

/// A job that is done adds its end to the report, and one that runs adds nothing. The answer is
/// whether it is done.
#[tactic(auto, using(crate::proofs::Talks::ends_known))]
fn tell_end(job: &Job, addr: u8, report: &mut ArrayVec<Entry, 8>) -> bool
    requires { array_vec_len report.old < 8 }
    ensures done { result ≡ is_some (end_of_job job.now) }
    ensures ends { Ends job.now (end_of_job job.now) }
    ensures tells { TellsEnd (end_of_job job.now) addr report.old.items report.new.items }
{
    let is_done = job.is_done();
    if is_done {
        add_end(job, addr, report);
    }
    is_done
}

/// Adds the end of a job that is done to the report. An end is wide: in a function of its own it is
/// made where it is reported.
#[inline(never)]
fn add_end(job: &Job, addr: u8, report: &mut ArrayVec<Entry, 8>)
    requires room { array_vec_len report.old < 8 }
    requires done { is_some (end_of_job job.now) ≡ true }
    ensures tells { TellsEnd (end_of_job job.now) addr report.old.items report.new.items }
{
    match job.end() {
        Some(end) => report.push(Entry::Ended { addr, end }),
        None => unreachable!(),
    }
}
