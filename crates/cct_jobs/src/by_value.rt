//! The moves of a job by value: each is the call of the same move on a job that is lent.
ghost use Rattle.std.specs.Prelude.{◌≡◌, ◌<◌, Some};
ghost use Rattle.cct_model.specs.Rows.{puts_in};
ghost use Rattle.cct_jobs.specs.declared.job.Need.TheVariants as need;
ghost use Rattle.cct_jobs.specs.Ahead.{ahead};
ghost use Rattle.cct_jobs.specs.Jobs.{IsPut, PutsFit, after_put, need_of, sending_of};
ghost use Rattle.cct_jobs.specs.Onward.{GoesOnAfterPut, GoesOnAfterSale, HearsDevice, HearsPolled};
ghost use Rattle.cct_jobs.specs.Onward.{KeepsTo, SendsPoll, SendsToDevice};

use crate::job::{Job, Sending};

impl Job {
    /// The request that the job sends next, as [`Job::request`] gives it. The job stays at its row.
    pub fn sending(self) -> (Sending, Job)
        requires asks { need_of self ≡ need.Exchange }
        ensures same { result.1 ≡ self }
        ensures request { Some result.0 ≡ sending_of self }
        ensures row { SendsToDevice self result.0 }
        ensures scan { SendsPoll self result.0 }
    {
        let sending = self.request();
        (sending, self)
    }

    /// The job after its request was sent, and this was heard, as by [`Job::hear`].
    pub fn heard(self, sent: &[u8], heard: &[u8]) -> Job
        requires asks { need_of self ≡ need.Exchange }
        ensures device { HearsDevice self sent.now heard.now result }
        ensures scan { HearsPolled self sent.now heard.now result }
        ensures keeps { KeepsTo (ahead self) result }
    {
        let mut job = self;
        job.hear(sent, heard);
        job
    }

    /// The job after its record was put, as by [`Job::go_on_after_put`].
    pub fn was_put(self) -> Job
        requires puts { IsPut (need_of self) }
        ensures put { GoesOnAfterPut self result }
        ensures sale { GoesOnAfterSale self result }
        ensures may_put { puts_in (ahead result) < puts_in (ahead self) }
        ensures fits { PutsFit result }
        ensures value { result ≡ after_put self }
    {
        let mut job = self;
        job.go_on_after_put();
        job
    }
}
