// Counts of how runs ended.
ghost use Rattle.std.specs.Prelude.{◌≡◌, ◌+◌, ◌<◌, length, sum, slice_index, slice_set};
ghost use Rattle.damage.specs.Trials.{ending};

use crate::trial::run_fresh;
use batch::fault::BatchFault;
use std::fmt;

// How many runs ended without a fault, and with each of the faults 1 to 6.
#[derive(Clone, Copy, Debug, PartialEq, Eq)]
pub struct Tally {
    counts: [u16; 7],
}

impl Tally {
    // One run more.
    fn note(&mut self, fault: Option<BatchFault>)
        requires { sum self.old.counts < 1000 }
        ensures counted { self.new.counts ≡ slice_set self.old.counts (ending fault) (slice_index self.old.counts (ending fault) + 1) }
        ensures total { sum self.new.counts ≡ sum self.old.counts + 1 }
    {
        let end = ending(fault);
        self.counts[end] += 1;
    }
}

// The place of the count for a run that ended so: 0 without a fault, else the fault's number. The counts are printed in this
// order.
fn ending(fault: Option<BatchFault>) -> usize
    ensures value { result ≡ ending fault }
    ensures small { result < 7 }
{
    fault.map_or(0, |fault| usize::from(fault.number()))
}

// Runs a batch with one byte changed to each other value in turn, and leaves the batch as it was.
pub(crate) fn tally_changes(batch: &mut [u8], index: usize) -> Tally
    requires { index < length batch.old }
    ensures each { sum result.counts ≡ 255 }
    ensures restored { batch.new ≡ batch.old }
{
    let original = batch[index];
    let mut tally = Tally { counts: [0; 7] };
    for step in 1..=255u8 {
        batch[index] = original.wrapping_add(step);
        tally.note(run_fresh(batch).fault);
    }
    batch[index] = original;
    tally
}

impl fmt::Display for Tally {
    fn fmt<W: fmt::Write>(&self, f: &mut fmt::Formatter<W>) -> fmt::Result {
        let [clean, cut, kind, map, turn, full, long] = self.counts;
        write!(
            f,
            "{clean} without fault, faults 1 to 6: {cut} {kind} {map} {turn} {full} {long}"
        )
    }
}
