// How many records of each kind were read.
ghost use Rattle.std.specs.Prelude.{◌≡◌, ◌+◌, ◌^◌, ◌<◌, replicate, slice_index, slice_set};
ghost use Rattle.layout.specs.Layout.{kind_number};

use layout::kind::Kind;
use names::numbered::{FromNumber, Numbered};
use std::fmt;
use words::Count;

/// Counts of records, by the number of their kind; no record has kind 0.
#[derive(Clone, Copy)]
pub struct Tally {
    // Not a map, whose memory can run out: a summary always answers.
    counts: [u64; 12],
}

impl Tally {
    pub(crate) fn new() -> Tally
        ensures { result.counts ≡ replicate 12 0 }
    {
        Tally { counts: [0; 12] }
    }

    /// Counts one more record of a kind.
    pub(crate) fn note(&mut self, kind: Kind)
        requires { slice_index self.old.counts (kind_number kind) < 2 ^ 60 }
        ensures { self.new.counts ≡ slice_set self.old.counts (kind_number kind) (slice_index self.old.counts (kind_number kind) + 1) }
    {
        let n = usize::from(kind.number());
        self.counts[n] += 1;
    }
}

impl fmt::Display for Tally {
    fn fmt<W: fmt::Write>(&self, f: &mut fmt::Formatter<W>) -> fmt::Result {
        let counts = Kind::cases()
            .iter()
            .map(|&kind| Count {
                records: self.counts[usize::from(kind.number())],
                kind,
            })
            .filter(|count| count.records > 0);
        f.write_joined(counts, ", ")
    }
}
