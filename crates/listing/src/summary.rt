// What was read of a section, in all.
use crate::tally::Tally;
use faults::RecordFault;
use std::fmt;
use words::Refused;

/// What was read of a section: how many records of which kinds, and why it stopped before the
/// end, if it did.
#[derive(Clone, Copy)]
pub struct Summary {
    pub records: usize,
    pub tally: Tally,
    pub fault: Option<RecordFault>,
}

impl fmt::Display for Summary {
    fn fmt<W: fmt::Write>(&self, f: &mut fmt::Formatter<W>) -> fmt::Result {
        let records = self.records;
        let tally = self.tally;
        if let Some(fault) = self.fault {
            write!(f, "{}; before it ", Refused(fault))?;
        }
        match records {
            0 => write!(f, "no records"),
            1 => write!(f, "1 record: {tally}"),
            _ => write!(f, "{records} records: {tally}"),
        }
    }
}
