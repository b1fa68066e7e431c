//! What `certify` has read.

use apt_machine::Machine;
use apt_records::Record;
use apt_report::Status;

/// The text of a part, the machine of a table, the records of a CL file, and the first place, from 1, at which the acts
/// of a tape differ from their plan. What has a fault stands as the answer to it.
#[derive(Drop)]
pub(crate) struct Evidence {
    pub text: Vec<u8>,
    pub machine: Result<Machine, Status>,
    pub records: Result<Vec<Record>, Status>,
    /// None too where there is no machine, or no records, by which the tape could be compared.
    pub difference: Result<Option<u64>, Status>,
}
