use mt_dump::{DumpFault, GivenDump, read_given};
use mt_output::dump_reason_text;
use mt_text::LONGEST_INPUT;
use std::alloc::AllocError;
use thiserror::Error;

/// Why there is no report.
#[derive(Debug, Drop, Error)]
pub enum NoReport {
    #[error(transparent)]
    Memory(#[from(alloc)] AllocError),
    #[error("more than 16 MB")]
    TooLong,
    #[error("{line}:{column}: {reason}")]
    NoDump {
        line: u64,
        column: u64,
        reason: &'static str,
    },
    #[error("the address is beyond {0} bits")]
    NoPage(u8),
    #[error("not accepted: {0} is at fault; mtrr-explain faults says why")]
    Refused(String),
    #[error("E of IA32_MTRR_DEF_TYPE is clear: the MTRRs are off")]
    Disabled,
    #[error("the map's ranges aren't in ascending order")]
    NotInOrder,
    #[error("it has {0} maps; mtrr-import memory auto table=N takes one")]
    SeveralMaps(u64),
    #[error("more than 512 runs of pages")]
    ManyRuns,
    #[error("it has processors 0 to {0}")]
    NoProcessor(usize),
    #[error("its processors are unlike; --like K takes the registers of processor K for all")]
    Unlike,
    #[error("{0}")]
    NoMend(String),
    #[error("{0}")]
    NoForm(&'static str),
}

fn no_dump(fault: DumpFault) -> NoReport {
    NoReport::NoDump {
        line: fault.place.line,
        column: fault.place.column,
        reason: str::from_utf8(dump_reason_text(fault.reason)).unwrap_or("no dump"),
    }
}

/// The dump that a text shows, of at most `LONGEST_INPUT` bytes. Fails with `TooLong` or with `NoDump`.
pub fn given_by(text: &[u8]) -> Result<GivenDump, NoReport> {
    if text.len() > LONGEST_INPUT {
        return Err(NoReport::TooLong);
    }
    match read_given(text) {
        Ok(given) => Ok(given),
        Err(fault) => Err(no_dump(fault)),
    }
}
