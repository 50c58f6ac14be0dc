// What can be wrong with the input.
use charges::Refusal;
use thiserror::Error;

#[derive(Clone, Copy, PartialEq, Eq, Debug, Error)]
pub enum Complaint {
    #[error("not a number")]
    NotANumber,
    #[error("no reading")]
    NoReading,
    #[error("refused ({}): {}", .0.number(), why(*.0))]
    Refused(#[from] Refusal),
}

// Why a number was not taken.
fn why(refusal: Refusal) -> &'static str {
    match refusal {
        Refusal::Full => "too many readings",
        Refusal::Unlawful => "the reading is not from -1000000 to 1000000",
        _ => "not taken",
    }
}

// A complaint, and the line it is about, counted from 1.
#[derive(Clone, Copy, PartialEq, Eq, Debug, Error)]
#[error("line {line}: {complaint}")]
pub struct Fault {
    pub line: usize,
    pub complaint: Complaint,
}
