// A report (specification, 'The doors'), and its bytes.
ghost use Rattle.std.specs.Prelude.{◌≡◌, length};
ghost use Rattle.shared.specs.Report.{answer_report, report_of, report_bytes, report_size};

use crate::numbers::put;
use crate::refusal::Refused;

// How many bytes a report has.
pub const REPORT_BYTES: usize = 24;

// The refusal's number, or 0, and the report's three numbers.
#[derive(Clone, Copy, Debug, PartialEq, Eq)]
pub struct Report {
    pub refusal: u32,
    pub first: u64,
    pub second: u64,
    pub third: u64,
}

// The report of an answer: the three numbers of a call that succeeds, or its refusal and the place.
pub fn report_answer(answer: Result<[u64; 3], Refused>) -> Report
    ensures { report_of result ≡ answer_report answer }
{
    match answer {
        Ok(numbers) => Report {
            refusal: 0,
            first: numbers[0],
            second: numbers[1],
            third: numbers[2],
        },
        Err(refused) => Report {
            refusal: refused.refusal.number(),
            first: refused.place as u64,
            second: 0,
            third: 0,
        },
    }
}

// Fills the 24 bytes of `report` with the three numbers of `answer`, and returns its refusal's number, or 0.
pub fn put_report(report: &mut [u8], answer: Report) -> u32
    requires { length report.old ≡ report_size }
    ensures refusal { result ≡ (report_of answer).refusal }
    ensures bytes { report.new ≡ report_bytes (report_of answer) }
{
    put(report, 0, answer.first.to_le_bytes());
    put(report, 8, answer.second.to_le_bytes());
    put(report, 16, answer.third.to_le_bytes());
    answer.refusal
}
