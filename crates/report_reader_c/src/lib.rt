// The host's reader of a report for C, as `c/tmc_report.h` declares it: each export calls the function of that name in `report_reader`, and promises what it
// promises. No Rattle crate can rest on a static library, so the functions themselves stand there.
#![tactic(auto)]

ghost use Rattle.std.specs.Prelude.{◌≡◌};
ghost use Rattle.rules.specs.ReportReader.{report_refusal, report_bad_index, report_suspended, report_more, report_identifier, report_granularity, report_count, report_refusal_at, report_address, report_length, report_run_address, report_run_length};

// ---- the whole report

// Why a report is refused, 0 where it is accepted: 8 fewer than 16 bytes, 6 another version than 0, 7 a granularity above 20, 9 More To Report set with no
// descriptors, 8 descriptors not wholly there, 17 a bad descriptor: of length 0, off its unit, or ending past 2^64. The first that hits answers.
#[unsafe(no_mangle)]
pub extern "C" fn tmc_report_refusal(report: &[u8]) -> u8
    ensures { result ≡ report_refusal report.now }
{
    report_reader::tmc_report_refusal(report)
}

// The index of the first bad descriptor where a report is refused with 17, else 0.
#[unsafe(no_mangle)]
pub extern "C" fn tmc_report_bad_index(report: &[u8]) -> u64
    ensures { result ≡ report_bad_index report.now }
{
    report_reader::tmc_report_bad_index(report)
}

// ---- its header

// Whether the controller was suspended: 1 or 0.
#[unsafe(no_mangle)]
pub extern "C" fn tmc_report_suspended(report: &[u8]) -> u8
    ensures { result ≡ report_suspended report.now }
{
    report_reader::tmc_report_suspended(report)
}

// Whether there is more to report: 1 or 0.
#[unsafe(no_mangle)]
pub extern "C" fn tmc_report_more(report: &[u8]) -> u8
    ensures { result ≡ report_more report.now }
{
    report_reader::tmc_report_more(report)
}

// The controller's identifier.
#[unsafe(no_mangle)]
pub extern "C" fn tmc_report_identifier(report: &[u8]) -> u16
    ensures { result ≡ report_identifier report.now }
{
    report_reader::tmc_report_identifier(report)
}

// The granularity n: a unit is 2^n times 4 KiB.
#[unsafe(no_mangle)]
pub extern "C" fn tmc_report_granularity(report: &[u8]) -> u16
    ensures { result ≡ report_granularity report.now }
{
    report_reader::tmc_report_granularity(report)
}

// The number of descriptors.
#[unsafe(no_mangle)]
pub extern "C" fn tmc_report_count(report: &[u8]) -> u32
    ensures { result ≡ report_count report.now }
{
    report_reader::tmc_report_count(report)
}

// ---- its descriptors

// Why the descriptor at an index is refused, 0 where it is there: what the report is refused for, then 33 past the last descriptor.
#[unsafe(no_mangle)]
pub extern "C" fn tmc_report_refusal_at(report: &[u8], index: u64) -> u8
    ensures { result ≡ report_refusal_at report.now index }
{
    report_reader::tmc_report_refusal_at(report, index)
}

// The first address of the run at an index.
#[unsafe(no_mangle)]
pub extern "C" fn tmc_report_address(report: &[u8], index: u64) -> u64
    ensures { result ≡ report_address report.now index }
{
    report_reader::tmc_report_address(report, index)
}

// The length of the run at an index, in units.
#[unsafe(no_mangle)]
pub extern "C" fn tmc_report_length(report: &[u8], index: u64) -> u32
    ensures { result ≡ report_length report.now index }
{
    report_reader::tmc_report_length(report, index)
}

// ---- a run by itself, for a loop over the runs of a report that is not refused

// The first address of the run at an index; 0 where it is not listed or not wholly there.
#[unsafe(no_mangle)]
pub extern "C" fn tmc_report_run_address(report: &[u8], index: u64) -> u64
    ensures { result ≡ report_run_address report.now index }
{
    report_reader::tmc_report_run_address(report, index)
}

// The length of the run at an index, in units; 0 where it is not listed or not wholly there.
#[unsafe(no_mangle)]
pub extern "C" fn tmc_report_run_length(report: &[u8], index: u64) -> u32
    ensures { result ≡ report_run_length report.now index }
{
    report_reader::tmc_report_run_length(report, index)
}
