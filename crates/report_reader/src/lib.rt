// The host's reader of a report (document 02, W1), for C: each function is given the report's bytes, and where it says so an index, and answers one
// number. Any bytes and any index are met with an answer. A refused report answers 0 to every question but those for its refusal and for a run by itself.
// The numbers are no Options and Results, as C asks for them.
#![tactic(auto)]

ghost use Rattle.std.specs.Prelude.{◌≡◌, ◌+◌, ◌*◌, ◌≤◌, length, IfOk};
ghost use Rattle.std.specs.declared.option.Option.TheVariants.{None, Some};
ghost use Rattle.little.specs.Little.{records_at};
ghost use Rattle.rules.specs.Refusals.{verdict, refused_by};
ghost use Rattle.rules.specs.Report.{range_of};
ghost use Rattle.rules.specs.ReportReader.{report_size, count_in, granularity_in, descriptor_at, descriptor_tests, more_of_none, report_refusal, report_bad_index, report_suspended, report_more, report_identifier, report_granularity, report_count, report_refusal_at, report_address, report_length, run_there, report_run_address, report_run_length};
ghost use Rattle.report_reader.specs.Inner.{number_in, index_in};

use rules::{Range, Refusal};

// Why a report is refused, and the index of the descriptor that this is about, 0 where it is about none.
#[derive(Clone, Copy, Debug, PartialEq, Eq)]
pub struct ReportRefusal {
    pub refusal: Refusal,
    pub index: usize,
}

impl From<Refusal> for ReportRefusal {
    ghost from_gives = { λ r bad. bad ≡ record { refusal = r; index = 0 } };

    fn from(refusal: Refusal) -> ReportRefusal {
        ReportRefusal { refusal, index: 0 }
    }
}

impl From<ReportRefusal> for Refusal {
    ghost from_gives = { λ bad r. r ≡ bad.refusal };

    fn from(bad: ReportRefusal) -> Refusal {
        bad.refusal
    }
}

// ---- the whole report

// The granularity, in its 16 bits.
fn granularity_in(report: &[u8]) -> u16
    requires { report_size 0 ≤ length report.now }
    ensures { result ≡ granularity_in report.now }
{
    little::read::<u16>(report, 8)
}

// The number of descriptors.
fn count_in(report: &[u8]) -> u32
    requires { report_size 0 ≤ length report.now }
    ensures { result ≡ count_in report.now }
{
    little::read::<u32>(report, 4)
}

// The descriptor in the 16 bytes from index `at` on, as a range.
fn read_range(report: &[u8], at: usize) -> Range
    requires { at + 16 ≤ length report.now }
    ensures { result ≡ range_of (descriptor_at report.now at) }
{
    let start = little::read::<u64>(report, at);
    let length = little::read::<u32>(report, at + 8);
    Range { start, length }
}

// The index of the first bad one of n descriptors, if one is.
fn first_bad(report: &[u8], g: u8, n: usize) -> Option<usize>
    requires { (g ≤ 20) × (report_size n ≤ length report.now) }
    ensures { result ≡ verdict (descriptor_tests g 0 (records_at descriptor_at 16 report.now 16 n)) None (λ k i. Some i) }
{
    for i in 0..n {
        let r = read_range(report, 16 + 16 * i);
        if !ranges::range_ok(g, r) {
            return Some(i);
        }
    }
    None
}

// Whether More To Report is set with no descriptors.
fn more_of_none(report: &[u8]) -> bool
    requires { report_size 0 ≤ length report.now }
    ensures { result ≡ more_of_none report.now }
{
    count_in(report) == 0 && report[1] % 2 == 1
}

// Why a report is refused, if it is. The order of the tests is that of `tmc_report_refusal`.
#[tactic(auto, unfolding(rules::specs::ReportReader::report_tests))]
fn judge(report: &[u8]) -> Result<(), ReportRefusal>
    ensures number { number_in result ≡ report_refusal report.now }
    ensures index { index_in result ≡ report_bad_index report.now }
{
    if report.len() < 16 {
        return Err(ReportRefusal::from(Refusal::Short));
    }
    if report[0] != 0 {
        return Err(ReportRefusal::from(Refusal::Version));
    }
    let g = granularity_in(report);
    if g > 20 {
        return Err(ReportRefusal::from(Refusal::Granularity));
    }
    if more_of_none(report) {
        return Err(ReportRefusal::from(Refusal::Empty));
    }
    let n = count_in(report) as usize;
    if report.len() < 16 + 16 * n {
        return Err(ReportRefusal::from(Refusal::Short));
    }
    if let Some(index) = first_bad(report, g as u8, n) {
        let refusal = Refusal::Descriptor;
        return Err(ReportRefusal { refusal, index });
    }
    Ok(())
}

// Why a report is refused, 0 where it is accepted: 8 fewer than 16 bytes, 6 another version than 0, 7 a granularity above 20, 9 More To Report set with no
// descriptors, 8 descriptors not wholly there, 17 a bad descriptor: of length 0, off its unit, or ending past 2^64. The first that hits answers.
#[unsafe(no_mangle)]
pub extern "C" fn tmc_report_refusal(report: &[u8]) -> u8
    ensures { result ≡ report_refusal report.now }
{
    match judge(report) {
        Ok(()) => 0,
        Err(bad) => bad.refusal.number(),
    }
}

// The index of the first bad descriptor where a report is refused with 17, else 0.
#[unsafe(no_mangle)]
pub extern "C" fn tmc_report_bad_index(report: &[u8]) -> u64
    ensures { result ≡ report_bad_index report.now }
{
    match judge(report) {
        Ok(()) => 0,
        Err(bad) => bad.index as u64,
    }
}

// ---- its header

// Whether the controller was suspended: 1 or 0.
#[unsafe(no_mangle)]
pub extern "C" fn tmc_report_suspended(report: &[u8]) -> u8
    ensures { result ≡ report_suspended report.now }
{
    if tmc_report_refusal(report) != 0 {
        return 0;
    }
    report[1] / 2 % 2
}

// Whether there is more to report: 1 or 0.
#[unsafe(no_mangle)]
pub extern "C" fn tmc_report_more(report: &[u8]) -> u8
    ensures { result ≡ report_more report.now }
{
    if tmc_report_refusal(report) != 0 {
        return 0;
    }
    let attributes = report[1];
    attributes % 2
}

// The controller's identifier.
#[unsafe(no_mangle)]
pub extern "C" fn tmc_report_identifier(report: &[u8]) -> u16
    ensures { result ≡ report_identifier report.now }
{
    if tmc_report_refusal(report) != 0 {
        return 0;
    }
    little::read::<u16>(report, 2)
}

// The granularity n: a unit is 2^n times 4 KiB.
#[unsafe(no_mangle)]
pub extern "C" fn tmc_report_granularity(report: &[u8]) -> u16
    ensures { result ≡ report_granularity report.now }
{
    if tmc_report_refusal(report) != 0 {
        return 0;
    }
    granularity_in(report)
}

// The number of descriptors.
#[unsafe(no_mangle)]
pub extern "C" fn tmc_report_count(report: &[u8]) -> u32
    ensures { result ≡ report_count report.now }
{
    if tmc_report_refusal(report) != 0 {
        return 0;
    }
    count_in(report)
}

// ---- its descriptors

// The byte at which the descriptor at an index begins. Refused as `tmc_report_refusal_at` is.
fn descriptor_place(report: &[u8], index: u64) -> Result<usize, Refusal>
    ensures number { refused_by result ≡ report_refusal_at report.now index }
    ensures place { IfOk result (λ at. (at ≡ 16 + 16 * index) × (at + 16 ≤ length report.now)) }
{
    judge(report)?;
    if count_in(report) as u64 <= index {
        return Err(Refusal::Index);
    }
    Ok(16 + 16 * (index as usize))
}

// Why the descriptor at an index is refused, 0 where it is there: what the report is refused for, then 33 past the last descriptor.
#[unsafe(no_mangle)]
pub extern "C" fn tmc_report_refusal_at(report: &[u8], index: u64) -> u8
    ensures { result ≡ report_refusal_at report.now index }
{
    match descriptor_place(report, index) {
        Ok(_) => 0,
        Err(refusal) => refusal.number(),
    }
}

// The first address of the run at an index.
#[unsafe(no_mangle)]
pub extern "C" fn tmc_report_address(report: &[u8], index: u64) -> u64
    ensures { result ≡ report_address report.now index }
{
    match descriptor_place(report, index) {
        Ok(place) => little::read::<u64>(report, place),
        Err(_) => 0,
    }
}

// The length of the run at an index, in units.
#[unsafe(no_mangle)]
pub extern "C" fn tmc_report_length(report: &[u8], index: u64) -> u32
    ensures { result ≡ report_length report.now index }
{
    match descriptor_place(report, index) {
        Ok(place) => little::read::<u32>(report, place + 8),
        Err(_) => 0,
    }
}

// ---- a run by itself, for a loop over the runs of a report that is not refused: no other descriptor is looked at, and the answers are those above

// Whether the descriptor at an index is listed and wholly there.
fn run_there(report: &[u8], index: u64) -> bool
    ensures { result ≡ run_there report.now index }
{
    let size = report.len();
    16 <= size && index < count_in(report) as u64 && 32 + 16 * (index as usize) <= size
}

// The first address of the run at an index; 0 where it is not listed or not wholly there.
#[unsafe(no_mangle)]
pub extern "C" fn tmc_report_run_address(report: &[u8], index: u64) -> u64
    ensures { result ≡ report_run_address report.now index }
{
    if !run_there(report, index) {
        return 0;
    }
    let at = 16 + 16 * (index as usize);
    little::read::<u64>(report, at)
}

// The length of the run at an index, in units; 0 where it is not listed or not wholly there.
#[unsafe(no_mangle)]
pub extern "C" fn tmc_report_run_length(report: &[u8], index: u64) -> u32
    ensures { result ≡ report_run_length report.now index }
{
    if !run_there(report, index) {
        return 0;
    }
    let at = 24 + 16 * (index as usize);
    little::read::<u32>(report, at)
}
