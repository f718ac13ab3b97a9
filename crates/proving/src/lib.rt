// Proving by pipe prover (01, 'Proving, by pipe prover'): the job, its report, and the accepted runs.
#![tactic(auto)]

ghost use Rattle.std.specs.Prelude.{◌≡◌, true, ℕ, ◌+◌, ◌^◌, ◌<◌, ◌≤◌, length, get_or, IfOk};
ghost use Rattle.octets.specs.FirstToLast.{scan};
ghost use Rattle.ranges.specs.Table.{k_factor_ok};
ghost use Rattle.refusals.specs.Told.{left_by};
ghost use Rattle.factors.specs.Prover.{prover_ok};
ghost use Rattle.group.specs.Repeatability.{first_group, nine_unless};
ghost use Rattle.report.specs.Record.{bytes_of_report};
ghost use Rattle.run.specs.Record.{run_at, run_ok};
ghost use Rattle.proving.specs.Judging.{runs_in, settings_fault, lent_fault, run_fault, input_fault};
ghost use Rattle.proving.specs.Job.{HoldsFactors, HoldsAll, five_at, five_of, job_of, accepted_of};
ghost use Rattle.proving.specs.Answers.{refused_in};
ghost use Rattle.refusals.specs.Answered.{fault_of, told};

use factors::Prover;
use refusals::Refusal;
use report::{Factors, Report};
use run::Form;

// A job's first qualifying five: the place of the first of them, from 0, and their factors.
#[derive(Clone, Copy)]
struct Five {
    at: usize,
    factors: Factors,
}

// What a job and its accepted runs are proved from: the prover's settings, K, the limit, and the lent records, all of one form.
#[derive(Clone, Copy)]
struct Input<'a> {
    prover: Prover,
    k: u32,
    limit: u16,
    form: Form,
    records: &'a [u8],
}

// The first qualifying five, or 9.
fn seek(values: &[u64], limit: u16) -> Result<usize, Refusal>
    ensures { told result ≡ nine_unless (first_group limit 5 values.now) (λ at. at) }
{
    group::first_group(values, 5, limit as u64).ok_or(Refusal::NoGroup)
}

// Five consecutive factors, in the report's 16 bits.
fn take_five(values: [u64; 20], at: usize) -> Factors
    requires { (at + 5 ≤ 20) × ((i : ℕ) → i < 5 → get_or values (at + i) 0 < 2 ^ 16) }
    ensures { result ≡ five_at values at }
{
    Factors {
        one: values[at] as u16,
        two: values[at + 1] as u16,
        three: values[at + 2] as u16,
        four: values[at + 3] as u16,
        five: values[at + 4] as u16,
    }
}

impl Input<'_> {
    // How many runs are lent.
    fn count_runs(self) -> usize
        ensures { result ≡ runs_in self.entry.form self.entry.records.now }
    {
        self.records.len() / run::records::size(self.form)
    }

    // 1, 3, 4 and 4: the size of what is lent, the prover's settings, K and the limit. All four are of plain numbers, and none stands on the
    // one before it: `or_else` gives the first that fails.
    fn judge_settings(self) -> Result<(), Refusal>
        ensures { fault_of result ≡ settings_fault self.entry.prover self.entry.k self.entry.limit self.entry.form (length self.entry.records.now) }
    {
        let size = run::records::size(self.form);
        let lent = self.records.len();
        refusals::or_else(
            refusals::demand(
                (lent % size == 0) & ranges::are_runs((lent / size) as u64),
                Refusal::Records,
            ),
            refusals::or_else(
                refusals::demand(factors::is_prover(self.prover), Refusal::ProverSetting),
                refusals::or_else(
                    refusals::demand(ranges::is_k_factor(self.k as u64), Refusal::KFactorOrLimit),
                    refusals::demand(ranges::is_limit(self.limit as u64), Refusal::KFactorOrLimit),
                ),
            ),
        )
    }

    // The records, first to last.
    fn judge_records(self, count: usize) -> Result<(), Refusal>
        requires { count ≤ 20 }
        ensures { fault_of result ≡ scan (lent_fault self.entry.form self.entry.records.now) count 0 }
    {
        for i in 0..count {
            run::records::judge_record(self.form, self.records, i, (i + 1) as u16)?;
        }
        Ok(())
    }

    // The runs' factors, first to last, at the head of the array. A run that has no factor ends the job with that run's refusal.
    fn work_out_runs(self, count: usize) -> Result<[u64; 20], Refusal>
        requires { (prover_ok self.prover ≡ true) × (k_factor_ok self.k ≡ true) × (count ≤ 20) × ((i : ℕ) → i < count → run_ok (run_at self.form self.records.now i) ≡ true) }
        ensures fault { refused_in result ≡ scan (run_fault self.entry.prover self.entry.k self.entry.form self.entry.records.now) count 0 }
        ensures size { IfOk result (λ values. length values ≡ 20) }
        ensures factors { IfOk result (λ values. HoldsFactors values count self.entry.prover self.entry.k self.entry.form self.entry.records.now) }
    {
        let mut values = [0u64; 20];
        for i in 0..count {
            let run = run::records::decode(self.form, self.records, i);
            let worked = run::work_out(self.prover, self.k, run, (i + 1) as u16);
            // the factor is taken out of the figures, and there is one way to work them out; without them the refusal is what is left to give back
            let Ok(figures) = worked else {
                return worked.map(|_| values);
            };
            values[i] = figures.factor;
        }
        Ok(values)
    }

    // All that is judged before a group is looked for, and the runs' factors.
    fn judge(self) -> Result<[u64; 20], Refusal>
        ensures fault { refused_in result ≡ input_fault self.entry.prover self.entry.k self.entry.limit self.entry.form self.entry.records.now }
        ensures size { IfOk result (λ values. length values ≡ 20) }
        ensures factors { IfOk result (λ values. HoldsAll values self.entry.prover self.entry.k self.entry.form self.entry.records.now) }
    {
        self.judge_settings()?;
        let count = self.count_runs();
        self.judge_records(count)?;
        self.work_out_runs(count)
    }

    fn find_five(self) -> Result<Five, Refusal>
        ensures { told result ≡ five_of self.entry.prover self.entry.k self.entry.limit self.entry.form self.entry.records.now }
    {
        let values = self.judge()?;
        let count = self.count_runs();
        let at = seek(&values[..count], self.limit)?;
        Ok(Five {
            at,
            factors: take_five(values, at),
        })
    }
}

// The job: its report is written into the lent 32 bytes, or every byte is left as found.
pub fn prove(
    request: u32,
    prover: Prover,
    k: u32,
    limit: u16,
    form: Form,
    records: &[u8],
    buffer: &mut [u8],
) -> Result<Report, Refusal>
    ensures answer { told result ≡ job_of request prover k limit form records.now (length buffer.old) }
    ensures left { buffer.new ≡ left_by (job_of request prover k limit form records.now (length buffer.old)) bytes_of_report buffer.old }
{
    refusals::demand(buffer.len() == 32, Refusal::ReportBuffer)?;
    refusals::demand(request != 0, Refusal::NumberZero)?;
    let input = Input {
        prover,
        k,
        limit,
        form,
        records,
    };
    let five = input.find_five()?;
    let runs = input.count_runs() as u8;
    report::write(request, runs, (five.at + 1) as u8, five.factors, buffer)
}

// The five accepted run records, as a part of the lent records; the empty part on refusal.
pub fn accept<'a>(prover: Prover, k: u32, limit: u16, form: Form, records: &'a [u8]) -> &'a [u8]
    ensures { result.now ≡ accepted_of prover k limit form records.now }
{
    let input = Input {
        prover,
        k,
        limit,
        form,
        records,
    };
    let Ok(five) = input.find_five() else {
        return &records[..0];
    };
    let size = run::records::size(form);
    let from = size * five.at;
    let end = from + 5 * size;
    &records[from..end]
}
