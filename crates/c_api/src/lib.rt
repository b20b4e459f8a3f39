// The entry points for C. A slice is a pointer and a length; a function returns the answer's number and stores its place and count. Each
// calls its entry point and promises the same outcome.
#![tactic(auto)]

ghost use Rattle.std.specs.Prelude.{◌≡◌, List, ℕ};
ghost use Rattle.papers.specs.Refusals.{answer, Outcome};
ghost use Rattle.papers.specs.Job.{job_of};
ghost use Rattle.papers.specs.Analysis.{Lent, key_written, analysed, PlanLent, plan_written};
ghost use Rattle.papers.specs.Check.{checked};
ghost use Rattle.papers.specs.Run.{ran};
ghost use Rattle.lent.specs.Six.{six_slices};

use papers::JobHead;

// Writes the key of a job: key::write_key.
#[unsafe(no_mangle)]
pub extern "C" fn ls_write_key(
    n: u64,
    starts: &[u64],
    rows: &[u32],
    mark: u64,
    limit: u64,
    bytes: &mut [u8],
    place: &mut u64,
    count: &mut u64,
) -> u64
    ensures { ◌≡◌ {A = Outcome (List ℕ)} (record { answered = answer result place.new count.new; lent = bytes.new })
        (key_written (job_of (record { n = n; mark = mark; limit = limit }) starts.now rows.now)
        bytes.old) }
{
    let answered = key::write_key(JobHead { n, mark, limit }, starts, rows, bytes);
    *place = answered.place;
    *count = answered.count;
    answered.number
}

// Analyses a job: analysis::analyse.
#[unsafe(no_mangle)]
pub extern "C" fn ls_analyse(
    n: u64,
    starts: &[u64],
    rows: &[u32],
    mark: u64,
    limit: u64,
    parents: &mut [u32],
    order: &mut [u32],
    pops: &mut [u32],
    fstarts: &mut [u64],
    frows: &mut [u32],
    work: &mut [u64],
    place: &mut u64,
    count: &mut u64,
) -> u64
    ensures { ◌≡◌ {A = Outcome Lent}
        (record {
          answered = answer result place.new count.new;
          lent = six_slices parents.new order.new
              pops.new fstarts.new frows.new work.new;
        })
        (analysed (job_of (record { n = n; mark = mark; limit = limit }) starts.now rows.now)
        (six_slices parents.old order.old pops.old fstarts.old frows.old
        work.old)) }
{
    let answered = analysis::analyse(
        JobHead { n, mark, limit },
        starts,
        rows,
        parents,
        order,
        pops,
        fstarts,
        frows,
        work,
    );
    *place = answered.place;
    *count = answered.count;
    answered.number
}

// Analyses a job and writes its plan: plan_bytes::write_plan.
#[unsafe(no_mangle)]
pub extern "C" fn ls_write_plan(
    n: u64,
    starts: &[u64],
    rows: &[u32],
    mark: u64,
    limit: u64,
    parents: &mut [u32],
    order: &mut [u32],
    pops: &mut [u32],
    fstarts: &mut [u64],
    frows: &mut [u32],
    work: &mut [u64],
    bytes: &mut [u8],
    place: &mut u64,
    count: &mut u64,
) -> u64
    ensures { ◌≡◌ {A = Outcome PlanLent}
        (record {
          answered = answer result place.new count.new;
          lent = record {
            analysis = six_slices parents.new order.new pops.new fstarts.new frows.new
                work.new;
            bytes = bytes.new;
          };
        })
        (plan_written (job_of (record { n = n; mark = mark; limit = limit }) starts.now rows.now)
        (record {
          analysis = six_slices parents.old order.old pops.old fstarts.old
              frows.old work.old;
          bytes = bytes.old;
        })) }
{
    let answered = plan_bytes::write_plan(
        JobHead { n, mark, limit },
        starts,
        rows,
        parents,
        order,
        pops,
        fstarts,
        frows,
        work,
        bytes,
    );
    *place = answered.place;
    *count = answered.count;
    answered.number
}

// Checks a plan for a job: checker::check_plan.
#[unsafe(no_mangle)]
pub extern "C" fn ls_check_plan(
    n: u64,
    starts: &[u64],
    rows: &[u32],
    mark: u64,
    limit: u64,
    plan: &[u8],
    parents: &mut [u32],
    order: &mut [u32],
    pops: &mut [u32],
    fstarts: &mut [u64],
    frows: &mut [u32],
    work: &mut [u64],
    place: &mut u64,
    count: &mut u64,
) -> u64
    ensures { ◌≡◌ {A = Outcome Lent}
        (record {
          answered = answer result place.new count.new;
          lent = six_slices parents.new order.new
              pops.new fstarts.new frows.new work.new;
        })
        (checked (job_of (record { n = n; mark = mark; limit = limit }) starts.now rows.now)
        plan.now (six_slices parents.old order.old pops.old fstarts.old
        frows.old work.old)) }
{
    let answered = checker::check_plan(
        JobHead { n, mark, limit },
        starts,
        rows,
        plan,
        parents,
        order,
        pops,
        fstarts,
        frows,
        work,
    );
    *place = answered.place;
    *count = answered.count;
    answered.number
}

// Runs steps on a stack: stack_run::run.
#[unsafe(no_mangle)]
pub extern "C" fn ls_run(
    n: u64,
    fstarts: &[u64],
    frows: &[u32],
    columns: &[u32],
    pops: &[u32],
    room: u64,
    stack: &mut [u32],
    place: &mut u64,
    count: &mut u64,
) -> u64
    ensures { ◌≡◌ {A = Outcome (List ℕ)} (record { answered = answer result place.new count.new; lent = stack.new })
        (ran (record {
          n = n;
          starts = fstarts.now;
          rows = frows.now;
          columns = columns.now;
          pops = pops.now;
          room = room;
          stack = stack.old;
        })) }
{
    let answered = stack_run::run(n, fstarts, frows, columns, pops, room, stack);
    *place = answered.place;
    *count = answered.count;
    answered.number
}
