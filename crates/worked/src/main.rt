// Runs document 01's worked cases that are not marked P, and beside them each refusal, a run refused midway and series of steps and
// take-backs; a line for each call. tests/worked.py works the same lines.

#![tactic(auto)]

mod bounds;
mod columns;
mod meadow;
mod printing;
mod refusals;
mod same;
mod series;

fn main(rt: HostRuntime) {
    columns::column_limit(&rt);
    series::depth_limit(&rt);
    series::one_record(&rt);
    refusals::refusals(&rt);
    series::refused_midway(&rt);
    series::three_records(&rt);
    series::changing(&rt);
    series::soaking(&rt);
    bounds::bounds(&rt);
}
