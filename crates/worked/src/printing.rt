// What the lines are printed with.
use ledger::runs::Run;

pub(crate) fn words(rt: &impl Print, text: &[u8]) {
    let _ = rt.write_all(text);
}

pub(crate) fn field(rt: &impl Print, name: &[u8], n: u64) {
    words(rt, name);
    words(rt, b" ");
    let _ = print!(rt; "{n}");
}

pub(crate) fn end_line(rt: &impl Print) {
    words(rt, b"\n");
}

pub(crate) fn fields(rt: &impl Print, name: &[u8], numbers: [u32; 4]) {
    words(rt, name);
    field(rt, b"", numbers[0] as u64);
    field(rt, b"", numbers[1] as u64);
    field(rt, b"", numbers[2] as u64);
    field(rt, b"", numbers[3] as u64);
}

pub(crate) fn run_fields(rt: &impl Print, run: Run) {
    field(rt, b" clock", run.clock);
    field(rt, b" length", run.length);
    field(rt, b" outflow", run.outflow);
    field(rt, b" kept", run.kept as u64);
    field(rt, b" newest", run.newest as u64);
    field(rt, b" soaked", run.soaked);
}
