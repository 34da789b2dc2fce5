// The C interface of the trace run: one exported function over `trace_run::run`, whose clauses it states again.
#![tactic(auto)]

ghost use Rattle.std.specs.Prelude.{◌≡◌, length};
ghost use Rattle.trace_run.specs.TraceRun as TraceRun;

use trace_run::Outcome;

// Runs the trace through sixteen plain-start boxes, all of the one reading, until it ends or a record is refused. The codes go to the front of the buffer; past them it keeps what it holds.
#[unsafe(no_mangle)]
pub extern "C" fn trace_run(trace: &[u8], second_reading: bool, codes: &mut [u8]) -> Outcome
    ensures outcome { result ≡ TraceRun.outcome (TraceRun.run_trace trace.now second_reading (length codes.old)) }
    ensures buffer { codes.new ≡ TraceRun.buffer (TraceRun.run_trace trace.now second_reading (length codes.old)) codes.old }
{
    trace_run::run(trace, second_reading, codes)
}
