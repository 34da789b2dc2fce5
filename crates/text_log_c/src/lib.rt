// The C interface of the conversions: two exported functions over `text_log`'s, whose clauses they state again.
#![tactic(auto)]

ghost use Rattle.std.specs.Prelude.{◌≡◌, length};
ghost use Rattle.text_log.specs.Conversion as Conversion;

use text_log::Outcome;

// Converts a text log to a trace. The records go to the front of the buffer; past them it keeps what it holds.
#[unsafe(no_mangle)]
pub extern "C" fn text_log_to_trace(text: &[u8], trace: &mut [u8]) -> Outcome
    ensures outcome { result ≡ Conversion.outcome (Conversion.to_trace text.now (length trace.old)) }
    ensures buffer { trace.new ≡ Conversion.output (Conversion.to_trace text.now (length trace.old)) trace.old }
{
    text_log::to_trace(text, trace)
}

// Converts a trace to a text log. The lines go to the front of the buffer; past them it keeps what it holds.
#[unsafe(no_mangle)]
pub extern "C" fn text_log_to_text(trace: &[u8], text: &mut [u8]) -> Outcome
    ensures outcome { result ≡ Conversion.outcome (Conversion.to_text trace.now (length text.old)) }
    ensures buffer { text.new ≡ Conversion.output (Conversion.to_text trace.now (length text.old)) text.old }
{
    text_log::to_text(trace, text)
}
