// The codes of a metric, and what a request or a quiet step says of what comes next. Internal.
ghost use Rattle.std.specs.Prelude.{◌≡◌, ◌<◌, ◌≤◌, MatchOption, get_or};
ghost use Rattle.node_header.specs.declared.StepAnswer.TheVariants.{Stepped};
ghost use Rattle.calls_worker.specs.Steps.{metric_of, sent_number, quiet_number};
ghost use Rattle.calls_worker.specs.Numbers.{code_of};

use crate::next::Next;
use node_admit::Step;
use spec::Metric;

pub fn metric_of(code: u8) -> Option<Metric>
    ensures { MatchOption result (1 < code) (λ m. (code ≤ 1) × (m ≡ metric_of code)) }
{
    match code {
        0 => Some(Metric::Euclidean),
        1 => Some(Metric::Angular),
        _ => None,
    }
}

// By the code that the request begins with.
pub fn sent(request: &[u8]) -> Next
    ensures { code_of result ≡ sent_number (get_or request.now 0 0) }
{
    match request.first() {
        Some(0x21) => Next::Align,
        Some(0x20) => Next::Replicate,
        _ => Next::Copy,
    }
}

// Of a step that sends nothing.
pub fn quiet(step: Step) -> Next
    ensures { code_of result ≡ quiet_number (Stepped step) }
{
    match step {
        Step::Stop => Next::Stop,
        Step::Wait | Step::Align | Step::Send { .. } => Next::Wait,
    }
}
