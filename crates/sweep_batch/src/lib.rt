// Several charts in one call: their lists stand end to end, and each is swept as it would be alone.
#![tactic(auto)]

ghost use Rattle.batch_refusals.specs.Batch.{Roomy, Writes, Batches};

use batch_chart::sweep_chart;
use batch_refusals::NUMBERS;
use charts::Answer;

// Every chart, each with its own stretch of the list, of the bytes and of the results.
fn sweep_charts(list: &[i32], lengths: &[usize], pairs: &mut [u8], results: &mut [u64])
    requires { Roomy list.now lengths.now pairs.old results.old }
    ensures { Writes list.now lengths.now pairs.old results.old pairs.new results.new }
{
    let mut from = 0;
    let mut at = 0;
    let mut first = 0;
    // by offsets: to split off each part would take both lent slices out of their variables and put the rests back
    for &length in lengths {
        let to = from + length;
        let end = at + batch_refusals::need_of(length);
        let next = first + NUMBERS;
        sweep_chart(
            &list[from..to],
            &mut pairs[at..end],
            &mut results[first..next],
        );
        from = to;
        at = end;
        first = next;
    }
}

// Sweeps each of several charts; the count of charts. `lengths` counts the numbers of each in the list; each has its own part
// of the bytes, and ten of the numbers of `results`.
pub fn sweep_batch(list: &[i32], lengths: &[usize], pairs: &mut [u8], results: &mut [u64]) -> Answer
    ensures { Batches list.now lengths.now pairs.old results.old result pairs.new results.new }
{
    match batch_refusals::refusal_of(list.len(), lengths, pairs.len(), results.len()) {
        Some(reason) => chart_verdict::refused(reason.at(0)),
        None => {
            sweep_charts(list, lengths, pairs, results);
            chart_verdict::done(lengths.len())
        }
    }
}
