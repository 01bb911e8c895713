ghost use Rattle.std.specs.Prelude.{◌≡◌, ◌≤◌, length};
ghost use Rattle.model.specs.Checkpoints.{RestoredHeapsWriteTheirImage};
ghost use Rattle.model.specs.Restoring.{restore_refusal};
ghost use Rattle.model.specs.Starts.{both_made, both_restored};
ghost use Rattle.restoring.specs.Restored.{image_view};
ghost use Rattle.heap.specs.View.{view};
ghost use Rattle.whole_runs.specs.Calls.{all_within};
ghost use Rattle.whole_runs.specs.Hands.{AllRun};
ghost use Rattle.whole_runs.specs.Lists.{CarriedOn, with_buffer, make_refusal, Ran};

use super::sessions::Session;
use heap::Heap;
use layouts::Layout;
use memory::{Host, Rejected};
use model::{Answer, Call};
use runs::check_places;

// Carries out a list of calls, and writes an answer to each into the places for answers.
fn carry_out_all<H: Host, L: Layout>(
    heap: Heap<H, L>,
    calls: &[Call],
    buffer: &mut [u32],
    answers: &mut [Answer],
) -> (H, L)
    requires { (length calls.now ≤ length answers.old) × (AllRun (view H.Host.meaning heap).state) }
    ensures carried { CarriedOn L.Layout.rules (with_buffer (view H.Host.meaning heap) buffer.old) (all_within (length buffer.old) calls.now) answers.old answers.new buffer.new (H.Host.meaning result.0) }
    ensures layout { result.1 ≡ heap.layout }
{
    let mut session = Session::new(heap);
    // By index, for no invariant can name the places behind a `zip` with their `iter_mut`.
    for (i, call) in calls.iter().enumerate() {
        answers[i] = session.carry_out(buffer, *call);
    }
    session.into_parts()
}

/// Makes a heap on a host, carries out a list of calls, and writes an answer to each into the places for answers. They are the
/// answers of a heap that never moves an object. Host and layout come back.
///
/// Refused, with nothing altered, for an odd page count, then for fewer places than calls. Each call that wants a buffer is lent
/// the first words of this one, as many as the call says, or all of them if there are fewer.
pub fn run<H: Host, L: Layout>(
    host: H,
    layout: L,
    calls: &[Call],
    buffer: &mut [u32],
    answers: &mut [Answer],
) -> Result<(H, L), Rejected<(H, L)>>
    ensures { Ran L.Layout.rules H.Host.meaning (make_refusal (H.Host.meaning host)) (both_made (H.Host.meaning host).page_count (H.Host.meaning host).page_size (image_view buffer.old)) host layout calls.now answers.old answers.new buffer.old buffer.new result }
{
    let (host, layout) = check_places(host, layout, calls.len(), answers.len())?;
    let heap = Heap::make(host, layout)?;
    Ok(carry_out_all(heap, calls, buffer, answers))
}

/// The same on a heap that is restored from an image. Refused for an odd page count, then for fewer places than calls or words
/// than the image takes, then as the image is.
pub fn run_restored<H: Host, L: Layout>(
    host: H,
    layout: L,
    image: &[u32],
    calls: &[Call],
    buffer: &mut [u32],
    answers: &mut [Answer],
) -> Result<(H, L), Rejected<(H, L)>>
    ensures ran { Ran L.Layout.rules H.Host.meaning (restore_refusal L.Layout.rules (H.Host.meaning host) (length image.now) (image_view image.now)) (both_restored L.Layout.rules (H.Host.meaning host) (image_view image.now) (image_view buffer.old)) host layout calls.now answers.old answers.new buffer.old buffer.new result }
    ensures again { RestoredHeapsWriteTheirImage L.Layout.rules (H.Host.meaning host) }
{
    let (host, layout) = check_places(host, layout, calls.len(), answers.len())?;
    let heap = Heap::restore(host, layout, image)?;
    Ok(carry_out_all(heap, calls, buffer, answers))
}
