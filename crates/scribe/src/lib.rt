// The listing of a recording, line by line, as text in a lent buffer (document 01, 'Figures to check against').
#![tactic(auto)]

ghost use Rattle.std.specs.Prelude.{◌≡◌, true, false, ◌+◌, ◌<◌, ◌≤◌, length};
ghost use Rattle.reader.specs.State.{state_in_range};
ghost use Rattle.text.specs.Over.{Written};
ghost use Rattle.text.specs.Pages.{Wrote};
ghost use Rattle.recording.specs.Walk.{answer_here, stepped, stepped_by};
ghost use Rattle.scribe.specs.Listing.{is_last, count_after, lines_from, begun, listing_of};

use reader::Reader;
use recording::{Met, Stand};
use refusals::Refusal;
use text::Page;

fn is_last(answer: Result<Met, Refusal>) -> bool
    ensures { result ≡ is_last answer }
{
    matches!(answer, Ok(Met::End(_)) | Err(_))
}

// The count of blocks goes over the whole listing.
fn count_after(answer: Result<Met, Refusal>, count: usize) -> usize
    requires { count < 65536 }
    ensures { result ≡ count_after answer count }
{
    match answer {
        Ok(Met::Block(_)) => count + 1,
        _ => count,
    }
}

// One step of the walk; the streams are not wanted here.
fn step_on(recording: &[u8], stand: &mut Stand, s: &mut Reader) -> Result<Met, Refusal>
    requires { (state_in_range s.old ≡ true) × (length recording.now ≤ 65536) × (stand.old.place ≤ length recording.now) }
    ensures { stepped stand.new s.new result ≡ stepped_by (answer_here recording.now stand.old.place stand.old.lost s.old) recording.now stand.old.place stand.old.lost s.old }
{
    looking::look_from(recording, stand, s)
}

// The lines of a walk from a place on. A recording has more octets than a walk over it has steps.
fn put_walk(page: &mut Page, recording: &[u8], start: usize)
    requires { (length recording.now ≤ 65536) × (start ≤ length recording.now) × (page.old.place ≤ length page.old.octets.now + 1) }
    ensures { Wrote page.old (lines_from (length recording.now) recording.now start false begun 0) page.new }
{
    let mut stand = Stand {
        place: start,
        lost: false,
    };
    let mut s = Reader::fresh();
    let mut count = 0;
    for turn in 0..recording.len() {
        let answer = step_on(recording, &mut stand, &mut s);
        wording::put_answer(page, count, answer);
        if is_last(answer) {
            return;
        }
        count = count_after(answer, count);
    }
}

// The listing of a recording, as far as it fits.
#[tactic(auto, unfolding(text::specs::Words::text_of, crate::specs::Listing::listing_of))]
fn put_listing(page: &mut Page, recording: &[u8])
    ensures { Wrote page.old (listing_of recording.now) page.new }
{
    match search::search(recording, 0) {
        Ok(p) => {
            wording::put_line(page, b"found ", p);
            put_walk(page, recording, p);
        }
        Err(why) => wording::put_line(page, b"none ", usize::from(u8::from(why))),
    }
}

// The listing of a recording, written into the buffer as far as it fits. The answer is its length, and one more than the buffer has
// where it did not fit.
pub fn list(recording: &[u8], text: &mut [u8]) -> usize
    ensures { Written 0 (listing_of recording.now) text.old result text.new }
{
    let mut page = Page::new(text);
    put_listing(&mut page, recording);
    page.end()
}
