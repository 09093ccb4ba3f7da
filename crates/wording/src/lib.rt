// One line of the listing of a recording, written on a page (document 01, 'Figures to check against').
#![tactic(auto)]

ghost use Rattle.std.specs.Prelude.{◌++◌};
ghost use Rattle.text.specs.Pages.{Wrote};
ghost use Rattle.digits.specs.Digits.{decimal_of};
ghost use Rattle.text.specs.Words.{text_of};
ghost use Rattle.wording.specs.Lines.{standing_text, verdict_text, code_text, block_line, line_text};

use recording::Met;
use refusals::Refusal;
use text::Page;
use track::{Report, Standing, Verdict};
use words::Reading;

fn put_standing(page: &mut Page, standing: Standing)
    ensures { Wrote page.old (standing_text standing) page.new }
{
    match standing {
        Standing::Waiting => page.put_all(b"waiting"),
        Standing::Read => page.put_all(b"read"),
        Standing::Lost => page.put_all(b"lost"),
    }
}

fn put_verdict(page: &mut Page, verdict: Verdict)
    ensures { Wrote page.old (verdict_text verdict) page.new }
{
    match verdict {
        Verdict::None => page.put_all(b"none"),
        Verdict::Good => page.put_all(b"good"),
        Verdict::Bad => page.put_all(b"bad"),
    }
}

// The mended code, or two hyphens where there is none.
#[tactic(auto, unfolding(text::specs::Words::text_of))]
fn put_code(page: &mut Page, reading: Reading)
    ensures { Wrote page.old (code_text reading) page.new }
{
    match reading.code() {
        Some(code) => digits::put_hex(page, code),
        None => page.put_all(b"--"),
    }
}

// The line of a block: its count, state, CRC and code.
fn put_block(page: &mut Page, count: usize, report: Report)
    ensures { Wrote page.old (block_line count report) page.new }
{
    digits::put_decimal(page, count);
    page.put(b' ');
    put_standing(page, report.standing);
    page.put(b' ');
    put_verdict(page, report.verdict);
    page.put(b' ');
    put_code(page, report.reading);
    page.put(b'\n');
}

// A line of a word and a number.
pub fn put_line(page: &mut Page, word: &[u8], n: usize)
    ensures { Wrote page.old (word.now ++ decimal_of n ++ text_of "\n") page.new }
{
    page.put_all(word);
    digits::put_decimal(page, n);
    page.put(b'\n');
}

// The line of an answer of a walk; a block has its count.
#[tactic(auto, unfolding(text::specs::Words::text_of))]
pub fn put_answer(page: &mut Page, count: usize, answer: Result<Met, Refusal>)
    ensures { Wrote page.old (line_text answer count) page.new }
{
    match answer {
        Ok(Met::Block(report)) => put_block(page, count, report),
        Ok(Met::Place(p)) => put_line(page, b"found ", p),
        Ok(Met::End(left)) => put_line(page, b"left ", left),
        Err(why) => put_line(page, b"none ", usize::from(u8::from(why))),
    }
}
