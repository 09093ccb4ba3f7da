// Lists a recording from standard input (document 01, 'Figures to check against'). The text is made
// by `scribe::list`, which is proved octet by octet; this program only reads and writes.
#![tactic(auto)]

// What cannot be told to standard error can be told nowhere. The buffers are arrays, since memory
// that is set aside from the start cannot run out.
fn main(rt: HostRuntime) {
    // One octet more than a recording may have, so that a longer input is known for too long.
    let mut recording = [0u8; 65_537];
    // Every listing fits (`listing-fits`).
    let mut text = [0u8; 16_384];
    let Ok(n) = intake::fill(&mut rt.stdin(), &mut recording) else {
        let _ = eprintln!(rt; "listing: standard input cannot be read");
        return;
    };
    let end = scribe::list(&recording[..n], &mut text);
    if rt.write_all(&text[..end]).is_err() {
        let _ = eprintln!(rt; "listing: standard output cannot be written");
    }
}
