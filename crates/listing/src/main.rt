// Lists a document: standard input of up to 65,536 bytes, listed on standard output. What goes wrong is told on
// standard error.
#![tactic(auto)]

// A message that can't be written is lost.
fn tell(rt: &impl Eprint, message: &str) {
    let _ = rt.eprint(message);
}

// Writes the first k bytes of out, which are a listing; one that does not fit, or can't be written, is told.
fn print(rt: &(impl Print + Eprint), out: &[u8], k: usize) {
    let Some(text) = out.get(..k) else {
        tell(rt, "listing: the listing does not fit\n");
        return;
    };
    if rt.write_all(text).is_err() {
        tell(rt, "listing: standard output can't be written\n");
    }
}

fn main(rt: HostRuntime) {
    // One byte more than a document may have, so that a longer one is seen to be so.
    let mut doc = whole_input::zeros::<65537>();
    // The header, and two rows for each byte: a row has at most 21 bytes.
    let mut out = whole_input::zeros::<2752532>();
    let Ok(n) = whole_input::read_full(&mut rt.stdin(), &mut doc) else {
        tell(&rt, "listing: standard input can't be read\n");
        return;
    };
    let k = listing_text::listing(&doc[..n], &mut out);
    print(&rt, &out, k);
}
