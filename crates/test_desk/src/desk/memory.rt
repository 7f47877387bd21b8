//! Want of memory.

use super::calls::{DONE, FIRST, Outcome, UNTOUCHED, call, make_streams, site_is};
use crate::site::{Site, make_site};
use dr_base::NoMemory;
use std::alloc::Global;

// What may come of the first call where memory is refused, by its status and what it wrote.
fn outcome_of(status: u8, text: &[u8]) -> Option<Outcome<'static>> {
    let is_told = text.is_empty() || text == b"11 no memory\n".as_slice();
    if status == 0 && text == DONE.text.as_bytes() {
        Some(DONE)
    } else if status == 11 && is_told {
        Some(UNTOUCHED)
    } else {
        None
    }
}

// The outcome of the first call on this site. Want of memory before the call is an error.
fn called(alloc: Global, site: &mut Site) -> Result<Option<Outcome<'static>>, NoMemory> {
    let mut streams = make_streams(alloc, &FIRST)?;
    let (source, sink) = (&mut streams.source, &mut streams.sink);
    let (array, ports) = (&mut site.array, &mut site.ports);
    let ended = call(alloc, FIRST.words, array, ports, source, sink)?;
    Ok(outcome_of(ended.status, streams.sink.bytes()))
}

// For runs in which one allocation is refused: any before the call's own ends the test.
#[test]
fn want_of_memory_is_told_or_ends_the_call(rt: HostRuntime) {
    let Ok(mut site) = make_site(rt.alloc(), &FIRST.outside) else {
        return;
    };
    let Ok(outcome) = called(rt.alloc(), &mut site) else {
        return;
    };
    let outcome = outcome.expect(&rt, "a test that is done, or want of memory");
    site_is(&rt, &mut site, &FIRST, &outcome);
}
