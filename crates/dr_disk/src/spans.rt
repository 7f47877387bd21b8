ghost use Rattle.std.specs.Prelude.{◌≡◌, ◌≤◌, ℕ, false, if◌then◌else◌, length, slice_index, vec_len, vec_capacity};
ghost use Rattle.dr_disk.specs.Spans.{is_within, is_changed, SameOutside};

/// How many spans are kept apart. Further ones widen the last.
pub(crate) const MOST_SPANS: usize = 1024;

/// The places from `from` on and below `to`.
#[derive(Clone, Copy, Debug)]
pub(crate) struct Span {
    pub(crate) from: usize,
    pub(crate) to: usize,
}

// The least span that holds both.
fn wider(a: Span, b: Span) -> Span
    ensures first { (place : ℕ) → is_within place result ≡ false → is_within place a ≡ false }
    ensures second { (place : ℕ) → is_within place result ≡ false → is_within place b ≡ false }
{
    Span {
        from: a.from.min(b.from),
        to: a.to.max(b.to),
    }
}

// Adds a span. Where there is no room for it, the last one is widened to hold it.
pub(crate) fn add_span(spans: &mut Vec<Span>, span: Span)
    requires room { MOST_SPANS ≤ vec_capacity spans.old }
    ensures spans { (place : ℕ) → is_changed spans.new.items place ≡ false →
        is_changed spans.old.items place ≡ false }
    ensures span { (place : ℕ) → is_changed spans.new.items place ≡ false →
        is_within place span ≡ false }
    ensures capacity { vec_capacity spans.old ≤ vec_capacity spans.new }
{
    let count = spans.len();
    if count < MOST_SPANS {
        if spans.push(span).is_err() {
            unreachable!();
        }
        return;
    }
    let last = wider(spans[count - 1], span);
    spans[count - 1] = last;
}

// Copies what stands in a span.
fn copy_span(source: &[u8], target: &mut [u8], span: Span)
    requires { length target.old ≡ length source.now }
    ensures { (place : ℕ) → slice_index target.new place ≡
        (if is_within place span then slice_index source.now place else slice_index target.old place) }
{
    let end = span.to.min(source.len());
    if span.from < end {
        target[span.from..end].copy_from_slice(&source[span.from..end]);
    }
}

// Copies what stands in these spans.
fn copy_spans(source: &[u8], target: &mut [u8], spans: &[Span])
    requires lengths { length target.old ≡ length source.now }
    requires same { SameOutside spans.now target.old source.now }
    ensures { target.new ≡ source.now }
{
    for span in spans {
        copy_span(source, target, *span);
    }
}

// Makes the target as long as the source: cuts it, or adds the source's last bytes.
fn match_length(source: &[u8], target: &mut Vec<u8>)
    requires { length source.now ≤ vec_capacity target.old }
    ensures length { vec_len target.new ≡ length source.now }
    ensures same { (place : ℕ) → slice_index target.old.items place ≡ slice_index source.now place →
        slice_index target.new.items place ≡ slice_index source.now place }
    ensures capacity { vec_capacity target.old ≤ vec_capacity target.new }
{
    target.truncate(source.len());
    if target.extend_from_slice(&source[target.len()..]).is_err() {
        unreachable!();
    }
}

// Makes the target what the source is, where they differ in these spans alone. It copies what stands
// in the spans, and what the source has past the target's end.
pub(crate) fn copy_changes(source: &[u8], target: &mut Vec<u8>, spans: &[Span])
    requires room { length source.now ≤ vec_capacity target.old }
    requires same { SameOutside spans.now target.old.items source.now }
    ensures items { target.new.items ≡ source.now }
    ensures capacity { vec_capacity target.old ≤ vec_capacity target.new }
{
    match_length(source, target);
    copy_spans(source, target, spans);
}
