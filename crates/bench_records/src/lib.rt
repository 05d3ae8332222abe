// The records of a `bench` input after its sheet: feeds, and then firings. Here they are looked at; nothing is fed or fired.
#![tactic(auto)]

ghost use Rattle.std.specs.Prelude.{◌≡◌, true, ◌+◌, ◌≤◌, length, drop};
ghost use Rattle.sheet.specs.Answer.{accepted};
ghost use Rattle.sheet.specs.Check.{check_of};
ghost use Rattle.base_bounds.specs.Bounds.{QUEUES};
ghost use Rattle.bench_records.specs.Records.{item_at, feed_bytes, start, is_feed, firings_from};
ghost use Rattle.bench_records.specs.Looks.{FedQueue, FiredQueue, feeds_after, Looks, Listable, Lists};

use base_refusal::{Reason, Refusal};
use run_store::Item;
use sheet::Sheet;

const FEED: usize = 16;

const FEED_BODY: usize = 1 + 4 * run_store::FIELDS;

// A feed's bytes, and where its fields begin.
pub const FEED_BYTES: usize = sheet_format::HEADER + FEED_BODY;

const FIELDS_AT: usize = sheet_format::HEADER + 1;

const FIRING: usize = 17;

const FIRING_BODY: usize = 1;

pub const FIRING_BYTES: usize = sheet_format::HEADER + FIRING_BODY;

// The record after the feeds: its number and where it starts.
#[derive(Clone, Copy)]
pub struct Looked {
    pub spot: usize,
    pub at: usize,
}

// A whole feed record stands at `at`.
pub fn is_feed(s: &[u8], at: usize) -> bool
    requires { at ≤ length s.now }
    ensures { result ≡ is_feed (drop at s.now) }
{
    if sheet_decode::is_cut(s, at) {
        return false;
    }
    base_number::short_at(s, at + 2) == FEED
}

// The item of the feed record at `at`.
pub fn item_at(s: &[u8], at: usize) -> Item
    requires { at + feed_bytes ≤ length s.now }
    ensures { result ≡ item_at (drop at s.now) }
{
    let mut x = Item {
        f: [0; run_store::FIELDS],
    };
    for i in 0..run_store::FIELDS {
        let z = base_number::int_at(s, at + FIELDS_AT + 4 * i);
        x.f[i] = z;
    }
    x
}

// The queue of the feed at `at`, or its refusal: by its body length, its queue, and how many items the queue has.
fn fed_queue(
    s: &[u8],
    at: usize,
    inputs: u8,
    counts: [u8; run_machine::QUEUES],
) -> Result<u8, Reason>
    requires { (at ≤ length s.now) × (is_feed (drop at s.now) ≡ true) × (inputs ≤ QUEUES) }
    ensures { FedQueue inputs counts (drop at s.now) result }
{
    if base_number::short_at(s, at) != FEED_BODY {
        return Err(Reason::BadLength);
    }
    let q = s[at + sheet_format::HEADER];
    if inputs <= q {
        return Err(Reason::WrongQueue);
    }
    if run_machine::is_full(counts, q) {
        return Err(Reason::FullQueue);
    }
    Ok(q)
}

// Looks at the feeds from `from` on, up to the first record that is none or is refused, with the sheet's queues empty at first.
pub fn look_feeds(s: &[u8], from: usize, t: Sheet) -> Result<Looked, Refusal>
    requires { (check_of t ≡ accepted) × (from ≤ length s.now) }
    ensures { Looks (feeds_after t start (drop from s.now)) s.now result }
{
    let mut counts = [0u8; run_machine::QUEUES];
    let mut at = from;
    let mut spot = t.count as usize + 1;
    while is_feed(s, at) {
        match fed_queue(s, at, t.inputs, counts) {
            Ok(q) => counts[q as usize] += 1,
            Err(reason) => return Err(reason.at(spot)),
        }
        at += FEED_BYTES;
        spot += 1;
    }
    Ok(Looked { spot, at })
}

// The queue of the firing record at `at`, or its refusal.
fn fired_queue(s: &[u8], at: usize) -> Result<u8, Reason>
    requires { at ≤ length s.now }
    ensures { FiredQueue (drop at s.now) result }
{
    if sheet_decode::is_cut(s, at) {
        return Err(Reason::BadLength);
    }
    if base_number::short_at(s, at + 2) != FIRING {
        return Err(Reason::BadKind);
    }
    if base_number::short_at(s, at) != FIRING_BODY {
        return Err(Reason::BadLength);
    }
    Ok(s[at + sheet_format::HEADER])
}

// The queues to fire, from `from` to the end of the bytes, into the list; and how many they are.
pub fn list_firings(s: &[u8], from: usize, spot: usize, list: &mut [u8]) -> Result<usize, Refusal>
    requires { Listable s.now from spot list.old }
    ensures { Lists (firings_from (length (drop from s.now)) spot (drop from s.now)) result list.new }
{
    let mut at = from;
    let mut n = 0;
    while at < s.len() {
        match fired_queue(s, at) {
            Ok(q) => list[n] = q,
            Err(reason) => return Err(reason.at(spot + n)),
        }
        at += FIRING_BYTES;
        n += 1;
    }
    Ok(n)
}
