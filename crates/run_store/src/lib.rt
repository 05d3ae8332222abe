// The lent store of items: queue q has the PART numbers from PART * q on, item i of it stands at FIELDS * i there, oldest first, and zeros follow the last.
#![tactic(auto)]

ghost use Rattle.std.specs.Prelude.{◌≡◌, ◌+◌, ◌*◌, ◌≤◌, ◌<◌, length, replicate, pos};
ghost use Rattle.run_store.specs.Store.{PART, STORE, part, pushed, without_oldest, first_of, push_at, take_at};
ghost use Rattle.base_bounds.specs.Bounds.{ROOM};
ghost use Rattle.run_store.specs.Quiet.{zeros_past, quiet_queue, quiet_from};

// The numbers of an item.
pub const FIELDS: usize = base_bounds::FIELDS as usize;

// The items that a queue has room for.
pub const ROOM: usize = base_bounds::ROOM as usize;

// The numbers of a queue's part.
pub const PART: usize = FIELDS * ROOM;

pub const QUEUES: usize = base_bounds::QUEUES as usize;

// The numbers of the store.
pub const STORE: usize = QUEUES * PART;

#[derive(Clone, Copy)]
pub struct Item {
    pub f: [i32; FIELDS],
}

// Every number becomes 0.
pub fn clear(store: &mut [i32])
    ensures { store.new ≡ replicate (length store.old) (pos 0) }
{
    store.fill(0);
}

// The part of a queue that holds `count` items, with one more.
fn push_part(part: &mut [i32], count: usize, x: Item)
    requires { (length part.old ≡ PART) × (count < ROOM) }
    ensures { part.new ≡ pushed part.old count x }
{
    let at = FIELDS * count;
    part[at..at + FIELDS].copy_from_slice(&x.f);
}

// One more item on queue q, which holds `count`.
pub fn push(store: &mut [i32], q: usize, count: usize, x: Item)
    requires { (PART * q + PART ≤ length store.old) × (count < ROOM) }
    ensures { store.new ≡ push_at store.old q count x }
{
    let from = PART * q;
    let to = from + PART;
    push_part(&mut store[from..to], count, x);
}

// The part without its oldest item: every number moves down by one item, and the last item's places become 0.
fn take_part(part: &mut [i32])
    requires { length part.old ≡ PART }
    ensures { part.new ≡ without_oldest part.old }
{
    part.copy_within(FIELDS..PART, 0);
    part[PART - FIELDS..PART].fill(0);
}

// The oldest item of queue q goes.
pub fn take(store: &mut [i32], q: usize)
    requires { PART * q + PART ≤ length store.old }
    ensures { store.new ≡ take_at store.old q }
{
    let from = PART * q;
    let to = from + PART;
    take_part(&mut store[from..to]);
}

// The oldest item of a part.
fn first_item(part: &[i32]) -> Item
    requires { length part.now ≡ PART }
    ensures { result ≡ first_of part.now }
{
    let mut y = Item { f: [0; FIELDS] };
    y.f.copy_from_slice(&part[..FIELDS]);
    y
}

// The oldest item of queue q.
pub fn first(store: &[i32], q: usize) -> Item
    requires { PART * q + PART ≤ length store.now }
    ensures { result ≡ first_of (part store.now q) }
{
    let from = PART * q;
    let to = from + PART;
    first_item(&store[from..to])
}

// Whether each number of a part from `from` on is 0. It looks at all of them: without a way out the loop takes several at a time.
pub fn zeros_from(part: &[i32], from: usize) -> bool
    requires { from ≤ length part.now }
    ensures { result ≡ zeros_past part.now from }
{
    let mut clean = true;
    for v in &part[from..] {
        if *v != 0 {
            clean = false;
        }
    }
    clean
}

// Whether a queue has room for its count and its places past the last item are 0.
fn quiet_queue(part: &[i32], count: usize) -> bool
    requires { length part.now ≡ PART }
    ensures { result ≡ quiet_queue part.now count }
{
    if ROOM < count {
        return false;
    }
    zeros_from(part, FIELDS * count)
}

// Whether that holds of every queue.
pub fn quiet(store: &[i32], counts: [u8; QUEUES]) -> bool
    requires { length store.now ≡ STORE }
    ensures { result ≡ quiet_from store.now 0 counts }
{
    for q in 0..QUEUES {
        let from = PART * q;
        let to = from + PART;
        let n = counts[q] as usize;
        if !quiet_queue(&store[from..to], n) {
            return false;
        }
    }
    true
}
