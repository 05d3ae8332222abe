// The calls of standard input, one at a time, by way of a lent buffer. A read that fails ends the stream.
#![tactic(auto)]

ghost use Rattle.std.specs.Prelude.{◌≤◌, ◌+◌, ◌≡◌, length};
ghost use Rattle.replay_stream.specs.Found.{Bodied};

use std::io::Stdin;

// How many bytes stand before a body, and how many a body has at the most.
const HEAD: usize = 5;

const MOST: usize = 40000;

// The bytes of the buffer that were read and are not used yet.
#[derive(Clone, Copy)]
pub struct Window {
    pub at: usize,
    pub end: usize,
}

// What comes next: a call, whose body stands from `at` to `end`; the middle of one; or nothing.
#[derive(Clone, Copy)]
pub enum Found {
    Call { call: u8, at: usize, end: usize },
    Cut,
    End,
}

// What was found, and the bytes behind it.
#[derive(Clone, Copy)]
pub struct Next {
    pub found: Found,
    pub window: Window,
}

// Moves the window's bytes to the front; answers how many they are.
fn to_front(input: &mut [u8], w: Window) -> usize
    requires { (w.at ≤ w.end) × (w.end ≤ length input.old) }
    ensures { result ≤ length input.new }
{
    input.copy_within(w.at..w.end, 0);
    w.end - w.at
}

// A window of n bytes or more, or of all that the input still has.
fn ready(stdin: Stdin, input: &mut [u8], w: Window, n: usize) -> Window
    requires { (w.at ≤ w.end) × (w.end ≤ length input.old) }
    ensures { (result.at ≤ result.end) × (result.end ≤ length input.new) }
{
    if n <= w.end - w.at {
        return w;
    }
    let from = to_front(&mut *input, w);
    let f = base_input::fill(stdin, &mut *input, from, n);
    Window { at: 0, end: f.end }
}

// A call whose body is too long: its number is 0, which is no call's, and it has no body.
fn long_call(at: usize, end: usize) -> Next
    ensures { (Bodied result.found 0) × (result.window.at ≡ at) × (result.window.end ≡ end) }
{
    Next {
        found: Found::Call {
            call: 0,
            at: 0,
            end: 0,
        },
        window: Window { at, end },
    }
}

// No call, and no bytes behind it.
fn no_call(found: Found) -> Next
    ensures { (result.found ≡ found) × (result.window.at ≡ 0) × (result.window.end ≡ 0) }
{
    Next {
        found,
        window: Window { at: 0, end: 0 },
    }
}

// Passes over n bytes that were not read yet.
fn pass_over(stdin: Stdin, input: &mut [u8], n: usize) -> Next
    ensures body { Bodied result.found (length input.new) }
    ensures window { (result.window.at ≤ result.window.end) × (result.window.end ≤ length input.new) }
{
    let mut left = n;
    while 0 < left {
        let end = base_input::more(stdin, &mut *input, 0).end;
        if end == 0 {
            return no_call(Found::Cut);
        }
        if left < end {
            return long_call(left, end);
        }
        left -= end;
    }
    long_call(0, 0)
}

// A call whose body of n bytes is too long: its bytes are passed over.
fn too_long(stdin: Stdin, input: &mut [u8], w: Window, n: usize) -> Next
    requires { (w.at ≤ w.end) × (w.end ≤ length input.old) }
    ensures body { Bodied result.found (length input.new) }
    ensures window { (result.window.at ≤ result.window.end) × (result.window.end ≤ length input.new) }
{
    let there = w.end - w.at;
    if n <= there {
        return long_call(w.at + n, w.end);
    }
    pass_over(stdin, &mut *input, n - there)
}

// A call whose body of n bytes begins at the window.
fn whole(stdin: Stdin, input: &mut [u8], before: Window, call: u8, n: usize) -> Next
    requires { (before.at ≤ before.end) × (before.end ≤ length input.old) }
    ensures body { Bodied result.found (length input.new) }
    ensures window { (result.window.at ≤ result.window.end) × (result.window.end ≤ length input.new) }
{
    let w = ready(stdin, &mut *input, before, n);
    if w.end - w.at < n {
        return no_call(Found::Cut);
    }
    let end = w.at + n;
    Next {
        found: Found::Call {
            call,
            at: w.at,
            end,
        },
        window: Window {
            at: end,
            end: w.end,
        },
    }
}

fn length_at(input: &[u8], at: usize) -> usize
    requires { at + 4 ≤ length input.now }
{
    base_number::bits(base_number::int_at(input, at)) as usize
}

// The next call of the stream.
pub fn next_call(stdin: Stdin, input: &mut [u8], before: Window) -> Next
    requires { (before.at ≤ before.end) × (before.end ≤ length input.old) }
    ensures body { Bodied result.found (length input.new) }
    ensures window { (result.window.at ≤ result.window.end) × (result.window.end ≤ length input.new) }
{
    let w = ready(stdin, &mut *input, before, HEAD);
    let there = w.end - w.at;
    if there == 0 {
        return no_call(Found::End);
    }
    if there < HEAD {
        return no_call(Found::Cut);
    }
    let n = length_at(&*input, w.at);
    let call = input[w.at + 4];
    let behind = Window {
        at: w.at + HEAD,
        end: w.end,
    };
    if MOST < n {
        return too_long(stdin, &mut *input, behind, n);
    }
    whole(stdin, &mut *input, behind, call, n)
}
