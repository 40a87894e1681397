// The queue of waiting cells: an indexed binary heap of packed keys. heap holds keys in entries 1 to waiting, with 0 in entry 0;
// place holds where each waiting cell's key stands. Sifting moves a hole, and stores the key in hand once, at the end.

#![tactic(auto)]

ghost use Rattle.std.specs.Prelude.{◌≡◌, ◌+◌, ◌-◌, ◌*◌, ◌%◌, ◌<◌, ◌≤◌, length, get_or};
ghost use Rattle.queue.specs.Queue.{none, key_of, cell, Lesser, IsQueue, Rising, Risen, Gap, Sunk, Lowered, Absent, Waits, Popped};
ghost use Rattle.queue.specs.Same.{SameQueue};

use model::Head;

// The length of a heap for the largest plot: an entry before the keys, and room for two behind them.
pub const ROOM: usize = Head::MAX_CELLS + 3;

// No key, and greater than each: it stands behind the keys, so that sink reads two children of an entry without a test for the end.
pub const NONE: u64 = u64::MAX;

// The lesser key is the cell to take first: smaller cost + learned, then larger cost, then lower cell number. (A sum, which the laws
// speak of: bytes put together would have to be turned into it.)
pub fn key_of(cost: u16, learned: u16, cell: u16) -> u64
    ensures { result ≡ key_of cost learned cell }
{
    let c = cost as u64;
    let l = learned as u64;
    (c + l) * 4294967296 + ((65535 - c) * 65536 + cell as u64)
}

// The cell of a key, which is what is left of the sum.
pub fn cell_of(k: u64) -> usize
    ensures { result ≡ k % 65536 }
{
    (k % 65536) as usize
}

// Which of the keys at k and k + 1 is the lesser. (No `min`: it is asked which, and not for the value.)
fn lesser(a: u64, b: u64, k: usize) -> usize
    requires { k < 1000000 }
    ensures { Lesser a b k result }
{
    if b < a {
        return k + 1;
    }
    k
}

// rise and sink take the queue's lists and not the queue: their loops write to slices in locals. (They go by halves and doubles of an
// index, up and down the heap, so no range fits.)

// Entry `at` is free: greater parents come down one step each, and v is put where they left.
fn rise(heap: &mut [u64], place: &mut [u16], n: usize, len: usize, at: usize, v: u64)
    requires { Rising n len heap.old place.old at v }
    ensures { Risen n len heap.old place.old at v heap.new place.new }
{
    let mut i = at;
    while v < heap[i / 2] {
        let k = heap[i / 2];
        heap[i] = k;
        place[cell_of(k)] = i as u16;
        i = i / 2;
    }
    heap[i] = v;
    place[cell_of(v)] = i as u16;
}

// Entry 1 is free: children less than v come up one step each; the entry that is free in the end.
fn sink(heap: &mut [u64], place: &mut [u16], n: usize, len: usize, v: u64) -> usize
    requires gap { Gap n len heap.old place.old 1 v }
    requires len_value { get_or heap.old (len + 1) 0 ≡ none }
    ensures { Sunk n len heap.old place.old v result heap.new place.new }
{
    let mut i = 1;
    while 2 * i <= len {
        let k = lesser(heap[2 * i], heap[2 * i + 1], 2 * i);
        let x = heap[k];
        if v <= x {
            return i;
        }
        heap[i] = x;
        place[cell_of(x)] = i as u16;
        i = k;
    }
    i
}

// The waiting cells of a plot with `cells` cells, `waiting` of them.
#[derive(Drop)]
pub struct Queue<'a> {
    pub heap: &'a mut [u64],
    pub place: &'a mut [u16],
    pub cells: usize,
    pub waiting: usize,
}

impl<'a> Queue<'a> {
    // The cell to take first.
    pub fn first(&self) -> usize
        requires { 1 < length self.now.heap.now }
        ensures { result ≡ cell self.now.heap.now 1 }
    {
        cell_of(self.heap[1])
    }

    // A cell that does not wait comes in with key v.
    pub fn push(&mut self, v: u64)
        requires { Absent self.old.cells self.old.waiting self.old.heap.now self.old.place.now v }
        ensures keys { Lowered self.old.cells self.old.waiting self.old.heap.now self.old.place.now v
            (self.old.waiting + 1) self.new.heap.now self.new.place.now }
        ensures waiting { self.new.waiting ≡ self.old.waiting + 1 }
        ensures same { SameQueue self.old self.new }
    {
        let len = self.waiting + 1;
        rise(self.heap, self.place, self.cells, len, len, v);
        self.waiting = len;
    }

    // The key of a waiting cell is lowered to v.
    pub fn lower(&mut self, v: u64)
        requires { Waits self.old.cells self.old.waiting self.old.heap.now self.old.place.now v }
        ensures keys { Lowered self.old.cells self.old.waiting self.old.heap.now self.old.place.now v
            self.old.waiting self.new.heap.now self.new.place.now }
        ensures waiting { self.new.waiting ≡ self.old.waiting }
        ensures same { SameQueue self.old self.new }
    {
        let at = self.place[cell_of(v)] as usize;
        rise(self.heap, self.place, self.cells, self.waiting, at, v);
    }

    // The least key goes out.
    pub fn pop(&mut self)
        requires { (1 ≤ self.old.waiting) × IsQueue self.old.cells self.old.waiting self.old.heap.now self.old.place.now }
        ensures keys { Popped self.old.cells self.old.waiting self.old.heap.now self.old.place.now
            self.new.heap.now self.new.place.now }
        ensures waiting { self.new.waiting ≡ self.old.waiting - 1 }
        ensures same { SameQueue self.old self.new }
    {
        let len = self.waiting;
        let v = self.heap[len];
        self.heap[len] = NONE;
        self.waiting -= 1;
        if 1 < len {
            let i = sink(self.heap, self.place, self.cells, self.waiting, v);
            rise(self.heap, self.place, self.cells, self.waiting, i, v);
        }
    }
}
