//! The lists of runnable threads, one for each priority from 1 to 255.
//!
//! Proved: each call leaves exactly the lists of its definition; `highest` is the head of the highest list.
//!
//! Contracts see them as 255 lists of thread numbers, the list of priority p at index p - 1; `Lists.antt` of `rules_lists` states what
//! each call does to them. The lists are linked in one block of cells, so a thread is taken out of wherever it stands without a
//! search, and a bitmap of four words finds the highest list that is not empty. No call after `open` takes memory.
#![tactic(auto)]

ghost use Rattle.std.specs.Prelude.{ℕ, [], ◌≡◌, ◌<◌, ◌≤◌, ◌-◌, if◌then◌else◌, length, slice_get, IfOk, IfSome, Some, false, true};
ghost use Rattle.parts_links.specs.Links.{follower_on, list_at, on_a_list, stands_in};
ghost use Rattle.rules_lists.specs.Lists.{AreReadyLists, change_list, empty_lists, list_of, without, to_tail, to_head, highest, prio_of};
ghost use Rattle.parts_ready.specs.Ends.{at_end, leads, put_at};
ghost use Rattle.parts_ready.specs.ReadyView.{AreMarked, named};
ghost use Rattle.parts_ready.specs.Bits.{IsTop};

mod bitmap;

use bitmap::Bitmap;
use parts_links::Links;
use std::alloc::{AllocError, Global};
use std::marker::Model;
use words_numbers::{Prio, Tid};

// in place of the head's number where all lists are empty
const NO_THREAD: u16 = 256;

// The ends of a list.
#[derive(Clone, Copy)]
enum End {
    Head,
    Tail,
}

/// The runnable threads, each at most once, on a list for each priority.
#[derive(Drop)]
pub struct Ready {
    threads: u16,
    // the number of the head of the highest list that is not empty
    head: u16,
    // the priority of that list, 0 where all are empty
    top: u32,
    // a node for each number that a thread can have
    links: Links,
    // the places of the lists that are not empty
    occupied: Bitmap,
}

impl Model for Ready {
    ghost use Rattle.rules_lists.specs.Lists.{ReadyLists};

    ghost Value = { ReadyLists };

    ghost use Rattle.parts_ready.specs.ReadyView.{ready_lists, IsReady};

    ghost view = { ready_lists };

    ghost invariant = { IsReady };
}

impl Ready {
    /// 255 empty lists for threads with numbers below `threads`.
    pub fn open(alloc: Global, threads: u16) -> Result<Ready, AllocError>
        requires { threads ≤ 256 }
        ensures { IfOk result (λ ready. ready ≡ record { threads = threads; lists = empty_lists }) }
    {
        let links = Links::open(alloc, 256, 255)?;
        Ok(Ready {
            threads,
            head: NO_THREAD,
            top: 0,
            links,
            occupied: Bitmap::new(),
        })
    }

    /// Takes the thread from wherever it stands, and makes it the tail of the list of this priority.
    #[inline(always)]
    pub fn to_tail(&mut self, t: Tid, p: Prio)
        requires { t < self.old.threads }
        ensures { self.new ≡ record self.old { lists = to_tail t p self.old.lists } }
    {
        let node = t.get() as u32;
        match self.links.list_of(node) {
            None => self.join_last(t, p),
            Some(place) => {
                if place + 1 == p.get() as u32 {
                    if let Some(next) = self.links.next(node) {
                        self.rotate(t, p, next);
                    }
                } else {
                    self.come_last(t, p);
                }
            }
        }
    }

    // A thread of no list becomes the tail of the list of this priority.
    #[inline(never)]
    fn join_last(&mut self, t: Tid, p: Prio)
        requires known { t < self.old.threads }
        requires off { on_a_list t self.old.lists ≡ false }
        ensures { self.new ≡ record self.old { lists = to_tail t p self.old.lists } }
    {
        self.join(t, p, End::Tail);
    }

    // A thread of another list becomes the tail of the list of this priority.
    #[inline(never)]
    fn come_last(&mut self, t: Tid, p: Prio)
        requires { t < self.old.threads }
        ensures { self.new ≡ record self.old { lists = to_tail t p self.old.lists } }
    {
        self.put(t, p, End::Tail);
    }

    // A thread of the list of this priority becomes its tail. The thread `next` stands after it.
    #[inline(never)]
    fn rotate(&mut self, t: Tid, p: Prio, next: u32)
        requires on { (1 ≤ p) × (stands_in t (list_of p self.old.lists) ≡ true) }
        requires next { (next < 256) × (follower_on t self.old.lists ≡ Some next) }
        ensures { self.new ≡ record self.old { lists = to_tail t p self.old.lists } }
    {
        let node = t.get() as u32;
        self.links.unlink(node);
        self.links.push_back(p.get() as u32 - 1, node);
        if self.head == t.get() {
            self.head = next as u16;
        }
    }

    /// Takes the thread from wherever it stands, and makes it the head of the list of this priority.
    #[inline(never)]
    pub fn to_head(&mut self, t: Tid, p: Prio)
        requires { t < self.old.threads }
        ensures { self.new ≡ record self.old { lists = to_head t p self.old.lists } }
    {
        self.put(t, p, End::Head);
    }

    #[inline(always)]
    fn put(&mut self, t: Tid, p: Prio, end: End)
        requires { t < self.old.threads }
        ensures { self.new ≡ record self.old { lists = put_at end t p self.old.lists } }
    {
        self.remove(t);
        self.join(t, p, end);
    }

    // A thread of no list comes to that end of the list of this priority.
    #[inline(always)]
    fn join(&mut self, t: Tid, p: Prio, end: End)
        requires known { t < self.old.threads }
        requires off { on_a_list t self.old.lists ≡ false }
        ensures { self.new ≡ record self.old { lists = change_list p (at_end end t) self.old.lists } }
    {
        let level = p.get() as u32;
        let place = level - 1;
        let (head, top) = head_with(self.head, self.top, t, level, end);
        self.occupied.mark(place);
        self.head = head;
        self.top = top;
        let node = t.get() as u32;
        match end {
            End::Head => self.links.push_front(place, node),
            End::Tail => self.links.push_back(place, node),
        }
    }

    /// Takes the thread from the list on which it stands, if there is one.
    #[inline(always)]
    pub fn remove(&mut self, t: Tid)
        ensures { self.new ≡ record self.old { lists = without t self.old.lists } }
    {
        if let Some(place) = self.links.list_of(t.get() as u32) {
            self.leave(t, place);
        }
    }

    // The thread stands on the list at `place`, and leaves it.
    #[inline(always)]
    fn leave(&mut self, t: Tid, place: u32)
        requires { stands_in t (list_at self.old.lists place) ≡ true }
        ensures { self.new ≡ record self.old { lists = without t self.old.lists } }
    {
        self.links.unlink(t.get() as u32);
        match self.links.front(place) {
            Some(first) => {
                if self.head == t.get() {
                    self.head = first as u16;
                }
            }
            None => {
                self.occupied.unmark(place);
                if self.head == t.get() {
                    let (head, top) = find_head(&self.links, &self.occupied);
                    self.head = head;
                    self.top = top;
                }
            }
        }
    }

    /// The head of the highest list that is not empty. None exactly where all are empty.
    #[inline(always)]
    pub fn highest(&self) -> Option<Tid>
        ensures value { result ≡ highest self.now.lists }
        ensures known { IfSome result (λ t. t < self.now.threads) }
        ensures lists { AreReadyLists self.now }
    {
        Tid::try_new(self.head)
    }

    /// The thread at a place of the list of this priority, from 0 on, the head first. None exactly where the list is not so long.
    pub fn nth(&self, p: Prio, place: u32) -> Option<Tid>
        ensures thread { result ≡ slice_get (list_of p self.now.lists) place }
        ensures few { IfSome result (λ _. place < 65536) }
    {
        match self.links.nth(p.get() as u32 - 1, place) {
            Some(node) => Tid::try_new(node as u16),
            None => None,
        }
    }

    /// Whether these threads and no other stand on the list of this priority, in that order, the head first. One walk.
    pub fn is_list(&self, p: Prio, threads: &[u16]) -> bool
        ensures same { result ≡ true → list_of p self.now.lists ≡ threads.now }
        ensures only { list_of p self.now.lists ≡ threads.now → result ≡ true }
    {
        // so it is known that each stands there once
        self.links.stand_once();
        let mut node = self.links.front(p.get() as u32 - 1);
        for place in 0..threads.len() {
            match node {
                None => return false,
                Some(here) => {
                    if here != u32::from(threads[place]) {
                        return false;
                    }
                    node = self.links.next(here);
                }
            }
        }
        match node {
            None => true,
            Some(_) => false,
        }
    }

    /// How many lists are empty from that of this priority on, the next lower ones behind it, of so many. The contract lets
    /// it tell fewer.
    pub fn empty_from(&self, p: Prio, most: u32) -> u32
        requires { most ≤ p }
        ensures few { result ≤ most }
        ensures empty { (k : ℕ) → k < result → list_of (p - k) self.now.lists ≡ [] }
    {
        let place = p.get() as u32;
        let empty = place - self.occupied.end_below(place);
        empty.min(most)
    }

    /// The priority of the list on which the thread stands. None exactly where it stands on none.
    pub fn prio_of(&self, t: Tid) -> Option<Prio>
        ensures { result ≡ prio_of t self.now.lists }
    {
        match self.links.list_of(t.get() as u32) {
            Some(place) => Prio::try_new(place as u8 + 1),
            None => None,
        }
    }
}

// The number of the head of the highest list and the priority of that list, which were `head` and `top` before the thread came
// to that end of the list of priority `level`.
#[inline(always)]
fn head_with(head: u16, top: u32, t: Tid, level: u32, end: End) -> (u16, u32)
    ensures head { result.0 ≡ (if leads end level top then t else head) }
    ensures top { result.1 ≡ (if leads end level top then level else top) }
{
    let leads = match end {
        End::Head => top <= level,
        End::Tail => top < level,
    };
    if leads { (t.get(), level) } else { (head, top) }
}

// The number of the head of the highest list that is not empty, and the priority of that list.
#[inline(always)]
fn find_head(links: &Links, occupied: &Bitmap) -> (u16, u32)
    requires nodes { (links.now.nodes ≡ 256) × (length links.now.lists ≡ 255) }
    requires marked { AreMarked links.now.lists occupied.now.words }
    ensures head { named result.0 ≡ highest links.now.lists }
    ensures top { IsTop result.1 occupied.now.words }
{
    let place = occupied.highest();
    match links.front(place) {
        Some(first) => (first as u16, place + 1),
        None => (NO_THREAD, 0),
    }
}
