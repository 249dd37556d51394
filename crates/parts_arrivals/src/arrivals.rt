//! The order of arrival, and that within each rank.
ghost use Rattle.std.specs.Prelude.{◌≡◌, ◌==◌, ◌++◌, ◌∷◌, [], ◌<◌, ◌≤◌, false, true, not, nat_lt, ℕ, is_some, IfOk, IfSome, length, option_map, slice_get};
ghost use Rattle.parts_arrivals.specs.Arrivals.{AreArrivals, has_come, without_node, first_of_rank, next_of_rank, oldest, next_in_order, highest_rank};
ghost use Rattle.parts_arrivals.specs.Held.{first_nodes, is_marked};
ghost use Rattle.parts_arrivals.specs.Nth.{arrival_of};

use crate::marks::{highest_mark, with_mark};
use parts_filled::filled;
use parts_links::Links;
use std::alloc::{AllocError, Global};
use std::marker::Model;

// The lists by age: of the nodes that have come, and of those that have not.
const COME: u32 = 0;

const FREE: u32 = 1;

/// Nodes that have come, each with a rank from 0 to 31.
#[derive(Drop)]
pub struct Arrivals {
    arrived: Links,
    ranked: Links,
    // of each node the rank that it came with last
    ranks: Vec<u8>,
    // the ranks that have nodes
    marks: u32,
    count: u32,
}

impl Model for Arrivals {
    ghost use Rattle.parts_links.specs.Links.{list_at};
    ghost use Rattle.parts_arrivals.specs.Arrivals.{Arrivals};
    ghost use Rattle.parts_arrivals.specs.Held.{AreHeld, order_of};

    ghost Value = { Arrivals };

    ghost view = { λ a. record { nodes = a.arrived.nodes; order = order_of a.ranks.items (list_at a.arrived.lists 0) } };

    ghost invariant = { λ a. AreHeld a.arrived a.ranked a.ranks.items a.marks a.count };
}

// So many nodes, of which none has come.
fn all_free(alloc: Global, nodes: u32) -> Result<Links, AllocError>
    requires { nodes ≤ 65536 }
    ensures { IfOk result (λ l. l ≡ record { nodes = nodes; lists = [] ∷ first_nodes nodes ∷ [] }) }
{
    let mut arrived = Links::open(alloc, nodes, 2)?;
    for node in 0..nodes {
        arrived.push_back(FREE, node);
    }
    Ok(arrived)
}

impl Arrivals {
    /// So many nodes, of which none has come.
    pub fn open(alloc: Global, nodes: u32) -> Result<Arrivals, AllocError>
        requires { nodes ≤ 65536 }
        ensures { IfOk result (λ a. a ≡ record { nodes = nodes; order = [] }) }
    {
        let arrived = all_free(alloc, nodes)?;
        let ranked = Links::open(alloc, nodes, 32)?;
        let ranks = filled(alloc, nodes as usize, 0)?;
        arrived.stand_once();
        ranked.stand_once();
        Ok(Arrivals {
            arrived,
            ranked,
            ranks,
            marks: 0,
            count: 0,
        })
    }

    /// A node that had not come comes, with this rank, as the youngest.
    pub fn enter(&mut self, rank: u8) -> u32
        requires rank { rank < 32 }
        requires room { length self.old.order < self.old.nodes }
        ensures last { self.new ≡ record self.old { order = self.old.order ++ record { node = result; rank = rank } ∷ [] } }
        ensures known { result < self.old.nodes }
        ensures fresh { has_come result self.old.order ≡ false }
    {
        let node = self.arrived.front(FREE).unwrap();
        self.arrived.unlink(node);
        self.arrived.push_back(COME, node);
        self.ranks[node as usize] = rank;
        self.ranked.push_back(rank as u32, node);
        self.marks = with_mark(self.marks, rank, true);
        self.count += 1;
        self.arrived.stand_once();
        self.ranked.stand_once();
        node
    }

    /// The node leaves, wherever it stands.
    pub fn leave(&mut self, node: u32)
        requires { has_come node self.old.order ≡ true }
        ensures { self.new ≡ record self.old { order = without_node node self.old.order } }
    {
        self.arrived.unlink(node);
        self.arrived.push_front(FREE, node);
        self.ranked.unlink(node);
        let rank = self.ranks[node as usize];
        let remains = self.ranked.front(rank as u32).is_some();
        self.marks = with_mark(self.marks, rank, remains);
        self.count -= 1;
        self.arrived.stand_once();
        self.ranked.stand_once();
    }

    /// How many have come.
    pub fn len(&self) -> u32
        ensures value { result ≡ length self.now.order }
        ensures arrivals { AreArrivals self.now }
    {
        self.count
    }

    pub fn is_empty(&self) -> bool
        ensures value { result ≡ (length self.now.order == 0) }
        ensures arrivals { AreArrivals self.now }
    {
        self.count == 0
    }

    /// Whether all nodes have come.
    pub fn is_full(&self) -> bool
        ensures { result ≡ not (nat_lt (length self.now.order) self.now.nodes) }
    {
        self.arrived.front(FREE).is_none()
    }

    /// The highest rank that a node has. None exactly where none has come.
    pub fn highest(&self) -> Option<u8>
        ensures value { result ≡ highest_rank self.now.order }
        ensures rank { IfSome result (λ rank. rank < 32) }
    {
        highest_mark(self.marks)
    }

    /// The ranks that have nodes, a bit for each, the least standing for rank 0.
    pub fn ranks(&self) -> u32
        ensures value { (rank : ℕ) → rank < 32 → is_marked rank result ≡ is_some (first_of_rank rank self.now.order) }
        ensures arrivals { AreArrivals self.now }
    {
        self.marks
    }

    /// The oldest of a rank. None exactly where the rank has none.
    pub fn first(&self, rank: u8) -> Option<u32>
        requires { rank < 32 }
        ensures value { result ≡ first_of_rank rank self.now.order }
        ensures arrivals { AreArrivals self.now }
    {
        self.ranked.front(rank as u32)
    }

    /// The one of the same rank that came next after this. None exactly where there is none.
    pub fn next(&self, node: u32) -> Option<u32>
        requires { has_come node self.now.order ≡ true }
        ensures { result ≡ next_of_rank node self.now.order }
    {
        self.ranked.next(node)
    }

    /// The oldest of all. None exactly where none has come.
    pub fn oldest(&self) -> Option<u32>
        ensures value { result ≡ oldest self.now.order }
        ensures arrivals { AreArrivals self.now }
    {
        self.arrived.front(COME)
    }

    /// The node at a place in the order of arrival, from 0 on, and its rank. None exactly where not so many have come.
    pub fn nth(&self, place: u32) -> Option<(u32, u8)>
        ensures value { option_map arrival_of result ≡ slice_get self.now.order place }
        ensures known { IfSome result (λ a. a.0 < self.now.nodes) }
        ensures few { IfSome result (λ _. place < 65536) }
    {
        let node = self.arrived.nth(COME, place)?;
        Some((node, self.ranks[node as usize]))
    }

    /// The one that came next after this. None exactly where there is none.
    pub fn after(&self, node: u32) -> Option<u32>
        requires { has_come node self.now.order ≡ true }
        ensures { result ≡ next_in_order node self.now.order }
    {
        self.arrived.next(node)
    }
}
