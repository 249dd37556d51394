//! Lists that share their nodes: each node stands at most once in all of them.
ghost use Rattle.std.specs.Prelude.{IfSome, None, ◌≡◌, ◌++◌, [], ◌∷◌, ◌<◌, ◌≤◌, false, true, length, map, replicate, slice_get, slice_set, IfOk, MatchOption, ◌+◌, ◌⊎◌};
ghost use Rattle.std.specs.List.{last_or};
ghost use Rattle.parts_links.specs.Links.{Lists, list_at, stands_in, on_a_list, without, placed, placed_before, follower_on, OthersStay, StandOnce};

use crate::block::Block;
use std::alloc::{AllocError, Global};
use std::marker::Model;

/// Lists of nodes. The cell of a node has its number; the cell `nodes + k` is the end of list k.
#[derive(Drop)]
pub struct Links {
    block: Block,
    nodes: u32,
    lists: u32,
}

impl Model for Links {
    ghost use Rattle.std.specs.Prelude.{◌≤◌};
    ghost use Rattle.parts_links.specs.Links.{Lists, lists_code, read_lists, AreLinked};

    ghost Value = { Lists };

    ghost coded = { lists_code };

    ghost view = { λ l. record { nodes = l.nodes; lists = read_lists l.block l.nodes 0 l.lists } };

    ghost invariant = { λ l. (l.nodes ≤ 65536) × (l.lists ≤ 65536) × AreLinked l.nodes l.lists l.block (read_lists l.block l.nodes 0 l.lists) };
}

impl Links {
    /// All lists are empty.
    pub fn open(alloc: Global, nodes: u32, lists: u32) -> Result<Links, AllocError>
        requires { (nodes ≤ 65536) × (lists ≤ 65536) }
        ensures { IfOk result (λ l. (l.nodes ≡ nodes) × (l.lists ≡ replicate lists [])) }
    {
        let block = Block::open(alloc, nodes + lists)?;
        Ok(Links {
            block,
            nodes,
            lists,
        })
    }

    pub fn push_front(&mut self, list: u32, node: u32)
        requires { (list < length self.old.lists) × (node < self.old.nodes) × (on_a_list node self.old.lists ≡ false) }
        ensures { self.new ≡ record self.old { lists = slice_set self.old.lists list (node ∷ list_at self.old.lists list) } }
    {
        let first = self.block.after(self.nodes + list);
        self.place(list, first, node);
    }

    pub fn push_back(&mut self, list: u32, node: u32)
        requires { (list < length self.old.lists) × (node < self.old.nodes) × (on_a_list node self.old.lists ≡ false) }
        ensures { self.new ≡ record self.old { lists = slice_set self.old.lists list (list_at self.old.lists list ++ node ∷ []) } }
    {
        let end = self.nodes + list;
        self.place(list, end, node);
    }

    pub fn insert_before(&mut self, at: u32, node: u32)
        requires { (at < self.old.nodes) × (on_a_list at self.old.lists ≡ true) × (node < self.old.nodes) × (on_a_list node self.old.lists ≡ false) }
        ensures { self.new ≡ record self.old { lists = map (placed_before at node) self.old.lists } }
    {
        let list = self.block.list(at) - 1;
        self.place(list, at, node);
    }

    /// Puts the node into the list, before the cell `at`, which stands in the list or is its end.
    fn place(&mut self, list: u32, at: u32, node: u32)
        requires node { (list < length self.old.lists) × (node < self.old.nodes) × (on_a_list node self.old.lists ≡ false) }
        requires at { (at ≡ self.old.nodes + list) ⊎ (stands_in at (list_at self.old.lists list) ≡ true) }
        ensures { self.new ≡ record self.old { lists = slice_set self.old.lists list (placed at node (list_at self.old.lists list)) } }
    {
        self.block.put_in(at, node, list + 1);
    }

    /// Takes the node out of its list.
    pub fn unlink(&mut self, node: u32)
        requires { (node < self.old.nodes) × (on_a_list node self.old.lists ≡ true) }
        ensures lists { self.new ≡ record self.old { lists = map (without node) self.old.lists } }
        ensures gone { on_a_list node self.new.lists ≡ false }
        ensures others { OthersStay node self.old.lists self.new.lists }
    {
        self.block.take_out(node);
    }

    /// The head of the list. None exactly where it is empty.
    pub fn front(&self, list: u32) -> Option<u32>
        requires { list < length self.now.lists }
        ensures head { result ≡ slice_get (list_at self.now.lists list) 0 }
        ensures stands { IfSome result (λ n. (n < self.now.nodes) × (on_a_list n self.now.lists ≡ true)) }
    {
        let first = self.block.after(self.nodes + list);
        if first < self.nodes {
            Some(first)
        } else {
            None
        }
    }

    /// The tail of the list. None exactly where it is empty.
    pub fn back(&self, list: u32) -> Option<u32>
        requires { list < length self.now.lists }
        ensures tail { result ≡ last_or None (list_at self.now.lists list) }
    {
        let last = self.block.before(self.nodes + list);
        if last < self.nodes { Some(last) } else { None }
    }

    /// The node after this one in its list. None exactly where it is the last.
    pub fn next(&self, node: u32) -> Option<u32>
        requires { (node < self.now.nodes) × (on_a_list node self.now.lists ≡ true) }
        ensures follower { result ≡ follower_on node self.now.lists }
        ensures stands { IfSome result (λ n. (n < self.now.nodes) × (on_a_list n self.now.lists ≡ true)) }
    {
        let next = self.block.after(node);
        if next < self.nodes { Some(next) } else { None }
    }

    /// The node at a place of the list, from 0 on. None exactly where the list is not so long.
    pub fn nth(&self, list: u32, place: u32) -> Option<u32>
        requires { list < length self.now.lists }
        ensures node { result ≡ slice_get (list_at self.now.lists list) place }
        ensures small { IfSome result (λ n. n < self.now.nodes) }
        ensures few { IfSome result (λ _. place < 65536) }
    {
        // what the lists keep to is known once they are read
        let _nodes = self.nodes;
        self.stand_once();
        let mut node = self.front(list)?;
        for _past in 0..place {
            node = self.next(node)?;
        }
        Some(node)
    }

    /// Costs nothing when it runs: a node stands at most once in all the lists.
    pub fn stand_once(&self)
        ensures { StandOnce self.now }
    {
        // what the lists keep to is known once they are read
        let _nodes = self.nodes;
    }

    /// The list that the node is on. None exactly where it is on none.
    pub fn list_of(&self, node: u32) -> Option<u32>
        requires { node < self.now.nodes }
        ensures { MatchOption result (on_a_list node self.now.lists ≡ false) (λ k. (k < length self.now.lists) × (stands_in node (list_at self.now.lists k) ≡ true)) }
    {
        match self.block.list(node) {
            0 => None,
            marked => Some(marked - 1),
        }
    }
}
