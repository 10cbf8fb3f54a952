// The winner tree. Page i of n is leaf n + i, the nodes below node k are 2 k and 2 k + 1, and each node has the page
// that is ahead of the two below it; so node 1 has the page that is ahead of all. Node 0 has the page that comes
// second, or n where it is not known. Nodes hold the numbers of pages in 16 bits.
ghost use Rattle.std.specs.Prelude.{◌≡◌, true, cond, ℕ, ◌+◌, ◌*◌, ◌-◌, ◌/◌, ◌≤◌, ◌<◌, IfSome, length, get_or};
ghost use Rattle.merge.specs.Tree.{max_pages, ahead, winner, Above, Settled, Won, NextBest, Second};

use crate::Merge;

// Page `a` where it is ahead, else page `b`.
fn pick(ahead: bool, a: u16, b: u16) -> u16
    ensures { result ≡ cond ahead a b }
{
    if ahead { a } else { b }
}

impl Merge {
    // Whether page `a`, whose key is `key`, is ahead of page `b`: its head comes no later. All tests are made, since a
    // branch would be guessed wrong as often as not.
    fn is_ahead(&self, a: u16, key: u64, b: u16) -> bool
        requires { (a < max_pages) × (b < max_pages) × (key ≡ get_or self.now.keys a 0) }
        ensures { result ≡ ahead self.now.keys self.now.tails a b }
    {
        let other = self.keys[b as usize];
        let later = self.tails[b as usize];
        (key < other) | ((key == other) & (self.tails[a as usize] <= later))
    }

    // Of the pages at the two nodes below node `k`, the one that is ahead.
    fn winner_at(&self, k: usize) -> u16
        requires { (k < max_pages) × (get_or self.now.tree (2 * k) 0 < max_pages)
            × (get_or self.now.tree (2 * k + 1) 0 < max_pages) }
        ensures { result ≡ winner self.now.keys self.now.tails self.now.tree k }
    {
        let a = self.tree[2 * k];
        let b = self.tree[2 * k + 1];
        if self.is_ahead(a, self.keys[a as usize], b) {
            a
        } else {
            b
        }
    }

    // Puts the leaves.
    fn put_leaves(&mut self, n: usize)
        requires { n ≤ max_pages }
        ensures rest { self.new ≡ record self.old { tree = self.new.tree } }
        ensures size { length self.new.tree ≡ 2 * max_pages }
        ensures leaves { (i : ℕ) → i < n → get_or self.new.tree (n + i) 0 ≡ i }
    {
        for i in 0..n {
            self.tree[n + i] = i as u16;
        }
    }

    // Fills the tree of `n` pages. The second is not known.
    pub fn build_tree(&mut self, n: usize)
        requires { n ≤ max_pages }
        ensures rest { self.new ≡ record self.old { tree = self.new.tree } }
        ensures won { Won self.new.keys self.new.tails n self.new.tree }
        ensures second { Second self.new.keys self.new.tails n self.new.tree }
    {
        self.put_leaves(n);
        for k in (1..n).rev() {
            let page = self.winner_at(k);
            self.tree[k] = page;
        }
        self.tree[0] = n as u16;
    }

    // Makes the nodes above leaf n + `j` right again, whose head has changed. The page that is ahead goes up with them,
    // so that no node waits for what was written at the one below it; next to node k stands node 4 (k / 2) + 1 - k.
    pub fn replay(&mut self, n: usize, j: usize)
        requires { (j < n) × (n ≤ max_pages)
            × Settled self.old.keys self.old.tails n self.old.tree (Above ((n + j) / 2)) }
        ensures rest { self.new ≡ record self.old { tree = self.new.tree } }
        ensures won { Won self.new.keys self.new.tails n self.new.tree }
    {
        let mut page = j as u16;
        let mut key = self.keys[j];
        let mut k = n + j;
        while 1 < k {
            let up = k / 2;
            let other = self.tree[4 * up + 1 - k];
            page = pick(self.is_ahead(page, key, other), page, other);
            key = self.keys[page as usize];
            self.tree[up] = page;
            k = up;
        }
    }

    // Of all pages but page `j` the one that is ahead, where there is another. Their leaves are below the nodes next to
    // leaf n + `j` and next to those above it.
    fn second_best(&self, n: usize, j: usize) -> Option<u16>
        requires { (j < n) × (n ≤ max_pages) × Won self.now.keys self.now.tails n self.now.tree }
        ensures { IfSome result (NextBest self.now.keys self.now.tails n j) }
    {
        if n == 1 {
            return None;
        }
        let leaf = n + j;
        let mut k = leaf / 2;
        let mut page = self.tree[4 * k + 1 - leaf];
        let mut key = self.keys[page as usize];
        while 1 < k {
            let up = k / 2;
            let other = self.tree[4 * up + 1 - k];
            if !self.is_ahead(page, key, other) {
                page = other;
                key = self.keys[other as usize];
            }
            k = up;
        }
        Some(page)
    }

    // Puts node 0. Where page `j`, which was ahead of all, is so again, a run has begun and the second is looked for;
    // else it is not known.
    pub fn put_second(&mut self, n: usize, j: usize)
        requires { (j < n) × (n ≤ max_pages) × Won self.old.keys self.old.tails n self.old.tree }
        ensures rest { self.new ≡ record self.old { tree = self.new.tree } }
        ensures won { Won self.new.keys self.new.tails n self.new.tree }
        ensures second { Second self.new.keys self.new.tails n self.new.tree }
    {
        if self.tree[1] != j as u16 {
            self.tree[0] = n as u16;
            return;
        }
        let second = self.second_best(n, j).unwrap_or(n as u16);
        self.tree[0] = second;
    }

    // Whether page `j` is ahead of the page that comes second, where that is known. Inside a run the keys alone tell it.
    pub fn stays_first(&self, n: usize, j: usize) -> bool
        requires { (j < n) × (n ≤ max_pages) }
        ensures { result ≡ true → (get_or self.now.tree 0 0 < n)
            × (ahead self.now.keys self.now.tails j (get_or self.now.tree 0 0) ≡ true) }
    {
        let second = self.tree[0];
        if n as u16 <= second {
            return false;
        }
        let key = self.keys[j];
        if key < self.keys[second as usize] {
            return true;
        }
        self.is_ahead(j as u16, key, second)
    }
}
