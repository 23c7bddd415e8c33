// A set of places: a run of places put among those that are held. It serves the reading of a block.
#![tactic(auto)]

ghost use Rattle.std.specs.Prelude.{◌≡◌, true, ◌+◌, ◌-◌, ◌≤◌, ◌<◌, ltb, length, drop, [], count_by};
ghost use Rattle.std.proofs.Math.Seq.{paste};
ghost use Rattle.codes.specs.Places.{places_end, capacity, place_of, upward};
ghost use Rattle.codes.specs.Serving.{First, Low};
ghost use Rattle.sets.specs.Held.{places_for, places_in, Good};
ghost use Rattle.sets.specs.Runs.{all_below, Grown};

// Places, strictly ascending: the first `count` numbers. The others are zeros.
#[derive(Clone, Copy)]
pub struct Places {
    pub held: [u32; 120],
    pub count: usize,
}

// What became of a run that was to be put in: its places are held now, there would be more than 120, or one of them was held already.
#[derive(Clone, Copy)]
pub enum Put {
    Held,
    Over,
    Twice,
}

impl Places {
    // No places.
    pub fn new() -> Places
        ensures { result ≡ places_for [] }
    {
        Places {
            held: [0; 120],
            count: 0,
        }
    }

    // Puts the places of one element to those that are held.
    pub fn cover(&mut self, prefix: usize, first: usize, last: usize) -> Put
        requires good { Good self.old }
        requires low { Low prefix first last }
        ensures { Grown self.old (place_of prefix first) (place_of prefix last + 1) self.new result }
    {
        let p = (prefix * 1000 + first) as u32;
        let q = (prefix * 1000 + last + 1) as u32;
        self.put_run(p, q)
    }

    // Puts in the places from p up to before q. Blocks are mostly written in ascending order, and then nothing has to move.
    fn put_run(&mut self, p: u32, q: u32) -> Put
        requires good { Good self.old }
        requires p_lt_q { (p < q) × (q ≤ places_end) }
        ensures { Grown self.old p q self.new result }
    {
        if self.are_below(p) {
            return self.append(p, q);
        }
        self.insert(p, q)
    }

    // Whether all places are below p. They ascend, so the last one tells.
    fn are_below(&self, p: u32) -> bool
        requires { Good self.now }
        ensures { result ≡ all_below p (places_in self.now) }
    {
        self.count == 0 || self.held[self.count - 1] < p
    }

    // Puts the places from p up to before q behind those that are held, which are all below p.
    fn append(&mut self, p: u32, q: u32) -> Put
        requires good { Good self.old }
        requires p_lt_q { (p < q) × (q ≤ places_end) }
        requires below { all_below p (places_in self.old) ≡ true }
        ensures { Grown self.old p q self.new result }
    {
        let n = (q - p) as usize;
        let count = self.count;
        let end = count + n;
        if 120 < end {
            return Put::Over;
        }
        self.fill(count, n, p);
        self.count = end;
        Put::Held
    }

    // Puts the places from p up to before q among those that are held: what is below p stays, the rest moves up behind them. The first that is not below p must
    // not be below q: it would be covered twice.
    fn insert(&mut self, p: u32, q: u32) -> Put
        requires good { Good self.old }
        requires p_lt_q { (p < q) × (q ≤ places_end) }
        ensures { Grown self.old p q self.new result }
    {
        let n = (q - p) as usize;
        let i = self.first_from(p);
        if i < self.count && self.held[i] < q {
            return Put::Twice;
        }
        let total = self.count + n;
        if 120 < total {
            return Put::Over;
        }
        self.make_way(i, n);
        self.fill(i, n, p);
        self.count = total;
        Put::Held
    }

    // The first index whose place is not less than p: so many are less. All are looked at, and zeros behind them up to a whole number of eights, since a loop
    // with no way out takes eight at a time; a zero is less than p, so they are taken off again.
    fn first_from(&self, p: u32) -> usize
        requires { Good self.now }
        ensures is { First p (places_in self.now) result }
        ensures most { result ≤ self.now.count }
    {
        if p == 0 {
            return 0;
        }
        let end = (self.count + 7) / 8 * 8;
        count_below(&self.held[..end], p) as usize - (end - self.count)
    }

    // Moves the places from index i on up by n. Where there is room, zeros behind them move with them, so that whole eights do: how many move is what no processor
    // foretells, and the fewer turns a loop may take, the less that costs.
    fn make_way(&mut self, i: usize, n: usize)
        requires good { Good self.old }
        requires i_le_count { (i ≤ self.old.count) × (self.old.count + n ≤ capacity) }
        ensures held { self.new.held ≡ paste self.old.held (i + n) (drop i self.old.held) (self.old.count - i) }
        ensures count { self.new.count ≡ self.old.count }
    {
        let m = self.count - i;
        let eights = (m + 7) / 8 * 8;
        if i + n + eights <= 120 {
            self.held.copy_within(i..i + eights, i + n);
        } else {
            self.held.copy_within(i..i + m, i + n);
        }
    }

    // Stores n places from p up, from index `at` on. Most elements have one place: the first is none of the loop's.
    fn fill(&mut self, at: usize, n: usize, p: u32)
        requires le_n { 1 ≤ n }
        requires n_in_bounds { at + n ≤ length self.old.held }
        requires n_bound { p + n ≤ places_end }
        ensures held { self.new.held ≡ paste self.old.held at (upward p n) n }
        ensures count { self.new.count ≡ self.old.count }
    {
        for k in 1..n {
            self.held[at + k] = p + k as u32;
        }
        self.held[at] = p;
    }
}

// How many of these are below p. No way leads out of the loop.
fn count_below(places: &[u32], p: u32) -> u32
    requires { length places.now ≤ capacity }
    ensures { result ≡ count_by (λ x. ltb x p) places.now }
{
    places.iter().map(|place| u32::from(*place < p)).sum()
}
