// Adding diamonds, and taking them back.
ghost use Rattle.std.specs.Prelude.{◌≡◌, ◌-◌, leb, [], ◌∷◌, ◌++◌, length, take, if◌then◌else◌, Some, None, nat_le, nat_lt};

use crate::chains::{chain, unchain};
use crate::finding::ROOM;
use crate::tables::UniqueTable;
use diagram::edges::Diamond;

// Whether so many diamonds are as many as a table holds.
fn is_full(count: usize) -> bool
    ensures { result ≡ nat_le 1024 count }
{
    count >= ROOM
}

// Whether there are more than so many diamonds.
fn is_over(count: usize, limit: usize) -> bool
    ensures { result ≡ nat_lt limit count }
{
    count > limit
}

impl UniqueTable {
    // Adds a diamond under the next number, which it answers; none where there are 1,024, and nothing changes.
    pub fn push(&mut self, diamond: Diamond) -> Option<usize>
        ensures answer { result ≡ (if leb 1024 (length self.old) then None else Some (length self.old)) }
        ensures diamonds { self.new ≡ (if leb 1024 (length self.old) then self.old else self.old ++ (diamond ∷ [])) }
    {
        let k = self.diamonds.len();
        if is_full(k) {
            return None;
        }
        chain(&mut self.heads, &mut self.links, diamond, k as u16);
        self.diamonds.push_reserved(diamond);
        Some(k)
    }

    // Takes the newest diamond back, if there is one.
    fn pop(&mut self)
        ensures { self.new ≡ take (length self.old - 1) self.old }
    {
        if let Some(diamond) = self.diamonds.pop() {
            unchain(&mut self.heads, &mut self.links, diamond);
        }
    }

    // Takes back all diamonds but the first `count`.
    pub fn cut(&mut self, count: usize)
        ensures { self.new ≡ take count self.old }
    {
        while is_over(self.len(), count) {
            self.pop();
        }
    }
}
