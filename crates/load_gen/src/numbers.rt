// Numbers drawn one after another, and lists that they shuffle.
ghost use Rattle.std.specs.Prelude.{◌≡◌, ◌-◌, ◌≤◌, length};
ghost use Rattle.load_gen.specs.Numbers.{next_number, seed_number};
ghost use Rattle.load_gen.specs.Shuffles.{shuffle};

use std::marker::Model;

/// Marsaglia's xorshift generator of 64 bits, by the last number that was drawn.
#[derive(Drop)]
pub struct Numbers {
    last: u64,
}

impl Model for Numbers {
    ghost use Rattle.std.specs.Prelude.{ℕ};

    ghost Value = { ℕ };

    ghost view = { λ n. n.last };
}

impl Numbers {
    /// The numbers behind `start`. In place of 0, behind which only 0 would come, it is 1.
    pub fn new(start: u64) -> Numbers
        ensures { result ≡ seed_number start }
    {
        Numbers {
            last: if start == 0 { 1 } else { start },
        }
    }

    /// The next number, of 64 bits.
    #[tactic(auto, unfolding(crate::specs::Numbers::next_number, crate::specs::Numbers::left_xor, crate::specs::Numbers::right_xor))]
    pub fn draw(&mut self) -> u64
        ensures drawn { result ≡ next_number self.old }
        ensures last { self.new ≡ result }
    {
        let mut x = self.last;
        x ^= x << 13;
        x ^= x >> 7;
        x ^= x << 17;
        self.last = x;
        x
    }
}

/// Puts the items into another order.
pub fn shuffle_items(items: &mut [u32], numbers: &mut Numbers)
    requires { length items.old ≤ 8 }
    ensures items { items.new ≡ (shuffle (length items.old - 1) items.old numbers.old).items }
    ensures number { numbers.new ≡ (shuffle (length items.old - 1) items.old numbers.old).number }
{
    for i in (1..items.len()).rev() {
        let other = numbers.draw() % (i as u64 + 1);
        items.swap(i, other as usize);
    }
}
