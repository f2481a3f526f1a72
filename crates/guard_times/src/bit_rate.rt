ghost use Rattle.std.specs.Prelude.{◌≤◌};

/// How many bits a link sends in a second at most.
const MOST_BITS: usize = 4_000_000;

/// The rate of a link: how many bits it sends in a second, from 1 to 4,000,000.
#[derive(Clone, Copy, Debug, PartialEq, Eq)]
pub struct BitRate {
    bits: usize,
    ghost range: { (1 ≤ bits) × (bits ≤ 4000000) },
}

impl BitRate {
    ghost use Rattle.std.specs.Prelude.{◌≡◌, ◌↔◌, IsSome, IfSome};
    ghost use Rattle.guard_times.specs.Rate.{bits_a_second};

    /// The rate of so many bits a second, or `None` outside 1 to 4,000,000.
    pub fn new(bits: usize) -> Option<BitRate>
        ensures made { IsSome result ↔ ((1 ≤ bits) × (bits ≤ 4000000)) }
        ensures value { IfSome result (λ rate. bits_a_second rate ≡ bits) }
    {
        if (1..=MOST_BITS).contains(&bits) {
            Some(BitRate { bits })
        } else {
            None
        }
    }

    /// How many bits are sent in a second.
    pub fn bits_a_second(self) -> usize
        ensures value { result ≡ bits_a_second self }
        ensures range { (1 ≤ result) × (result ≤ 4000000) }
    {
        self.bits
    }
}
