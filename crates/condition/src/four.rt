// Up to four of a kind, as a condition has comparisons.
ghost use Rattle.std.specs.Prelude.{◌≡◌};
ghost use Rattle.condition.specs.Four.{used};

// The first `count` of four.
#[derive(Clone, Copy)]
pub struct Four<T> {
    pub count: u8,
    pub items: [T; 4],
}

impl<T> Four<T> {
    // Those in use.
    #[tactic(auto, using(std::proofs::lemmas::List::take_min))]
    pub fn used(&self) -> &[T]
        ensures { result.now ≡ used self.now }
    {
        let items = self.items.as_slice();
        &items[..items.len().min(self.count as usize)]
    }
}
