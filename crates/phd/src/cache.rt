// The class cache: four slots, filled in the order 0, 1, 2, 3, 0 ..
ghost use Rattle.std.specs.Prelude.{◌≡◌, cond, ◌<◌};
ghost use Rattle.phd.specs.Phd.{empty_cache, push as push_of, slot as slot_of};

// The class cache (the scope paper's term; docs/FORMAT.md 3.5): the class words in its four slots, and the count of pushes,
// 0 to 7, where each of 4 to 7 represents all counts from 4 on that are equal to it modulo 4. The slots are chosen by constant indexes, so
// that they can be kept in registers.
#[derive(Clone, Copy, Debug, PartialEq, Eq)]
pub struct Cache {
    pub classes: [u64; 4],
    pub pushes: usize,
}

impl Cache {
    // Returns the empty cache.
    #[tactic(auto, unfolding(crate::specs::Phd::empty_cache))]
    pub fn new() -> Self
        ensures { result ≡ empty_cache }
    {
        Cache {
            classes: [0; 4],
            pushes: 0,
        }
    }

    // Pushes a class word into the next slot.
    pub fn push(self, class: u64) -> Self
        ensures { result ≡ push_of self class }
    {
        let pushes = self.pushes;
        let at = pushes % 4;
        let before = self.classes;
        let classes = [
            decode::choice(at == 0, class, before[0]),
            decode::choice(at == 1, class, before[1]),
            decode::choice(at == 2, class, before[2]),
            decode::choice(at == 3, class, before[3]),
        ];
        Cache {
            classes,
            pushes: if pushes < 7 { pushes + 1 } else { 4 },
        }
    }

    // Pushes the class word of a record if its form is cached.
    pub fn push_if(self, cached: bool, class: u64) -> Self
        ensures { result ≡ cond cached (push_of self class) self }
    {
        if cached { self.push(class) } else { self }
    }

    // Returns the class word in slot i, if the slot has been filled.
    pub fn slot(self, i: usize) -> Option<u64>
        requires { i < 4 }
        ensures { result ≡ slot_of self i }
    {
        if i < self.pushes {
            let classes = self.classes;
            let low = decode::choice(i == 0, classes[0], classes[1]);
            let high = decode::choice(i == 2, classes[2], classes[3]);
            Some(decode::choice(i < 2, low, high))
        } else {
            None
        }
    }
}
