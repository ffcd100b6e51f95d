// What a job holds by an index. One past the last counts from the first again.
ghost use Rattle.std.specs.Prelude.{◌≡◌, ◌<◌, option_copied};
ghost use Rattle.jobs.specs.Held.{held_in, keep_held};

// So many places, by their index.
#[derive(Drop)]
pub struct Places<T, const N: usize> {
    pub held: [Option<T>; N],
}

impl<T: Copy, const N: usize> Places<T, N> {
    pub fn new() -> Places<T, N> {
        Places { held: [None; N] }
    }

    // What is held as `i`, if anything is.
    pub fn get(&self, i: u64) -> Option<&T>
        ensures { option_copied result ≡ held_in self.now.held N i }
    {
        self.held.get((i as usize).checked_rem(N)?)?.as_ref()
    }

    pub fn keep(&mut self, i: u64, x: T)
        ensures { self.new.held ≡ keep_held self.old.held N i x }
    {
        if let Some(at) = (i as usize).checked_rem(N) {
            self.held[at] = Some(x);
        }
    }
}
