// Which worker takes the next step.
ghost use Rattle.std.specs.Prelude.{◌≡◌, ◌<◌, ◌≤◌, length};

/// Who steps when on one board: first the workers of a list, then drawn ones, and then one worker after the other.
#[derive(Drop)]
pub(crate) struct Turns<'a> {
    list: &'a [u32],
    place: usize,
    /// How many more are drawn.
    drawn: u32,
    state: u64,
    pub(crate) workers: u32,
    last: u32,
    ghost some: { 0 < workers },
    ghost known: { last < workers },
}

impl Turns<'_> {
    /// The turns of so many workers: those of the list, and then so many drawn ones.
    pub(crate) fn new(list: &[u32], drawn: u32, seed: u64, workers: u32) -> Turns<'_>
        requires { 0 < workers }
        ensures { result.workers ≡ workers }
    {
        Turns {
            list,
            place: 0,
            drawn,
            state: seed,
            workers,
            last: workers - 1,
        }
    }

    /// The next number of a linear congruence modulo 2^64, with the constants of Knuth's MMIX.
    fn draw(&mut self) -> u64
        ensures { self.new.workers ≡ self.old.workers }
    {
        self.state = self
            .state
            .wrapping_mul(6_364_136_223_846_793_005)
            .wrapping_add(1_442_695_040_888_963_407);
        self.state >> 32
    }

    /// The worker that takes the next step.
    pub(crate) fn next(&mut self) -> u32
        ensures worker { result < self.old.workers }
        ensures workers { self.new.workers ≡ self.old.workers }
    {
        let workers = self.workers;
        if self.place < self.list.len() {
            let worker = self.list[self.place];
            self.place += 1;
            return worker % workers;
        }
        if self.drawn > 0 {
            self.drawn -= 1;
            return (self.draw() % u64::from(workers)) as u32;
        }
        self.last = (self.last + 1) % workers;
        self.last
    }
}
