// The log that the lines of a case program make.
ghost use Rattle.std.specs.Prelude.{◌≡◌, ◌+◌, ◌-◌, ◌≤◌, ◌++◌, length, min, take, ltb, set};
ghost use Rattle.laws.specs.Base.{if};

// The first `long` bytes of a buffer of N.
#[derive(Drop)]
pub struct Log<const N: usize> {
    bytes: [u8; N],
    long: usize,
    ghost fits: { long ≤ N },
}

impl<const N: usize> Log<N> {
    pub fn empty() -> Self
        ensures { result.long ≡ 0 }
    {
        Log {
            bytes: [0; N],
            long: 0,
        }
    }

    pub fn bytes(&self) -> &[u8]
        ensures { result.now ≡ take self.now.long self.now.bytes }
    {
        &self.bytes[..self.long]
    }

    // One record more, where there is room.
    pub fn push(&mut self, record: &[u8; 24])
        ensures { take self.new.long self.new.bytes ≡ if (ltb (N - self.old.long) 24) (take self.old.long self.old.bytes) (take self.old.long self.old.bytes ++ «record».now) }
    {
        let at = self.long;
        if N - at < 24 {
            return;
        }
        let bytes = &mut self.bytes[..];
        bytes[at..at + 24].copy_from_slice(record);
        self.long = at + 24;
    }

    // Another byte at a place of the buffer, where it has that place.
    pub fn set(&mut self, at: usize, value: u8)
        ensures { (self.new.long ≡ self.old.long) × (self.new.bytes ≡ set self.old.bytes at value) }
    {
        if at < N {
            self.bytes[at] = value;
        }
    }

    // Another length, of at most N: what a shorter log leaves behind is there again in a longer one.
    pub fn set_length(&mut self, long: usize)
        ensures { (self.new.long ≡ min long N) × (self.new.bytes ≡ self.old.bytes) }
    {
        self.long = long.min(N);
    }
}
