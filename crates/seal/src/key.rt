ghost use Rattle.std.specs.Prelude.{◌≡◌};

// The two words of a tag key, as a caller hands them in.
#[derive(Drop)]
pub struct KeyRecord {
    pub k0: u64,
    pub k1: u64,
}

// Borrows a key record for the time of a set-up, and zeroes it at its end.
pub(crate) struct Wipe<'a> {
    pub(crate) key: &'a mut KeyRecord,
}

impl Drop for Wipe<'_> {
    fn drop(self)
        ensures k0 { self.exit.0.now.k0 ≡ 0 }
        ensures k1 { self.exit.0.now.k1 ≡ 0 }
    {
        self.key.k0 = 0;
        self.key.k1 = 0;
        let Wipe { key: _ } = self;
    }
}
