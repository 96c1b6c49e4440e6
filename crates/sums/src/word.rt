// What the seconds and nanoseconds of rows are read from: numbers, or their bytes with the lowest first. One pair of loops serves both.
ghost use Rattle.std.specs.Prelude.{◌≡◌};
ghost use Rattle.laws.specs.Bytes.{little};

pub trait Word<T>: Copy {
    ghost number: { Self → T };

    fn read(self) -> T
        ensures { result ≡ number self };
}

impl Word<u64> for u64 {
    ghost number = { λ n. n };

    fn read(self) -> u64 {
        self
    }
}

impl Word<u32> for u32 {
    ghost number = { λ n. n };

    fn read(self) -> u32 {
        self
    }
}

impl Word<u64> for [u8; 8] {
    ghost number = { little };

    #[tactic(auto, using(crate::proofs::Words::eight))]
    fn read(self) -> u64 {
        u64::from_le_bytes(self)
    }
}

impl Word<u32> for [u8; 4] {
    ghost number = { little };

    #[tactic(auto, using(crate::proofs::Words::four))]
    fn read(self) -> u32 {
        u32::from_le_bytes(self)
    }
}
