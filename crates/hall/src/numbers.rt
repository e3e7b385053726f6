// Numbers in bytes, low byte first. Past the end there are zeros, so that nothing is read out of bounds.
ghost use Rattle.std.specs.Prelude.{◌≡◌, ℕ, ◌+◌, ◌^◌, ◌<◌, slice_index};
ghost use Rattle.hall.specs.Bytes.{byte, little, signed_2, signed_8};

use std::array::from_fn;

// The bytes from number `at` on.
#[derive(Clone, Copy)]
pub(crate) struct Tail<'a> {
    pub bytes: &'a [u8],
    pub at: u32,
}

impl Tail<'_> {
    // The number of the byte that stands k further on.
    pub(crate) fn index(&self, k: u16) -> usize
        ensures value { result ≡ self.now.at + k }
        ensures bound { result < 2 ^ 33 }
    {
        self.at as usize + usize::from(k)
    }

    fn bytes_at<const N: usize>(&self, k: u16) -> [u8; N]
        requires { N < 2 ^ 32 }
        ensures { (i : ℕ) → i < N → slice_index result i ≡ byte self.now.bytes.now (self.now.at + k + i) }
    {
        let from = self.index(k);
        from_fn(|i| self.bytes.get(from + i).copied().unwrap_or(0))
    }

    pub(crate) fn byte(&self) -> u8
        ensures { result ≡ byte self.now.bytes.now self.now.at }
    {
        self.bytes.get(self.at as usize).copied().unwrap_or(0)
    }

    #[tactic(auto, unfolding(crate::specs::Bytes::little))]
    pub(crate) fn u16(&self, k: u16) -> u16
        ensures { result ≡ little 2 self.now.bytes.now (self.now.at + k) }
    {
        u16::from_le_bytes(self.bytes_at(k))
    }

    // Two bytes with sign, in a wider number.
    pub(crate) fn i16(&self, k: u16) -> i64
        ensures { result ≡ signed_2 self.now.bytes.now (self.now.at + k) }
    {
        i64::from(self.u16(k).cast_signed())
    }

    #[tactic(auto, unfolding(crate::specs::Bytes::little))]
    pub(crate) fn u64(&self, k: u16) -> u64
        ensures { result ≡ little 8 self.now.bytes.now (self.now.at + k) }
    {
        u64::from_le_bytes(self.bytes_at(k))
    }

    pub(crate) fn i64(&self, k: u16) -> i64
        ensures { result ≡ signed_8 self.now.bytes.now (self.now.at + k) }
    {
        self.u64(k).cast_signed()
    }
}
