// At most N bytes, which lie in the value itself and are copied with it, as the kit's `ArrayVec` is not.
#![tactic(auto)]

ghost use Rattle.std.specs.Prelude.{◌≡◌, ◌≤◌, ◌<◌, ◌+◌, ◌++◌, ◌∷◌, ◌↔◌, ◌==◌, [], length, IsOk, OnOk, OnErr};

use std::marker::Model;
use std::ops::DerefSlice;

#[derive(Clone, Copy)]
pub struct ArrayBytes<const N: usize> {
    bytes: [u8; N],
    len: usize,
}

// Zeros stand behind the bytes, so that these alone say which value it is.
impl<const N: usize> Model for ArrayBytes<N> {
    ghost use Rattle.std.specs.Prelude.{◌-◌, ◌++◌, length, take, replicate};
    ghost use Rattle.array_bytes.specs.ArrayBytes.{ArrayBytes as Held, Padded, padded_back, length_back};

    ghost Value = { Held };

    ghost view = { λ v. record { items = take v.len v.bytes } };

    ghost invariant = { λ v. Padded N v.bytes v.len };

    ghost inverse = { λ h. record { bytes = h.items ++ replicate (N - length h.items) 0; len = length h.items } };

    ghost inverse_ok = { λ v p j. record { bytes = padded_back N v.bytes v.len p j; len = length_back N v.bytes v.len p j } };
}

// There is no room for more.
#[derive(Clone, Copy, PartialEq, Eq, Debug)]
pub struct NoRoom;

impl<const N: usize> ArrayBytes<N> {
    // No bytes.
    #[inline]
    pub fn new() -> Self
        ensures { result.items ≡ [] }
    {
        ArrayBytes {
            bytes: [0; N],
            len: 0,
        }
    }

    // How many more there is room for.
    #[inline]
    pub fn remaining_capacity(&self) -> usize
        ensures { result + length self.now.items ≡ N }
    {
        N - self.len
    }

    #[inline]
    pub fn is_empty(&self) -> bool
        ensures { result ≡ (length self.now.items == 0) }
    {
        self.len == 0
    }

    // One byte more.
    #[inline]
    pub fn try_push(&mut self, byte: u8) -> Result<(), NoRoom>
        ensures variant { IsOk result ↔ (length self.old.items < N) }
        ensures ok { OnOk result (self.new.items ≡ self.old.items ++ byte ∷ []) }
        ensures len { OnOk result (length self.new.items ≡ length self.old.items + 1) }
        ensures err { OnErr result (self.new ≡ self.old) }
    {
        if self.len == N {
            return Err(NoRoom);
        }
        self.bytes[self.len] = byte;
        self.len += 1;
        Ok(())
    }

    // The bytes of `part` more.
    #[inline]
    pub fn try_extend_from_slice(&mut self, part: &[u8]) -> Result<(), NoRoom>
        ensures variant { IsOk result ↔ (length self.old.items + length part.now ≤ N) }
        ensures ok { OnOk result (self.new.items ≡ self.old.items ++ part.now) }
        ensures len { OnOk result (length self.new.items ≡ length self.old.items + length part.now) }
        ensures err { OnErr result (self.new ≡ self.old) }
    {
        if N - self.len < part.len() {
            return Err(NoRoom);
        }
        let start = self.len;
        let end = start + part.len();
        let bytes = &mut self.bytes[..];
        bytes[start..end].copy_from_slice(part);
        self.len = end;
        Ok(())
    }
}

impl<const N: usize> DerefSlice for ArrayBytes<N> {
    type Elem = u8;

    ghost deref_gives = { λ v xs. (xs ≡ v.items) × (length xs ≤ N) };

    #[inline]
    fn deref(&self) -> &[u8] {
        &self.bytes[..self.len]
    }
}

impl<const N: usize> From<[u8; N]> for ArrayBytes<N> {
    ghost from_gives = { λ array v. v.items ≡ array };

    #[inline]
    fn from(bytes: [u8; N]) -> Self {
        ArrayBytes { bytes, len: N }
    }
}
