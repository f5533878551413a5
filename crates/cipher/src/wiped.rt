//! Memory that is zeroed when its work is done.
ghost use Rattle.std.specs.Prelude.{◌≡◌, length, replicate};
ghost use Rattle.cipher.specs.Wiped.{is_zero};

// By halves: so it stays a call of its own in the compiled program. In line, the compiler would see that what was written
// is zero, and drop the loop of `wipe`.
fn is_zero(bytes: &[u8]) -> bool
    ensures { result ≡ is_zero bytes.now }
{
    match bytes {
        [] => true,
        [byte] => *byte == 0,
        _ => {
            let (left, right) = bytes.split_at(bytes.len() / 2);
            is_zero(left) && is_zero(right)
        }
    }
}

// The bytes are read again after they are written, so that no optimizer takes the writes for useless.
fn wipe(bytes: &mut [u8])
    ensures { bytes.new ≡ replicate (length bytes.old) 0 }
{
    while !is_zero(bytes) {
        bytes.fill(0);
    }
}

/// Lends out the work bytes, and sets all of them to zero on every way out of its scope.
pub struct Wiped<'a> {
    pub bytes: &'a mut [u8],
}

impl Drop for Wiped<'_> {
    fn drop(self)
        ensures { self.exit.0.now ≡ replicate (length self.entry.bytes.now) 0 }
    {
        let Wiped { bytes } = self;
        wipe(bytes);
    }
}
