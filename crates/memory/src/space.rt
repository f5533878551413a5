//! Writing into a space from its front.
ghost use Rattle.std.specs.Prelude.{◌≡◌, ◌+◌, ◌<◌, ◌≤◌, ◌++◌, length, take, drop, Some, None};

/// Writes `part` at `at`, and says where it ends. A space too short for it is left as it was, and nothing is said.
// A position beside a space: this is the one place, and it refuses, as a public function has to, where its callers know better.
pub fn append(space: &mut [u8], at: usize, part: &[u8]) -> Option<usize>
    ensures end { at + length part.now ≤ length space.old → result ≡ Some (at + length part.now) }
    ensures holds { at + length part.now ≤ length space.old → space.new ≡ take at space.old ++ (part.now ++ drop (at + length part.now) space.old) }
    ensures short { length space.old < at + length part.now → (result ≡ None) × (space.new ≡ space.old) }
{
    if space.len() < at || space.len() - at < part.len() {
        return None;
    }
    let end = at + part.len();
    space[at..end].copy_from_slice(part);
    Some(end)
}
