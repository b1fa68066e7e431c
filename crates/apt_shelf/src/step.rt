//! How many bytes a read gives at most.
ghost use Rattle.std.specs.Prelude.{◌≡◌, ◌≤◌, ◌<◌, min};

/// A greatest number of bytes, which is not 0.
#[derive(Drop)]
pub(crate) struct Step {
    bytes: usize,
    ghost some: { 1 ≤ bytes },
}

impl Step {
    pub(crate) fn new(bytes: usize) -> Step
        requires { 1 ≤ bytes }
        ensures { result.bytes ≡ bytes }
    {
        Step { bytes }
    }

    /// How many bytes are given at most where there is so much room.
    pub(crate) fn within(&self, room: usize) -> usize
        ensures count { result ≡ min self.now.bytes room }
        ensures some { 0 < room → 0 < result }
    {
        self.bytes.min(room)
    }
}
