//! Copying between buffers.
ghost use Rattle.std.specs.Prelude.{◌≡◌, ◌≤◌, length, take, drop};

/// Copies the first `count` bytes of `from` over the first of `to`.
pub fn copy_front(from: &[u8], count: usize, to: &mut [u8])
    requires given { count ≤ length from.now }
    requires room { count ≤ length to.old }
    ensures front { take count to.new ≡ take count from.now }
    ensures rest { drop count to.new ≡ drop count to.old }
{
    let (bytes, _) = from.split_at(count);
    let (front, _) = to.split_at_mut(count);
    front.copy_from_slice(bytes);
}
