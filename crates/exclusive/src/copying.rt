// The first items of one slice, written over those of another.
ghost use Rattle.std.specs.Prelude.{◌≡◌, ◌++◌, length, take, drop, min};

// The first n items, or as many as both slices have, written over those of the other; what stands beyond stays. One by
// one, since `copy_from_slice` becomes C's memmove here, which the archive for C does not ask for. By index: of items
// that are written through a `zip` nothing is known after the loop.
pub fn copy_first<T: Copy>(from: &[T], to: &mut [T], n: usize)
    ensures { let m = min n (min (length from.now) (length to.old)) in
        to.new ≡ take m from.now ++ drop m to.old }
{
    let count = n.min(from.len().min(to.len()));
    for s in 0..count {
        to[s] = from[s];
    }
}
