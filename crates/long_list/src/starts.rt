//! The starts of the chunks: how many elements stand before each.

ghost use Rattle.std.specs.Prelude.{◌++◌, take, drop, vec_items, ◌≡◌, ◌≤◌, ◌<◌, ◌+◌, ◌-◌, ◌^◌, length, map, All, nat_le};
ghost use Rattle.long_list.specs.Chunks.{IsLastReached, AreStarts, IsLocated, joined, starts_from};

// The chunk that a place is in.
fn chunk_at(starts: &[usize], at: usize) -> usize
    requires { AreStarts starts.now }
    ensures { IsLastReached starts.now at result }
{
    let after = starts.partition_point(
        |start: &usize| -> bool
            ensures { result ≡ nat_le start.now at }
        { *start <= at },
    );
    after - 1
}

// The chunk of a place, and the place in that chunk.
pub fn locate<T>(chunks: &[Vec<T>], starts: &[usize], at: usize) -> (usize, usize)
    requires begins { starts.now ≡ starts_from 0 (map vec_items chunks.now) }
    requires some { 0 < length (joined (map vec_items chunks.now)) }
    ensures { IsLocated (map vec_items chunks.now) at result.0 result.1 }
{
    let _all = chunks;
    let c = chunk_at(starts, at);
    (c, at - starts[c])
}

fn raise(starts: &mut [usize])
    requires { All (λ s. s + 1 < 2 ^ 64) starts.old }
    ensures { starts.new ≡ map (λ s. s + 1) starts.old }
{
    for start in starts.iter_mut() {
        *start += 1;
    }
}

fn lower(starts: &mut [usize])
    requires { All (λ s. 0 < s) starts.old }
    ensures { starts.new ≡ map (λ s. s - 1) starts.old }
{
    for start in starts.iter_mut() {
        *start -= 1;
    }
}

// Adds one to each start from a place on.
pub fn raise_from(starts: &mut Vec<usize>, from: usize)
    requires within { from ≤ length starts.old.items }
    requires room { All (λ s. s + 1 < 2 ^ 64) starts.old.items }
    ensures { starts.new.items ≡ take from starts.old.items ++ map (λ s. s + 1) (drop from starts.old.items) }
{
    raise(&mut starts[from..]);
}

// Takes one from each start from a place on.
pub fn lower_from(starts: &mut Vec<usize>, from: usize)
    requires within { from ≤ length starts.old.items }
    requires room { All (λ s. 0 < s) (drop from starts.old.items) }
    ensures { starts.new.items ≡ take from starts.old.items ++ map (λ s. s - 1) (drop from starts.old.items) }
{
    lower(&mut starts[from..]);
}
