//! Elements of a bag with their counts, by rising element.

ghost use Rattle.std.specs.Prelude.{◌≡◌, ◌≤◌, ◌++◌, ℤ, length, take, drop, OnOk};
ghost use Rattle.std.specs.Int.Signed.{lt_z};
ghost use Rattle.hs_counts.specs.Counts.{Rises};
ghost use Rattle.hs_counts.specs.Listed.{starts_with, freed, put_count, with_count};

use hs_pure::NoMemory;

// Sets how often `x` is among the elements: not at all where `n` is not positive.
pub(crate) fn set_count(elements: &mut Vec<(i128, i128)>, x: i128, n: i128) -> Result<(), NoMemory>
    requires { Rises elements.old.items }
    ensures { OnOk result (elements.new.items ≡ with_count x n elements.old.items) }
{
    let place = free_place(elements, x);
    if n > 0 {
        elements.insert(place, (x, n))?;
    }
    Ok(())
}

// Takes `x` out, and tells its place among the elements.
fn free_place(elements: &mut Vec<(i128, i128)>, x: i128) -> usize
    requires { Rises elements.old.items }
    ensures within { result ≤ length elements.new.items }
    ensures place { (n : ℤ) → with_count x n elements.old.items ≡ take result elements.new.items ++ put_count x n (drop result elements.new.items) }
{
    let place = place(elements.as_slice(), x);
    if is_at(elements.as_slice(), place, x) {
        elements.remove(place);
    }
    place
}

// The place of `x`, whether it is there or not.
fn place(elements: &[(i128, i128)], x: i128) -> usize
    requires { Rises elements.now }
    ensures within { result ≤ length elements.now }
    ensures place { (n : ℤ) → with_count x n elements.now ≡ take result elements.now ++ put_count x n (freed x (drop result elements.now)) }
{
    elements.partition_point(
        |e: &(i128, i128)| -> bool
            ensures { result ≡ lt_z e.now.0 x }
        { e.0 < x },
    )
}

fn is_at(elements: &[(i128, i128)], place: usize, x: i128) -> bool
    requires { place ≤ length elements.now }
    ensures { result ≡ starts_with x (drop place elements.now) }
{
    place < elements.len() && elements[place].0 == x
}
