//! Search in a sorted list.

ghost use Rattle.std.specs.Prelude.{◌≡◌, ◌≤◌, true, false, length};
ghost use Rattle.std.specs.Ordering.{is_lt};
ghost use Rattle.std.specs.List.Sorted.{IsSorted, IsPartitionPoint};

/// The number of search levels in the loop of fixed length; they suffice for lists of up to 8,191
/// items.
const LEVELS: u32 = 12;

/// Returns how many items of a sorted list are less than this one. It takes about log n steps for n
/// items.
///
/// No branch depends on an item, so that branch prediction cannot fail. The length of the part that
/// is left is a power of two, and the result of each comparison is shifted into its place. With a
/// product in place of the shift, a compiler makes a branch. The loop of fixed length can be
/// unrolled, so that it shifts by constants; on many processors a shift by a variable takes three
/// steps.
pub fn count_below<T: Copy + Ord>(sorted: &[T], item: T) -> usize
    requires { IsSorted T.cmp sorted.now }
    ensures bound { result ≤ length sorted.now }
    ensures parted { IsPartitionPoint (λ other. is_lt (T.cmp other item) ≡ true)
        (λ other. is_lt (T.cmp other item) ≡ false) sorted.now result }
{
    if sorted.is_empty() {
        return 0;
    }
    let mut shift = sorted.len().ilog2();
    let over = sorted.len() - (1 << shift);
    let mut base = over * usize::from(sorted[over].cmp(&item).is_lt());
    while shift > LEVELS {
        shift -= 1;
        let is_less = sorted[base + (1 << shift)].cmp(&item).is_lt();
        base += usize::from(is_less) << shift;
    }
    for done in 0..LEVELS {
        let level = LEVELS - 1 - done;
        if level < shift {
            let is_less = sorted[base + (1 << level)].cmp(&item).is_lt();
            base += usize::from(is_less) << level;
        }
    }
    base + usize::from(sorted[base].cmp(&item).is_lt())
}
