// Sets of ids (01: of names) as eight words: id k, 0 <= k < 256, is bit k % 32 of word k / 32.
ghost use Rattle.std.specs.Prelude.{◌≡◌};
ghost use Rattle.causal.specs.Sets.{is_in, inserted, unite, minus, is_empty, subset_of, size_of, lowest_of};

// Is k a member? A number from 256 on is none.
pub fn contains(set: [u32; 8], k: usize) -> bool
    ensures { result ≡ is_in set k }
{
    k < 256 && (set[k / 32] >> (k % 32)) % 2 == 1
}

// The set with k. A number from 256 on leaves it as it is. All words at once, so that the set stays in registers:
// a store at a place that is computed would put it into memory.
pub fn insert(set: [u32; 8], k: usize) -> [u32; 8]
    ensures { result ≡ inserted set k }
{
    if k >= 256 {
        return set;
    }
    std::array::from_fn(|i| set[i] | u32::from(i == k / 32) << (k % 32))
}

pub fn union(a: [u32; 8], b: [u32; 8]) -> [u32; 8]
    ensures { result ≡ unite a b }
{
    std::array::from_fn(|i| a[i] | b[i])
}

// a without the members of b.
pub fn without(a: [u32; 8], b: [u32; 8]) -> [u32; 8]
    ensures { result ≡ minus a b }
{
    std::array::from_fn(|i| a[i] & !b[i])
}

// Are all eight words 0? Asked of all at once.
pub fn is_empty(set: [u32; 8]) -> bool
    ensures { result ≡ is_empty set }
{
    set == [0; 8]
}

// Is every member of a one of b?
#[tactic(auto, using(crate::proofs::Sets::subset_left))]
pub fn subset(a: [u32; 8], b: [u32; 8]) -> bool
    ensures { result ≡ subset_of a b }
{
    is_empty(without(a, b))
}

// How many members.
pub fn size(set: [u32; 8]) -> usize
    ensures { result ≡ size_of set }
{
    set.iter().map(|w| w.count_ones() as usize).sum()
}

// The least member.
#[tactic(auto, using(crate::proofs::Sets::scan), unfolding(crate::specs::Sets::lowest_of))]
pub fn lowest_of(set: [u32; 8]) -> Option<usize>
    ensures { result ≡ lowest_of set }
{
    for (i, &w) in set.iter().enumerate() {
        if w != 0 {
            return Some(32 * i + w.trailing_zeros() as usize);
        }
    }
    None
}
