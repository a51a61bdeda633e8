// How often keys were counted.
ghost use Rattle.std.specs.Prelude.{◌≡◌, ◌+◌, ◌-◌, ◌<◌, ◌^◌, IfOk, Some, cond, unwrap_or};
ghost use Rattle.std.specs.BTreeMap.{get};
ghost use Rattle.std.specs.Ordering.{is_eq};

use std::alloc::AllocError;
use std::collections::BTreeMap;

/// How often a key was counted before. Counts it once more.
pub(crate) fn count_once<K: Ord + Drop>(
    counts: &mut BTreeMap<K, usize>,
    key: K,
) -> Result<usize, AllocError>
    requires room { unwrap_or (get K.cmp counts.old key) 0 < 2 ^ 64 - 1 }
    ensures before { IfOk result (λ before. before ≡ unwrap_or (get K.cmp counts.old key) 0) }
    ensures counted { IfOk result (λ before. (other : K) → get K.cmp counts.new other
        ≡ cond (is_eq (K.cmp key other)) (Some (before + 1)) (get K.cmp counts.old other)) }
{
    let before = counts.get(&key).copied().unwrap_or(0);
    counts.insert(key, before + 1)?;
    Ok(before)
}
