// Which row of a cache is found, by the columns of its fences alone.
ghost use Rattle.std.specs.Prelude.{◌≡◌, ◌<◌, length, IfSome};
ghost use Rattle.sh_cache.specs.Columns.{better_place, IsFoundAt};

/// Where the row stands that is found for a key: of those that cover it the one with the greatest low fence. The fences
/// are the rows' in their order.
#[tactic(auto, using(crate::proofs::PlaceLemmas::best_more))]
pub(crate) fn place_of_best(lows: &[u64], highs: &[u64], key: u64) -> Option<usize>
    requires { length highs.now ≡ length lows.now }
    ensures { IsFoundAt lows.now highs.now key result }
{
    let mut best = None;
    for at in 0..lows.len() {
        best = better(lows, highs, key, best, at);
    }
    best
}

// This row's place where it covers the key and its low fence is above the best one's, and else the best one's place.
fn better(lows: &[u64], highs: &[u64], key: u64, best: Option<usize>, at: usize) -> Option<usize>
    requires highs { length highs.now ≡ length lows.now }
    requires at { at < length lows.now }
    requires best { IfSome best (λ b. b < length lows.now) }
    ensures { result ≡ better_place lows.now highs.now key best at }
{
    if key < lows[at] || highs[at] <= key {
        return best;
    }
    let is_above = match best {
        Some(best) => lows[best] < lows[at],
        None => true,
    };
    if is_above { Some(at) } else { best }
}
