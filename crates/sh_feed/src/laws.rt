// What the rule says, in plain words.
ghost use Rattle.std.specs.Prelude.{◌≡◌, ℕ, ◌-◌, ◌==◌, ◌<◌, ◌≤◌, Option, Some, List, [], length, drop, slice_get};
ghost use Rattle.sh_map.specs.declared.call.Call.{Call};
ghost use Rattle.sh_local.specs.Calls.{total};
ghost use Rattle.sh_feed.specs.{declared.{job.Job.{Job, TheVariants.{Ask}}, view.{Setup.{Setup}, View.{View}}}, Jobs.{all_asks, asks_where, AreNumbered, FeedKept, one, end_one}, Views.{all_taken}, Rule.{Kept, Given}};

/// What holds between any two steps: the jobs that all takers took and those in the queue are the jobs given, each once; each
/// taker's numbers rise, and it took its jobs in the order in which they were given; and those in the queue are the last ones.
pub fn kept_at_each_moment()
    ensures { (items : List Job) (views : List View) → Kept items views → (given : List Job) × FeedKept given (all_taken views) items × Given views given }
{}

/// The books of a feed that was gathered, number by number: each Ask that a taker took is the one that was given with
/// that number; each number has one owner, and what a taker took are, in their order, the Asks of its numbers; the Asks left have greater numbers than all taken; what is left is what was given but for as many as were taken; and
/// nothing is left where as many jobs were taken as given, or at least one End and all Ends were.
pub fn books_of_a_feed()
    ensures taken { (s : Option Setup) (given : List Job) (takens : List (List Job)) (left : List Job) → AreNumbered s 1 given → FeedKept given takens left → (i j : ℕ) (l : List Job) (n : ℕ) (c : Call) → slice_get takens i ≡ Some l → slice_get l j ≡ Some (Ask n c) → (1 ≤ n) × (slice_get given (n - 1) ≡ Some (Ask n c)) }
    ensures greatest { (s : Option Setup) (given : List Job) (takens : List (List Job)) (left : List Job) → AreNumbered s 1 given → FeedKept given takens left → (i j : ℕ) (l : List Job) (n : ℕ) (c : Call) (q m : ℕ) (d : Call) → slice_get takens i ≡ Some l → slice_get l j ≡ Some (Ask n c) → slice_get left q ≡ Some (Ask m d) → n < m }
    ensures owners { (s : Option Setup) (given : List Job) (takens : List (List Job)) (left : List Job) → AreNumbered s 1 given → FeedKept given takens left → (owner : ℕ → ℕ) × ((k : ℕ) (l : List Job) → slice_get takens k ≡ Some l → all_asks l ≡ asks_where (λ n. owner n == k) given) }
    ensures left_is { (s : Option Setup) (given : List Job) (takens : List (List Job)) (left : List Job) → AreNumbered s 1 given → FeedKept given takens left → left ≡ drop (total (total one) takens) given }
    ensures by_count { (s : Option Setup) (given : List Job) (takens : List (List Job)) (left : List Job) → AreNumbered s 1 given → FeedKept given takens left → length given ≤ total (total one) takens → left ≡ [] }
    ensures by_ends { (s : Option Setup) (given : List Job) (takens : List (List Job)) (left : List Job) → AreNumbered s 1 given → FeedKept given takens left → 1 ≤ total end_one given → total end_one given ≤ total (total end_one) takens → left ≡ [] }
{}
